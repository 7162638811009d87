//! The substitution (FIPS 197 clause 5.1.1) of the sixteen octets of a vector at once, by permutations of the lanes of a vector: no
//! octet chooses an address or a branch.
//!
//! The method is that of M. Hamburg, "Accelerating AES with Vector Permute Instructions" (2009); the constants are this crate's
//! own.

ghost use Rattle.std.specs.Prelude.{◌≡◌, ℕ, IsTrue, map};
ghost use Rattle.std.specs.Simd.Lanes.{Each1};
ghost use Rattle.eps_keys.specs.Field.{substitute};
ghost use Rattle.eps_keys.specs.Lanes.{first_part, is_place, looked, moved, second_part};

use std::simd::prelude::*;

// What the low half of an octet gives to its two elements.
pub const MOVED_LOW: [u8; 16] = [
    0x00, 0x01, 0x5f, 0x5e, 0x13, 0x12, 0x4c, 0x4d, 0x11, 0x10, 0x4e, 0x4f, 0x02, 0x03, 0x5d, 0x5c,
];

// What the high half gives.
pub const MOVED_HIGH: [u8; 16] = [
    0x00, 0xc9, 0xef, 0x26, 0xcd, 0x04, 0x22, 0xeb, 0x2e, 0xe7, 0xc1, 0x08, 0xe3, 0x2a, 0x0c, 0xc5,
];

// The inverse of an element; that of 0 is a place whose octet is 0.
pub const INVERSES: [u8; 16] = [
    0x80, 0x01, 0x08, 0x0d, 0x0f, 0x06, 0x05, 0x0e, 0x02, 0x0c, 0x0b, 0x0a, 0x09, 0x03, 0x07, 0x04,
];

// The constant of the extension over an element, likewise.
pub const QUOTIENTS: [u8; 16] = [
    0x80, 0x0c, 0x0d, 0x0b, 0x05, 0x04, 0x06, 0x09, 0x0e, 0x07, 0x0f, 0x03, 0x01, 0x02, 0x08, 0x0a,
];

// What the first part gives to the substituted octet, without the constant 0x63.
pub const FIRST: [u8; 16] = [
    0x00, 0xb1, 0x40, 0x80, 0x79, 0x88, 0xc0, 0xc8, 0xf9, 0x31, 0x08, 0xb9, 0xf1, 0x48, 0x39, 0x71,
];

// What the second part gives.
pub const SECOND: [u8; 16] = [
    0x00, 0xd3, 0x73, 0xae, 0x94, 0x34, 0xdd, 0x47, 0x3a, 0x7d, 0x9a, 0x49, 0xa0, 0xe9, 0xe7, 0x0e,
];

// The same, moved.
pub const FIRST_MOVED: [u8; 16] = [
    0x00, 0x09, 0xcd, 0x2e, 0xfb, 0x3f, 0xe3, 0xf2, 0xd5, 0x27, 0x11, 0x18, 0xc4, 0xdc, 0x36, 0xea,
];

// The same, moved.
pub const SECOND_MOVED: [u8; 16] = [
    0x00, 0x74, 0xb5, 0x9c, 0xf4, 0x35, 0x29, 0x80, 0x68, 0xe8, 0xa9, 0xdd, 0xc1, 0x1c, 0x41, 0x5d,
];

// The same times x, moved.
pub const FIRST_DOUBLED: [u8; 16] = [
    0x00, 0xfb, 0x2e, 0x86, 0x9a, 0x4f, 0xa8, 0x61, 0x1c, 0x7d, 0xc9, 0x32, 0xd5, 0xe7, 0xb4, 0x53,
];

// The same times x, moved.
pub const SECOND_DOUBLED: [u8; 16] = [
    0x00, 0x0b, 0x40, 0x80, 0x78, 0x33, 0xc0, 0x73, 0xf8, 0x8b, 0xb3, 0xb8, 0x4b, 0xf3, 0x38, 0xcb,
];

// The octets of a table at sixteen places.
#[inline(always)]
pub fn look_up(table: u8x16, places: u8x16) -> u8x16
    requires { Each1 (λ j. IsTrue (is_place j)) places }
    ensures { result ≡ map (looked table) places }
{
    table.swizzle_dyn(places)
}

/// Octets, each as two elements of the field of 16.
#[inline(always)]
pub fn moved(octets: u8x16) -> u8x16
    ensures { result ≡ map moved octets }
{
    look_up(u8x16::from_array(MOVED_LOW), octets & u8x16::splat(15))
        ^ look_up(u8x16::from_array(MOVED_HIGH), octets >> u8x16::splat(4))
}

// The two elements of each octet of whose inverses its inverse is a sum.
#[derive(Clone, Copy)]
pub struct Parts {
    pub first: u8x16,
    pub second: u8x16,
}

#[inline(always)]
pub fn split(state: u8x16) -> Parts
    ensures first { result.first ≡ map first_part state }
    ensures second { result.second ≡ map second_part state }
{
    let inverses = u8x16::from_array(INVERSES);
    let low = state & u8x16::splat(15);
    let high = state >> u8x16::splat(4);
    let both = high ^ low;
    let quotient = look_up(u8x16::from_array(QUOTIENTS), low);
    let place_1 = look_up(inverses, high) ^ quotient;
    let place_2 = look_up(inverses, both) ^ quotient;
    Parts {
        first: look_up(inverses, place_1) ^ both,
        second: look_up(inverses, place_2) ^ high,
    }
}

/// What SubBytes puts in place of octets (FIPS 197 clause 5.1.1).
#[inline(always)]
pub fn sub_bytes(octets: u8x16) -> u8x16
    ensures { result ≡ map substitute octets }
{
    let parts = split(moved(octets));
    look_up(u8x16::from_array(FIRST), parts.first)
        ^ look_up(u8x16::from_array(SECOND), parts.second)
        ^ u8x16::splat(0x63)
}
