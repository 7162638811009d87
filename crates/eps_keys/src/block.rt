//! Blocks of sixteen octets, as CMAC takes and adds them (RFC 4493).

ghost use Rattle.std.specs.Prelude.{◌≡◌, ◌+◌, ◌≤◌, length, take, drop};
ghost use Rattle.eps_keys.specs.Aes.{xor_blocks, zeros};
ghost use Rattle.eps_keys.specs.Cmac.{next_subkey};

use std::simd::prelude::*;

/// The block of zeros.
#[inline(always)]
pub fn zero() -> u8x16
    ensures { result ≡ zeros }
{
    u8x16::splat(0)
}

/// The block at a place of a message.
#[inline(always)]
pub fn at(message: &[u8], i: usize) -> u8x16
    requires { i + 16 ≤ length message.now }
    ensures { result ≡ take 16 (drop i message.now) }
{
    u8x16::from_slice(&message[i..])
}

/// Both, octet by octet by exclusive or.
#[inline(always)]
pub fn xor(left: u8x16, right: u8x16) -> u8x16
    ensures { result ≡ xor_blocks left right }
{
    left ^ right
}

/// The first four octets.
#[inline(always)]
pub fn first_octets(block: u8x16) -> [u8; 4]
    ensures { result ≡ take 4 block }
{
    let octets = block.to_array();
    [octets[0], octets[1], octets[2], octets[3]]
}

/// The subkey of CMAC after this one (RFC 4493, 2.3), without a branch: the bit that leaves the block masks the constant that is
/// added.
#[inline(always)]
pub fn next_subkey(block: u8x16) -> u8x16
    ensures { result ≡ next_subkey block }
{
    let leaving: u8x16 = (block >> u8x16::splat(7)).swizzle([
        1, 2, 3, 4, 5, 6, 7, 8, 9, 10, 11, 12, 13, 14, 15, 0,
    ]);
    let masks = u8x16::splat(0) - leaving;
    let entering = u8x16::from_array([1, 1, 1, 1, 1, 1, 1, 1, 1, 1, 1, 1, 1, 1, 1, 0x87]);
    (block << u8x16::splat(1)) ^ (masks & entering)
}
