//! AES-128 (FIPS 197) of one block, a vector of sixteen octets.
//!
//! Between rounds the state is kept moved, each octet as two elements of the field of 16, and so are the round keys, which also
//! hold the constant of the substitution: no round moves the state there and back.

ghost use Rattle.std.specs.Prelude.{◌≡◌, List, ℕ, map, replicate};
ghost use Rattle.eps_keys.specs.Aes.{aes, last_round, next_key, round, xor_blocks};
ghost use Rattle.eps_keys.specs.Lanes.{IsOctets, masked, moved, moved_key};

use crate::lanes::{
    FIRST, FIRST_DOUBLED, FIRST_MOVED, SECOND, SECOND_DOUBLED, SECOND_MOVED, look_up, moved, split,
    sub_bytes,
};
use crate::zeros::{KEY_1, KEY_2, KEY_3, KEY_4, KEY_5, KEY_6, KEY_7, KEY_8, KEY_9, LAST};
use std::marker::Model;
use std::simd::prelude::*;

// The state before the first round.
#[inline(always)]
fn keyed(block: u8x16, key: u8x16) -> u8x16
    ensures { result ≡ map moved (xor_blocks block key) }
{
    moved(block ^ key)
}

// A round before the last.
#[inline(always)]
fn round(state: u8x16, key: u8x16) -> u8x16
    ensures { (s k : List ℕ) → IsOctets s → IsOctets k → state ≡ map moved s → key ≡ map moved_key k
        → result ≡ map moved (round s k) }
{
    let parts = split(state);
    let once = look_up(u8x16::from_array(FIRST_MOVED), parts.first)
        ^ look_up(u8x16::from_array(SECOND_MOVED), parts.second);
    let twice = look_up(u8x16::from_array(FIRST_DOUBLED), parts.first)
        ^ look_up(u8x16::from_array(SECOND_DOUBLED), parts.second);
    let thrice = once ^ twice;
    let own: u8x16 = twice.swizzle([0, 5, 10, 15, 4, 9, 14, 3, 8, 13, 2, 7, 12, 1, 6, 11]);
    let second: u8x16 = thrice.swizzle([5, 10, 15, 0, 9, 14, 3, 4, 13, 2, 7, 8, 1, 6, 11, 12]);
    let third: u8x16 = once.swizzle([10, 15, 0, 5, 14, 3, 4, 9, 2, 7, 8, 13, 6, 11, 12, 1]);
    let fourth: u8x16 = once.swizzle([15, 0, 5, 10, 3, 4, 9, 14, 7, 8, 13, 2, 11, 12, 1, 6]);
    (own ^ second) ^ ((third ^ fourth) ^ key)
}

// The last round.
#[inline(always)]
fn last_round(state: u8x16, key: u8x16) -> u8x16
    ensures { (s k : List ℕ) → IsOctets s → IsOctets k → state ≡ map moved s → key ≡ map masked k
        → result ≡ last_round s k }
{
    let parts = split(state);
    let substituted = look_up(u8x16::from_array(FIRST), parts.first)
        ^ look_up(u8x16::from_array(SECOND), parts.second);
    let shifted: u8x16 = substituted.swizzle([
        0, 5, 10, 15, 4, 9, 14, 3, 8, 13, 2, 7, 12, 1, 6, 11,
    ]);
    shifted ^ key
}

// The round key after this one (FIPS 197 clause 5.2).
#[inline(always)]
fn next_key(key: u8x16, constant: u8) -> u8x16
    ensures { result ≡ next_key constant key }
{
    let substituted = sub_bytes(key);
    let turned: u8x16 = substituted.swizzle([
        13, 14, 15, 12, 13, 14, 15, 12, 13, 14, 15, 12, 13, 14, 15, 12,
    ]);
    let constants = u8x16::from_array([
        constant, 0, 0, 0, constant, 0, 0, 0, constant, 0, 0, 0, constant, 0, 0, 0,
    ]);
    let word_1: u8x16 = key.swizzle([0, 1, 2, 3, 0, 1, 2, 3, 0, 1, 2, 3, 0, 1, 2, 3]);
    let word_2: u8x16 = key.swizzle([4, 5, 6, 7, 4, 5, 6, 7, 4, 5, 6, 7, 4, 5, 6, 7]);
    let word_3: u8x16 = key.swizzle([8, 9, 10, 11, 8, 9, 10, 11, 8, 9, 10, 11, 8, 9, 10, 11]);
    let word_4: u8x16 = key.swizzle([
        12, 13, 14, 15, 12, 13, 14, 15, 12, 13, 14, 15, 12, 13, 14, 15,
    ]);
    let first = (word_1 ^ turned) ^ constants;
    let second = word_2 ^ first;
    let third = word_3 ^ second;
    let fourth = word_4 ^ third;
    let front: u8x16 = first.shuffle(
        second,
        [0, 1, 2, 3, 20, 21, 22, 23, 0, 1, 2, 3, 20, 21, 22, 23],
    );
    let back: u8x16 = third.shuffle(
        fourth,
        [0, 1, 2, 3, 20, 21, 22, 23, 0, 1, 2, 3, 20, 21, 22, 23],
    );
    front.shuffle(
        back,
        [0, 1, 2, 3, 4, 5, 6, 7, 16, 17, 18, 19, 20, 21, 22, 23],
    )
}

// A key of a round as it is kept.
#[inline(always)]
fn moved_key(key: u8x16) -> u8x16
    ensures { result ≡ map moved_key key }
{
    moved(masked(key))
}

// The key of the last round as it is kept.
#[inline(always)]
fn masked(key: u8x16) -> u8x16
    ensures { result ≡ map masked key }
{
    key ^ u8x16::splat(0x63)
}

/// A key of 16 octets for many blocks, which contracts see as its octets: kept with its round keys (FIPS 197 clause 5.2).
#[derive(Clone, Copy)]
pub struct RoundKeys {
    key: u8x16,
    key_1: u8x16,
    key_2: u8x16,
    key_3: u8x16,
    key_4: u8x16,
    key_5: u8x16,
    key_6: u8x16,
    key_7: u8x16,
    key_8: u8x16,
    key_9: u8x16,
    last: u8x16,
}

impl Model for RoundKeys {
    ghost use Rattle.std.specs.Prelude.{ℕ, List};

    ghost Value = { List ℕ };

    ghost use Rattle.eps_keys.specs.RoundKeys.{AreRoundKeys, key_of, restored, round_keys};

    ghost view = { key_of };

    ghost invariant = { AreRoundKeys };

    ghost inverse = { round_keys };

    ghost inverse_ok = { restored };
}

impl RoundKeys {
    /// The key of 16 zeros, for which nothing is computed.
    pub fn zeros() -> Self
        ensures { result ≡ replicate 16 0 }
    {
        RoundKeys {
            key: u8x16::splat(0),
            key_1: u8x16::from_array(KEY_1),
            key_2: u8x16::from_array(KEY_2),
            key_3: u8x16::from_array(KEY_3),
            key_4: u8x16::from_array(KEY_4),
            key_5: u8x16::from_array(KEY_5),
            key_6: u8x16::from_array(KEY_6),
            key_7: u8x16::from_array(KEY_7),
            key_8: u8x16::from_array(KEY_8),
            key_9: u8x16::from_array(KEY_9),
            last: u8x16::from_array(LAST),
        }
    }

    /// The key, expanded once.
    pub fn new(key: &[u8; 16]) -> Self
        ensures { result ≡ key.now }
    {
        let key = u8x16::from_array(*key);
        let key_1 = next_key(key, 1);
        let key_2 = next_key(key_1, 2);
        let key_3 = next_key(key_2, 4);
        let key_4 = next_key(key_3, 8);
        let key_5 = next_key(key_4, 16);
        let key_6 = next_key(key_5, 32);
        let key_7 = next_key(key_6, 64);
        let key_8 = next_key(key_7, 128);
        let key_9 = next_key(key_8, 0x1b);
        let key_10 = next_key(key_9, 0x36);
        RoundKeys {
            key,
            key_1: moved_key(key_1),
            key_2: moved_key(key_2),
            key_3: moved_key(key_3),
            key_4: moved_key(key_4),
            key_5: moved_key(key_5),
            key_6: moved_key(key_6),
            key_7: moved_key(key_7),
            key_8: moved_key(key_8),
            key_9: moved_key(key_9),
            last: masked(key_10),
        }
    }

    /// A block of 16 octets encrypted under the key (FIPS 197 clause 5.1).
    pub fn encrypt(&self, block: u8x16) -> u8x16
        ensures { result ≡ aes self.now block }
    {
        let state_0 = keyed(block, self.key);
        let state_1 = round(state_0, self.key_1);
        let state_2 = round(state_1, self.key_2);
        let state_3 = round(state_2, self.key_3);
        let state_4 = round(state_3, self.key_4);
        let state_5 = round(state_4, self.key_5);
        let state_6 = round(state_5, self.key_6);
        let state_7 = round(state_6, self.key_7);
        let state_8 = round(state_7, self.key_8);
        let state_9 = round(state_8, self.key_9);
        last_round(state_9, self.last)
    }
}

/// One block of 16 octets encrypted by AES-128 under a key of 16 octets (FIPS 197 clause 5.1).
/// Neither the key nor the block chooses an address or a branch.
pub fn aes_encrypt(key: &[u8; 16], block: &[u8; 16]) -> [u8; 16]
    ensures { result ≡ aes key.now block.now }
{
    RoundKeys::new(key)
        .encrypt(u8x16::from_array(*block))
        .to_array()
}
