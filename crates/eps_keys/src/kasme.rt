//! KASME, and the keys that are derived of it (TS 33.401, annex A), by its masked blocks that are kept hashed.

ghost use Rattle.std.specs.Prelude.{◌≡◌, ◌≤◌, IfSome, replicate};
ghost use Rattle.eps_keys.specs.Hmac.{hmac_sha256, hop_at, kenb, nas_integrity_key, next_hop};

use crate::derive::{
    block_hashed, hmac_sha256, kenb_input, last_half, mac_from, nas_integrity_input, next_hop_input,
};
use crate::equal::same_octets;
use crate::secrets::{IntegrityKey, Kenb, NextHop};
use sha2::{Digest, Sha256};
use std::marker::Model;

// A copy of a hasher takes no memory, so it can't fail.
fn hasher_copy(hasher: &Sha256) -> Sha256
    ensures { result ≡ hasher.now }
{
    match hasher.clone() {
        Ok(copy) => copy,
        Err(_) => unreachable!(),
    }
}

// A copy of a hasher stands where another hasher stood. No temporary is moved there, as a returned copy is.
#[inline(always)]
fn place_hasher(to: &mut Sha256, from: &Sha256)
    ensures { to.new ≡ from.now }
{
    let _ = to.clone_from(from);
}

/// KASME, 32 octets, of which every other key comes (TS 33.401 clause 6.2); a contract sees its octets. It is kept with its block
/// under each of the two masks of HMAC hashed (RFC 2104 section 4), so that a key is derived by two blocks of SHA-256 in place of
/// four. It is neither copied unsaid nor printed nor compared.
#[derive(Drop)]
pub struct Kasme {
    key: [u8; 32],
    inner: Sha256,
    outer: Sha256,
    // whether the hashers have the blocks; a key that was forgotten has none
    is_hashed: bool,
}

impl Model for Kasme {
    ghost use Rattle.std.specs.Prelude.{ℕ, List};

    ghost Value = { List ℕ };

    ghost use Rattle.eps_keys.specs.Hashed.{IsHashed};

    ghost view = { λ k. k.key };

    ghost invariant = { IsHashed };
}

impl Kasme {
    /// KASME of these octets; takes no memory.
    pub fn new(key: &[u8; 32]) -> Self
        ensures { result ≡ key.now }
    {
        Kasme {
            key: *key,
            inner: block_hashed(key, 0x36),
            outer: block_hashed(key, 0x5c),
            is_hashed: true,
        }
    }

    /// Its octets, which are a secret.
    pub fn octets(&self) -> &[u8; 32]
        ensures { result.now ≡ self.now }
    {
        &self.key
    }

    /// The same key once more, for a copy of the context; takes no memory.
    pub fn copy(&self) -> Kasme
        ensures { result ≡ self.now }
    {
        Kasme {
            key: self.key,
            inner: hasher_copy(&self.inner),
            outer: hasher_copy(&self.outer),
            is_hashed: self.is_hashed,
        }
    }

    /// It is the same key as another one, which is copied where this one stands; takes no memory.
    pub fn copy_from(&mut self, other: &Kasme)
        ensures { self.new ≡ other.now }
    {
        self.key = other.key;
        place_hasher(&mut self.inner, &other.inner);
        place_hasher(&mut self.outer, &other.outer);
        self.is_hashed = other.is_hashed;
    }

    /// Leaves a key of zeros, of which nothing is hashed.
    ///
    /// Takes no memory.
    pub fn forget(&mut self)
        ensures { self.new ≡ replicate 32 0 }
    {
        self.key = [0; 32];
        self.inner = Sha256::new();
        self.outer = Sha256::new();
        self.is_hashed = false;
    }

    // The HMAC of a message under it: from what is hashed.
    #[tactic(auto, unfolding(crate::specs::Hmac::hmac_sha256))]
    fn mac(&self, message: &[u8]) -> [u8; 32]
        ensures { result ≡ hmac_sha256 self.now message.now }
    {
        if self.is_hashed {
            mac_from(&self.inner, &self.outer, message)
        } else {
            hmac_sha256(&self.key, message)
        }
    }

    /// The key of 16 octets for the integrity of NAS messages by 128-EIA2 (TS 33.401, A.7), as [`crate::nas_integrity_key`].
    #[tactic(auto, unfolding(crate::specs::Hmac::nas_integrity_key))]
    pub fn nas_integrity_key(&self) -> IntegrityKey
        ensures { result ≡ nas_integrity_key self.now }
    {
        IntegrityKey::new(last_half(&self.mac(&nas_integrity_input())))
    }

    /// The key KeNB of 32 octets for a base station, of an uplink NAS COUNT (TS 33.401, A.3), as [`crate::kenb`].
    #[tactic(auto, unfolding(crate::specs::Hmac::kenb))]
    pub fn kenb(&self, count: u32) -> Kenb
        ensures { result ≡ kenb self.now count }
    {
        Kenb::of_count(self.mac(&kenb_input(count)), count)
    }

    /// The first next hop key NH, of KeNB (TS 33.401, A.4), as [`crate::next_hop`].
    #[tactic(auto, unfolding(crate::specs::Hmac::next_hop))]
    pub fn first_hop(&self, kenb: &Kenb) -> NextHop
        ensures { result ≡ next_hop self.now kenb.now }
    {
        NextHop::of_number(self.mac(&next_hop_input(kenb.octets())), 1)
    }

    /// The next hop key NH after another (TS 33.401, A.4), as [`crate::next_hop`].
    #[tactic(auto, unfolding(crate::specs::Hmac::next_hop))]
    pub fn next_hop(&self, previous: &NextHop) -> NextHop
        ensures { result ≡ next_hop self.now previous.now }
    {
        let number = previous.number().saturating_add(1);
        NextHop::of_number(self.mac(&next_hop_input(previous.octets())), number)
    }

    /// The next hop key NH with a number, from 1 on, in the chain of a KeNB (TS 33.401, A.4).
    pub fn hop_at(&self, first: &Kenb, number: u64) -> NextHop
        requires { 1 ≤ number }
        ensures { result ≡ hop_at number self.now first.now }
    {
        let mut hop = self.first_hop(first);
        for passed in 1..number {
            hop = self.next_hop(&hop);
        }
        hop
    }

    /// The uplink NAS COUNT that a KeNB was derived with, only if deriving it once more gives the same key; else none.
    pub fn count_of(&self, key: &Kenb) -> Option<u32>
        ensures { IfSome result (λ count. key.now ≡ kenb self.now count) }
    {
        let count = key.count();
        let again = self.kenb(count);
        if !same_octets(key.octets(), again.octets()) {
            return None;
        }
        Some(count)
    }

    /// The number of a next hop in the chain of a KeNB, on the terms of `count_of`.
    ///
    /// That is derived once more up to it; none where it isn't of this chain.
    pub fn number_of(&self, first: &Kenb, hop: &NextHop) -> Option<u64>
        ensures { IfSome result (λ number. (1 ≤ number) × (hop.now ≡ hop_at number self.now first.now)) }
    {
        let number = hop.number();
        if number == 0 {
            return None;
        }
        let again = self.hop_at(first, number);
        if !same_octets(hop.octets(), again.octets()) {
            return None;
        }
        Some(number)
    }
}
