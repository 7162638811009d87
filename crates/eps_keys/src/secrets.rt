//! The keys that are derived of KASME (TS 33.401, annex A), each of a type of its own that is neither copied unsaid nor printed nor
//! compared.

ghost use Rattle.std.specs.Prelude.{◌≡◌};

use std::marker::Model;

/// The key of NAS integrity by 128-EIA2, 16 octets (TS 33.401, A.7), which a contract sees as its octets.
#[derive(Drop)]
pub struct IntegrityKey {
    octets: [u8; 16],
}

impl Model for IntegrityKey {
    ghost use Rattle.std.specs.Prelude.{ℕ, List};

    ghost Value = { List ℕ };

    ghost view = { λ k. k.octets };
}

impl IntegrityKey {
    /// The key of these octets.
    pub fn new(octets: [u8; 16]) -> Self
        ensures { result ≡ octets }
    {
        IntegrityKey { octets }
    }

    /// Its octets, which are a secret.
    pub fn octets(&self) -> &[u8; 16]
        ensures { result.now ≡ self.now }
    {
        &self.octets
    }
}

/// The key KeNB of a base station, 32 octets (TS 33.401, A.3), which a contract sees as its octets.
#[derive(Drop)]
pub struct Kenb {
    octets: [u8; 32],
    // the uplink NAS COUNT that it was derived of, for `Kasme::count_of`, which derives it again; 0 where it was given
    count: u32,
}

impl Model for Kenb {
    ghost use Rattle.std.specs.Prelude.{ℕ, List};

    ghost Value = { List ℕ };

    ghost view = { λ k. k.octets };
}

impl Kenb {
    /// The key of these octets.
    pub fn new(octets: [u8; 32]) -> Self
        ensures { result ≡ octets }
    {
        Kenb { octets, count: 0 }
    }

    // The key of these octets, which were derived of a count.
    pub(crate) fn of_count(octets: [u8; 32], count: u32) -> Self
        ensures { result ≡ octets }
    {
        Kenb { octets, count }
    }

    // The count that it was derived of.
    pub(crate) fn count(&self) -> u32 {
        self.count
    }

    /// Its octets, which are a secret.
    pub fn octets(&self) -> &[u8; 32]
        ensures { result.now ≡ self.now }
    {
        &self.octets
    }

    /// The same once more.
    pub fn copy(&self) -> Self
        ensures { result ≡ self.now }
    {
        Kenb::of_count(self.octets, self.count)
    }
}

/// The next hop key NH, 32 octets (TS 33.401, A.4), which a contract sees as its octets.
#[derive(Drop)]
pub struct NextHop {
    octets: [u8; 32],
    // its number in its chain, for `Kasme::number_of`, which derives the chain again; 0 where it was given
    number: u64,
}

impl Model for NextHop {
    ghost use Rattle.std.specs.Prelude.{ℕ, List};

    ghost Value = { List ℕ };

    ghost view = { λ k. k.octets };
}

impl NextHop {
    /// The key of these octets.
    pub fn new(octets: [u8; 32]) -> Self
        ensures { result ≡ octets }
    {
        NextHop { octets, number: 0 }
    }

    // The key of these octets, which were derived as those of the hop with a number.
    pub(crate) fn of_number(octets: [u8; 32], number: u64) -> Self
        ensures { result ≡ octets }
    {
        NextHop { octets, number }
    }

    // Its number in its chain.
    pub(crate) fn number(&self) -> u64 {
        self.number
    }

    /// Its octets, which are a secret.
    pub fn octets(&self) -> &[u8; 32]
        ensures { result.now ≡ self.now }
    {
        &self.octets
    }

    /// The same once more.
    pub fn copy(&self) -> Self
        ensures { result ≡ self.now }
    {
        NextHop::of_number(self.octets, self.number)
    }
}
