//! The integrity algorithm of a context.

ghost use Rattle.std.specs.Prelude.{◌≡◌, replicate};
ghost use Rattle.nas_security.specs.Context.{Mac};

use eps_keys::{DirectionBit, IntegrityKey, MacKey};
use std::marker::Model;

/// An integrity algorithm of NAS signalling under one key (TS 33.401 clause B.2.1).
pub trait Integrity {
    /// The MAC of a count, a direction and a message.
    ghost mac_of: { Self → Mac };

    /// The MAC of four octets of a message with its count and direction (TS 24.301 clause 9.5).
    fn mac(&self, count: u32, direction: DirectionBit, message: &[u8]) -> [u8; 4]
        ensures { result ≡ mac_of self.now count direction message.now };
}

/// 128-EIA2 under a key of 16 octets (TS 33.401 clause B.2.3), which contracts see as the key's octets.
/// It is kept expanded, in 208 octets.
#[derive(Clone, Copy)]
pub struct Eia2 {
    key: MacKey,
}

impl Model for Eia2 {
    ghost use Rattle.std.specs.Prelude.{ℕ, List};

    ghost Value = { List ℕ };

    ghost view = { λ a. a.key };

    ghost inverse = { λ key. record { key = key } };
}

impl Eia2 {
    /// The algorithm under a key, which is expanded once.
    pub fn new(key: &IntegrityKey) -> Self
        ensures { result ≡ key.now }
    {
        Eia2 {
            key: MacKey::new(key.octets()),
        }
    }

    /// The algorithm under the key of 16 zeros.
    ///
    /// It stands where a key was forgotten; nothing is expanded for it.
    pub fn forgotten() -> Self
        ensures { result ≡ replicate 16 0 }
    {
        Eia2 {
            key: MacKey::zeros(),
        }
    }
}

impl Integrity for Eia2 {
    ghost use Rattle.eps_keys.specs.Eia2.{eia2};

    ghost mac_of = { eia2 };

    fn mac(&self, count: u32, direction: DirectionBit, message: &[u8]) -> [u8; 4] {
        self.key.eia2(count, direction, message)
    }
}
