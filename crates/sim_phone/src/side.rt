//! The integrity algorithm as a phone has it.

ghost use Rattle.std.specs.Prelude.{◌≡◌};
ghost use Rattle.sim_phone.specs.Sides.{opposite};

use eps_keys::{DirectionBit, IntegrityKey};
use nas_security::{Eia2, Integrity};
use std::marker::Model;

/// 128-EIA2 under a key, with the directions exchanged, so that a security context over it is a phone's: what it protects
/// goes up, and what it accepts came down. Contracts see the key's octets.
#[derive(Clone, Copy)]
pub struct PhoneSide {
    algorithm: Eia2,
}

impl Model for PhoneSide {
    ghost use Rattle.std.specs.Prelude.{ℕ, List};

    ghost Value = { List ℕ };

    ghost view = { λ s. s.algorithm };

    ghost inverse = { λ key. record { algorithm = key } };
}

impl PhoneSide {
    /// The phone's side under a key.
    pub fn new(key: &IntegrityKey) -> PhoneSide
        ensures { result ≡ key.now }
    {
        PhoneSide {
            algorithm: Eia2::new(key),
        }
    }
}

impl Integrity for PhoneSide {
    ghost use Rattle.sim_phone.specs.Sides.{phone_mac};

    ghost mac_of = { phone_mac };

    fn mac(&self, count: u32, direction: DirectionBit, message: &[u8]) -> [u8; 4] {
        self.algorithm.mac(count, opposite(direction), message)
    }
}

fn opposite(direction: DirectionBit) -> DirectionBit
    ensures { result ≡ opposite direction }
{
    match direction {
        DirectionBit::Uplink => DirectionBit::Downlink,
        DirectionBit::Downlink => DirectionBit::Uplink,
    }
}
