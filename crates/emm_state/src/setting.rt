//! What no step changes of a subscriber.

use identity_slots::{GivenVectors, Profile, Slot};
use mme_types::SharedNetwork;
use std::alloc::AllocError;

/// What no step changes of a subscriber: its network, its slot, its profile and its vectors.
#[derive(Drop)]
pub struct Setting {
    pub network: SharedNetwork,
    pub slot: Slot,
    pub profile: Profile,
    /// As they were given.
    pub vectors: GivenVectors,
}

impl Clone for Setting {
    ghost use Rattle.std.specs.Prelude.{◌≡◌};

    ghost is_clone = { λ x y. y ≡ x };

    fn clone(&self) -> Result<Setting, AllocError> {
        Ok(Setting {
            network: self.network.clone()?,
            slot: self.slot,
            profile: self.profile,
            vectors: self.vectors.clone()?,
        })
    }
}
