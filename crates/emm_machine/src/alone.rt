//! A subscriber that shares its network with no other one.

ghost use Rattle.std.specs.Prelude.{◌≡◌, IfOk};
ghost use Rattle.emm_machine.specs.Words.{fresh_solo};

use crate::subscriber::Subscriber;
use identity_slots::{Profile, Slot, Vector, Vectors};
use mme_types::{Network, SharedNetwork};
use std::alloc::{AllocError, Global};

impl Subscriber {
    /// As `new`, with a network of its own.
    ///
    /// That equals this one; the vectors are in the order in which they are taken.
    pub fn alone(
        alloc: Global,
        network: &Network,
        slot: Slot,
        profile: &Profile,
        vectors: Vec<Vector>,
    ) -> Result<Subscriber, AllocError>
        ensures { IfOk result (λ s. s ≡ record {
          setting = record { network = network.now; slot = slot; profile = profile.now; vectors = vectors.items };
          solo = fresh_solo;
        }) }
    {
        let shared = SharedNetwork::new(alloc, network.clone()?)?;
        Subscriber::new(alloc, &shared, slot, profile, Vectors::new(vectors))
    }
}
