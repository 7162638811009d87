//! An MME as its parts, which may be stored and put together again.

ghost use Rattle.std.specs.Prelude.{◌≡◌, ◌≤◌, IfOk};
ghost use Rattle.mme_core.specs.Apart.{AreApart};
ghost use Rattle.mme_core.specs.Kept.{IsKept};
ghost use Rattle.mme_core.specs.World.{parts_world};

use crate::config::Config;
use crate::mme::{Mme, Surroundings};
use crate::provisioning::prepare;
use identity_slots::Provision;
use mme_answering::Outs;
use mme_owners::Owners;
use mme_types::EnbWorld;
use std::alloc::{AllocError, Global};

/// What an MME is made of, lent.
#[derive(Clone, Copy)]
pub struct MmeParts<'a> {
    /// What it was given when it began.
    pub config: &'a Config,
    /// The clock, in ticks.
    pub clock: u64,
    /// The stations' states.
    pub stations: &'a EnbWorld,
    /// Who is provisioned, without vectors.
    pub provision: &'a Provision,
    /// Its strangers and subscribers.
    pub owners: &'a Owners,
}

impl Mme {
    /// Lends what an MME is made of.
    pub fn parts<'a>(&'a self) -> MmeParts<'a>
        ensures config { result.config.now ≡ self.entry.now.sight.config }
        ensures clock { result.clock ≡ self.entry.now.sight.clock }
        ensures stations { result.stations.now ≡ self.entry.now.sight.stations }
        ensures profiles { result.provision.now.profiles ≡ self.entry.now.sight.profiles }
        ensures strangers { result.owners.now.strangers ≡ self.entry.now.strangers }
        ensures subscribers { result.owners.now.subscribers ≡ self.entry.now.subscribers }
        ensures kept { IsKept self.entry.now }
        ensures apart { AreApart self.entry.now }
    {
        MmeParts {
            config: &self.surroundings.config,
            clock: self.surroundings.clock,
            stations: &self.surroundings.stations,
            provision: &self.surroundings.provision,
            owners: &self.owners,
        }
    }

    /// The MME of parts for which `IsKept` and `AreApart` hold.
    ///
    /// Refused for memory alone.
    pub fn of_parts(
        alloc: Global,
        config: Config,
        clock: u64,
        stations: EnbWorld,
        provision: Provision,
        owners: Owners,
    ) -> Result<Mme, AllocError>
        requires clock { owners.clock ≤ clock }
        requires kept { IsKept (parts_world config clock stations provision.profiles owners) }
        requires apart { AreApart (parts_world config clock stations provision.profiles owners) }
        ensures { IfOk result (λ m. m ≡ parts_world config clock stations provision.profiles owners) }
    {
        // (that there are 128 of them)
        let _ = stations.as_slice();
        match prepare(alloc, &config.network) {
            Ok((setup_response, shared)) => {
                let surroundings = Surroundings {
                    config,
                    clock,
                    stations,
                    provision,
                    setup_response,
                    shared,
                    alloc,
                };
                Ok(Mme {
                    surroundings,
                    owners,
                    room: Outs::new(alloc),
                })
            }
            Err(fault) => {
                // (where the scope ended them, each part of them would be ended here)
                drop(owners);
                drop(provision);
                drop(stations);
                drop(config);
                Err(fault)
            }
        }
    }
}
