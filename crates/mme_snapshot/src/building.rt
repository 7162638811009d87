//! An MME that is put together, part after part.

ghost use Rattle.std.specs.Prelude.{◌≡◌, ◌≢◌, ◌<◌, ◌+◌, [], length, Ok, Err, IfErr, IfOk};
ghost use Rattle.identity_slots.specs.Ids.{slots};
ghost use Rattle.identity_slots.specs.declared.provision.ProvisionFault.TheVariants as faults;
ghost use Rattle.mme_snapshot.specs.Images.{empty_world, with_known};
ghost use Rattle.mme_snapshot.specs.Restored.{begun, stranger_added, subscriber_added};
ghost use Rattle.mme_snapshot.specs.declared.fault.RestoreFault.TheVariants.{NoMemory, Profile};
ghost use Rattle.snapshot_formats.specs.Heads.{typed_saved_stranger};
ghost use Rattle.snapshot_formats.specs.Subscribers.{typed_saved_subscriber};

use crate::adding::{add_stranger, add_subscriber};
use crate::fault::RestoreFault;
use crate::parts::{Head, hops_of, profile_of};
use identity_slots::{Provision, ProvisionFault, Slot};
use mme_core::{Config, Mme};
use mme_owners::Owners;
use mme_types::{EnbWorld, SharedNetwork};
use snapshot_formats::{SavedStranger, SavedSubscriber};
use snapshot_states::states_that_fit;
use std::alloc::{AllocError, Global};
use std::marker::Model;

/// An MME so far, and how many next hops were derived for it.
#[derive(Drop)]
pub(crate) struct Building {
    config: Config,
    clock: u64,
    stations: EnbWorld,
    provision: Provision,
    owners: Owners,
    shared: SharedNetwork,
    hops: u64,
    alloc: Global,
}

impl Model for Building {
    ghost use Rattle.mme_core.specs.World.{parts_world};
    ghost use Rattle.mme_snapshot.specs.Restored.{Built};
    ghost use Rattle.mme_snapshot.specs.Buildings.{IsBuilding};

    ghost Value = { Built };

    ghost view = { λ b. record { world = parts_world b.config b.clock b.stations b.provision.profiles b.owners; hops = b.hops } };

    ghost invariant = { λ b. IsBuilding b.shared b.owners.clock
        (parts_world b.config b.clock b.stations b.provision.profiles b.owners) };
}

// Why a subscriber who can't be provisioned isn't restored.
fn profile_fault(slot: Slot, fault: ProvisionFault) -> RestoreFault
    ensures memory { fault ≡ faults.NoMemory → result ≡ NoMemory }
    ensures profile { fault ≢ faults.NoMemory → result ≡ Profile slot fault }
{
    match fault {
        ProvisionFault::NoMemory => RestoreFault::NoMemory,
        _ => RestoreFault::Profile(slot, fault),
    }
}

impl Building {
    /// An MME without strangers and subscribers.
    pub(crate) fn begin(
        alloc: Global,
        head: Head,
        stations: EnbWorld,
    ) -> Result<Building, AllocError>
        ensures { IfOk result (λ b. b ≡ begun head stations) }
    {
        let shared = SharedNetwork::new(alloc, head.config.network.clone()?)?;
        // (that there are 128 of them)
        let _ = stations.as_slice();
        Ok(Building {
            config: head.config,
            clock: head.clock,
            stations,
            provision: Provision::new(alloc),
            owners: Owners::new(alloc, 0),
            shared,
            hops: 0,
            alloc,
        })
    }

    /// One stranger more, where it fits; no subscriber is there yet. Else Stranger, or NoMemory.
    pub(crate) fn stranger(self, saved: &SavedStranger) -> Result<Building, RestoreFault>
        requires { self.world.subscribers ≡ [] }
        ensures ok { IfOk result (λ b. stranger_added self (typed_saved_stranger saved.now) ≡ Ok b) }
        ensures refused { IfErr result
            (λ fault. fault ≢ NoMemory → stranger_added self (typed_saved_stranger saved.now) ≡ Err fault) }
        ensures none { IfOk result (λ b. b.world.subscribers ≡ []) }
    {
        let mut owners = self.owners;
        match add_stranger(self.alloc, &mut owners, saved) {
            Ok(()) => Ok(Building { owners, ..self }),
            Err(fault) => Err(fault),
        }
    }

    /// One subscriber more, where it fits and at most `most` next hops are derived. Else Subscriber, Profile, Work, Id or NoMemory.
    pub(crate) fn subscriber(
        self,
        saved: &SavedSubscriber,
        most: u64,
    ) -> Result<Building, RestoreFault>
        requires { length self.world.subscribers < slots }
        ensures ok { IfOk result (λ b. subscriber_added (Some most) self (typed_saved_subscriber saved.now) ≡ Ok b) }
        ensures refused { IfErr result
            (λ fault. fault ≢ NoMemory → subscriber_added (Some most) self (typed_saved_subscriber saved.now) ≡ Err fault) }
        ensures count { IfOk result (λ b. length b.world.subscribers ≡ length self.world.subscribers + 1) }
    {
        states_that_fit();
        let slot = Slot::new(self.owners.len() as u32);
        let Some(profile) = profile_of(saved) else {
            drop(self);
            return Err(RestoreFault::Subscriber(slot));
        };
        let (mut provision, mut owners) = (self.provision, self.owners);
        match provision.add(profile) {
            Ok(_) => {}
            Err(fault) => {
                drop((self.config, self.stations, provision, owners, self.shared));
                return Err(profile_fault(slot, fault));
            }
        }
        let hops = match self.hops.checked_add(hops_of(saved)) {
            Some(hops) if hops <= most => hops,
            _ => {
                drop((self.config, self.stations, provision, owners, self.shared));
                return Err(RestoreFault::Work);
            }
        };
        match add_subscriber(&self.shared, &mut owners, slot, &profile, saved, self.alloc) {
            Ok(()) => Ok(Building {
                provision,
                owners,
                hops,
                ..self
            }),
            Err(fault) => {
                drop((self.config, self.stations, provision, owners, self.shared));
                Err(fault)
            }
        }
    }

    /// The MME. Refused for memory alone.
    pub(crate) fn finish(self) -> Result<Mme, AllocError>
        ensures { IfOk result (λ m. m ≡ self.world) }
    {
        Mme::of_parts(
            self.alloc,
            self.config,
            self.clock,
            self.stations,
            self.provision,
            self.owners,
        )
    }
}
