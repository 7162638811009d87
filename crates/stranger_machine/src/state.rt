//! What is kept of a stranger.

ghost use Rattle.std.specs.Prelude.{◌≡◌, IfOk};
ghost use Rattle.mme_types.specs.Events.{entry_lists};
ghost use Rattle.stranger_machine.specs.Turns.{as_entry, as_kept, place_of};

use crate::sending::place;
use identity_slots::{AssociationId, Slot};
use mme_types::{Connection, Entry, NasOctets, StationNumber};
use s1ap_elements::{EnbUeId, Tai};
use std::alloc::{AllocError, Global};

/// The INITIAL UE MESSAGE that began an association (TS 36.413 clause 8.6.2.1).
#[derive(Drop)]
pub struct KeptEntry {
    pub station: StationNumber,
    pub enb_ue_id: EnbUeId,
    /// Its NAS message.
    pub nas: NasOctets,
    pub tai: Tai,
}

impl KeptEntry {
    /// A copy of the message.
    pub fn of_entry(alloc: Global, entry: &Entry<&[u8]>) -> Result<KeptEntry, AllocError>
        ensures { IfOk result (λ k. k ≡ as_kept (entry_lists entry.now)) }
    {
        Ok(KeptEntry {
            station: entry.station,
            enb_ue_id: entry.enb_ue_id,
            nas: NasOctets::new(Vec::from_slice(alloc, entry.nas)?),
            tai: entry.tai,
        })
    }

    /// The message as it was.
    pub fn entry<'a>(&'a self) -> Entry<&'a [u8]>
        ensures { entry_lists result ≡ as_entry self.now }
    {
        Entry {
            station: self.station,
            enb_ue_id: self.enb_ue_id,
            nas: self.nas.as_slice(),
            tai: self.tai,
        }
    }

    /// The association, by the stranger's id.
    pub(crate) fn place(&self, id: AssociationId) -> Connection
        ensures { result ≡ place_of id self.now }
    {
        place(id, self.station, self.enb_ue_id)
    }
}

/// A stranger that isn't closed.
#[derive(Drop)]
pub enum Stranger {
    /// It was asked for its identity: the message that began, and of T3470 the ticks left and how often the request may still
    /// be sent again (TS 24.301 clause 5.4.4).
    Waiting {
        kept: KeptEntry,
        left: u32,
        repeats: u32,
    },
    /// It turned out to be this subscriber, who has its association.
    Held(Slot),
}
