//! Why octets are no snapshot, and why an MME isn't saved.

use identity_slots::{AssociationId, ProvisionFault, Slot};
use per_bits::PerError;

/// Why octets don't restore to an MME: the first fault from the left.
#[derive(Clone, Copy, PartialEq, Eq)]
pub enum RestoreFault {
    /// Of another version, which is this.
    Version(u8),
    /// They spell no part at some place.
    Octets,
    /// There are more after the last part, or the padding isn't zeros.
    More,
    /// The access point name isn't one label.
    Network,
    /// The IMSI or the address of this slot is another's.
    Profile(Slot, ProvisionFault),
    /// No phone's machine can be in the state of this slot.
    Subscriber(Slot),
    /// No stranger has this id, or none can be in this state, or the ids don't rise.
    Stranger(AssociationId),
    /// The connection of this slot has an id that isn't its own.
    Id(Slot),
    /// More next hops would have to be derived than the caller allows.
    Work,
    /// Memory was refused.
    NoMemory,
}

/// Why a part of an MME isn't saved: a number of it is greater than those that are stored, or a restore wouldn't take it.
#[derive(Clone, Copy, PartialEq, Eq)]
pub enum SaveFault {
    /// What stands first, or how many strangers or subscribers there are.
    First,
    /// The stranger with this id.
    Stranger(AssociationId),
    /// The subscriber of this slot; or nobody has it.
    Subscriber(Slot),
    /// Memory was refused.
    NoMemory,
}

impl SaveFault {
    /// Why what has no spelling isn't saved, or where memory was refused.
    pub(crate) fn of(self, error: PerError) -> SaveFault {
        match error {
            PerError::Fault(_) => self,
            PerError::NoMemory => SaveFault::NoMemory,
        }
    }
}
