//! Where an event goes.

use identity_slots::{AssociationId, Slot};
use mme_types::{Entry, SoloEvent, UeMessage};
use stranger_machine::Notice;

/// Where an event goes.
#[derive(Drop)]
pub enum Destination<'a> {
    Nobody,
    /// One subscriber, by its slot, with what of the event is its own.
    Subscriber(Slot, SoloEvent<'a>),
    /// The stranger with this id, which begins: an INITIAL UE MESSAGE that names no slot.
    Beginner(AssociationId, Entry<&'a [u8]>),
    /// The stranger whose id the message has.
    Stranger(UeMessage<&'a [u8]>),
    /// All strangers and all subscribers.
    Everyone(Notice),
}
