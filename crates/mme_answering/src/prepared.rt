//! What an event leads to, before it is taken.

use identity_slots::AssociationId;
use mme_owners::Stepped;
use stranger_machine::{After, Notice};

/// What is to become of those whom an event goes to.
#[derive(Drop)]
pub enum Prepared {
    Nobody,
    Subscriber(Stepped),
    /// A stranger, by its id, and the subscriber that it calls, if it calls one.
    Stranger(AssociationId, After, Option<Stepped>),
    /// All strangers, and each subscriber whom the notice doesn't leave as it is.
    Everyone(Notice, Vec<Stepped>),
    /// A tick for all strangers, of whom it ends T3470 of these, and all subscribers, of whom those who are due were prepared.
    Tick(Vec<AssociationId>, Vec<Stepped>),
}
