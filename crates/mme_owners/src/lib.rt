//! The strangers and subscribers of an MME, the one queue of their countdowns, and the one map of their associations.
//!
//! Each subscriber is kept as it was when it was last touched ([`Subscribers`]): an event touches only those whom it concerns. A
//! contract doesn't see that: it sees each subscriber as it is now.
//!
//! What always holds of the records (`AreRecords`): both tables have the clock of the queue, and the queue has T3470 of each
//! stranger that waits and both countdowns of each subscriber, those that run and no other; so a tick takes the front of the
//! queue. What always holds of the associations (`ArePlaced`): they are the connections of the subscribers and the places of the
//! strangers that wait, no more and no fewer.
#![tactic(auto)]

mod lent;
mod noticed;
mod owners;
mod placing;
mod record;
mod records;
mod retiming;
mod spare;
mod stepped;
mod subscribers;

pub use lent::LentSubscriber;
pub use mme_tables::Due;
pub use owners::Owners;
pub use records::Records;
pub use stepped::Stepped;
pub use subscribers::Subscribers;
