//! The MME of the LTE core network: stations, subscribers, and what it sends at each event.
//!
//! Events go in one at a time by [`Mme::step`] or in a list by [`Mme::run`]. What a subscriber is sent is proved to be what its
//! one machine sends over the items that the events have for it, whatever else they hold. Between events a subscriber
//! ([`Mme::add`]) or a vector ([`Mme::give`]) may be added.
#![tactic(auto)]

mod config;
mod event;
mod laws;
mod mme;
mod parts;
mod provisioned;
mod provisioning;
mod station;

pub use config::Config;
pub use event::{Event, StepFault};
pub use laws::{
    exchanges, ids_are_apart, names_slot, one_output, same_to_slot, slots_end, worlds_are_kept,
};
pub use mme::Mme;
pub use mme_answering::{Out, Outs, Owner};
pub use parts::MmeParts;
