//! The mobility management of one subscriber (TS 24.301 clause 5, TS 36.413 clause 8): what an MME sends for it, and what it
//! keeps of it.
//!
//! A [`Subscriber`] takes what of each event is for it and answers with S1AP messages. Each step is proved to be that of
//! `solo_step` in `specs/`, a function on values; where memory is refused nothing changes.
#![tactic(auto)]

mod alone;
mod laws;
mod messages;
mod passing;
mod subscriber;

pub use emm_network::connection_of;
pub use identity_slots::{
    AssociationId, GivenKasme, Profile, Slot, StationNumber, Vector, Vectors, Xres,
};
pub use laws::{
    accepted_counts_are_fresh, in_use_is_kept, sent_counts_are_fresh, vector_makes_one_context,
};
pub use mme_types::{
    AggregateBitRate, Answers, Apn, Connection, EnbWorld, Entry, Network, SharedNetwork, SoloEvent,
    StationState, UeMessage,
};
pub use subscriber::{EcmState, EmmState, States, Subscriber};
