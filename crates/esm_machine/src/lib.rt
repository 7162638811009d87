//! The session management of one subscriber (TS 24.301 clause 6): its default bearer, which is its only one.
//!
//! A [`Bearer`] takes the connectivity request of an attach, activates, and answers the ESM messages that come later. Each
//! call is proved to do what its function in `specs/` says; only what writes octets takes memory, and a call to which memory
//! was refused changes nothing.
#![tactic(auto)]

mod bearer;
mod cause;
mod laws;
mod reaction;
mod reading;
mod request;
mod sending;

pub use bearer::{Bearer, BearerState};
pub use cause::EsmCause;
pub use laws::{activation_is_read, answer_keeps_transaction, informed_is_awaited, request_stays};
pub use reaction::Reaction;
pub use request::{Request, Requested};
