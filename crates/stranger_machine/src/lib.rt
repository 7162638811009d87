//! The machine of one stranger (`stranger_step`). A foreign phone is asked for its identity, refused or turned away. One that waits
//! is claimed by the subscriber of its IMSI, released on request, or asked again by T3470. A held one hands its messages to its
//! subscriber. A station that goes closes its strangers, and a RESET of a part those that an item means, held ones too.
//!
//! Strangers are phones that no subscriber is known for, each at a station and under its eNB UE S1AP ID (TS 24.301 clause 5.4.4, TS
//! 36.413 clause 8.6.2.1).
//!
//! A [`Stranger`] waits for an identity, or is held by the subscriber that it turned out to be; any other is closed. What one
//! stranger does at an event is a function of its state and the event ([`begins`], [`receives`], [`LentStranger::sends`]).
//! Contracts see those that aren't closed as a list of [`Known`] by rising id.
#![tactic(auto)]

mod entering;
mod noting;
mod receiving;
mod sending;
mod state;
mod table;
mod turn;

pub use entering::begins;
pub use receiving::{receives, unknown};
pub use sending::sent_to;
pub use state::{KeptEntry, Stranger};
pub use table::{Known, LentStranger};
pub use turn::{After, Call, Notice, Turn};
