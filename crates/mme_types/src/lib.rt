//! What the machines and the MME speak of: stations and what is known of them ([`EnbWorld`]), what the network grants
//! ([`Network`]), what of an event is for one subscriber ([`SoloEvent`]), and the messages that a step sends ([`Answers`]).
#![tactic(auto)]

mod connection;
mod event;
mod listed;
mod network;
mod octets;
mod pdus;
mod stations;

pub use connection::{Connection, RadioKeys};
pub use event::{Entry, SoloEvent, UeBody, UeMessage};
pub use identity_slots::StationNumber;
pub use listed::is_listed;
pub use network::{AggregateBitRate, Apn, Network, SharedNetwork};
pub use octets::{Answer, Answers, Mark, NasOctets, SentOctets};
pub use pdus::{
    cause_of_request, context_setup, downlink, error_indication, paging, path_switch_acknowledge,
    path_switch_failure, release_command,
};
pub use s1ap_pdus as s1ap;
pub use stations::{EnbWorld, StationState, is_broadcast};
