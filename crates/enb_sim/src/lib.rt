//! Simulated stations (TS 36.413): what a station sends when it acts, and what it makes of the MME's messages.
//!
//! A [`Station`] gives and takes S1AP octets, and holds the associations that the MME opened at it. NAS messages go through it
//! as they are: which phone they are for is no matter of its own.
#![tactic(auto)]

mod delivering;
mod messages;
mod pairs;
mod profile;
mod setup;
mod station;
mod writable;

pub use delivering::{Delivery, PhoneNas};
pub use profile::StationProfile;
pub use sim_phone::{Phone, PhoneAct};
pub use station::{Station, StationAct};
