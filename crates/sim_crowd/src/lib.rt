//! The stations and phones of a script: what a word of it has them do, what is then sent, who is where afterwards, and what they
//! answer to the MME, as defined (`acting`, `adding_station`, `setting_up`, `delivering`). What can't be done is Skipped. If memory
//! is refused, the contract says how far it got (`StopsActing`, `StopsDelivering`), and nothing more is sent.
//!
//! A [`Crowd`] finds a phone by its IMSI where a script names it, and by its station and the numbers of its association where the
//! MME does. Neither costs more than a search by halving.
#![tactic(auto)]

mod acted;
mod acts;
mod crowd;
mod hearing;
mod index;
mod phones;
mod site;
mod stations;
mod whereabouts;

pub use acted::{Acted, Uplink};
pub use crowd::Crowd;
