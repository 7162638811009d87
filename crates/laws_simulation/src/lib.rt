//! What a trace and a simulation print, owner by owner, and what simulated phones and stations send: the lines of a slot, of a
//! stranger or of a station are those of its own machine, and each message is what is written of a value of the profile.
//!
//! No code: definitions, laws of them, and walks over what a phone and a station are given, which are there for their contracts
//! alone.
#![tactic(auto)]

mod begun;
mod printed;
mod sent;

pub use begun::{acts_are_in_range, phones_begin_in_range, stations_begin_in_range};
pub use printed::{
    no_run_prints_nothing, runs_begin_fresh, same_is_printed_alike, simulations_are_printed,
    slots_are_printed, stations_are_printed, strangers_are_printed,
};
pub use sent::{phones_send_nas, stations_send_s1ap};
