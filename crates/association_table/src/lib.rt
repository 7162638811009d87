//! The associations between the MME and the phones' stations: a finite map from an association's id to its owner, its station
//! and its eNB UE id (TS 36.413 clause 9.2.3.3 and 9.2.3.4).
//!
//! A caller that must not fail halfway makes room by `reserve` first, and then changes the map by `open_reserved`, `move_to`,
//! `close` and `clear_station`, which take no memory.
#![tactic(auto)]

mod association;
mod gathering;
mod places;
mod table;

pub use association::{Association, AssociationOwner, Listed, MoveFault, OpenFault};
pub use table::Associations;
