//! Countdowns of owners in ticks, and what each tick ends: a map from (owner, kind) to a countdown.
//!
//! A caller that must not fail halfway makes room by `reserve` first, and then changes the timers by `start_reserved`,
//! `start_stopped`, `stop` and `pass`, which take no memory.
#![tactic(auto)]

mod laws;
mod queue;
mod timer;

pub use laws::{in_owner_order, procedure_first, timers_apart};
pub use queue::{TickFault, Timers};
pub use timer::{Expiry, Kind, Timer, TimerOwner};
