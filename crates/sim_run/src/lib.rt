//! A simulation from a reader to a writer: a script is read, and the trace that comes of it is written.
#![tactic(auto)]

mod player;
mod simulate;

pub use simulate::run_sim;
