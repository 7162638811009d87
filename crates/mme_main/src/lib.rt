//! What the program `mme` does: its command line, the run of a trace and that of a script, each from a reader to a writer.
//!
//! This crate passes on what stands in those below it: a program needs it alone.
#![tactic(auto)]

pub use mme_command::{Choice, CommandFault, command};
pub use sim_run::run_sim;
pub use trace_run::{PlayFault, Watched, run_play};
