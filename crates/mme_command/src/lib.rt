//! The command line of the program `mme`.
#![tactic(auto)]

mod command_line;

pub use command_line::{Choice, CommandFault, command};
