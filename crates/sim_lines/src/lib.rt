//! What a line of a script does: it is printed and played, and what stations and phones send at that is played after it.
#![tactic(auto)]

mod acts;
mod lines;
mod script;
mod turns;

pub use script::{Script, play_script_line};
