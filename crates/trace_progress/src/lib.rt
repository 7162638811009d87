//! How far a trace has got: what its lines provision, and the MME that is made of it, with what each line does, as a definition.
#![tactic(auto)]

mod fault;
mod progress;

pub use fault::{PlayFault, fault_in_line};
pub use progress::{Progress, add, give, run, start, states_of_imsi};
