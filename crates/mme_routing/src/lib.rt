//! Whom an INITIAL UE MESSAGE names (TS 23.003 clause 2.8), and where an event goes: what the MME makes of what a station sends,
//! which strangers it reaches and who is called with what (TS 36.413 clauses 8.6 and 8.7, TS 24.301 clause 5.3).
#![tactic(auto)]

mod answers;
mod destination;
mod naming;
mod outcome;
mod resets;

pub use answers::setup_response;
pub use destination::Destination;
pub use outcome::{Outcome, outcome_of};
