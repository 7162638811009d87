//! The rows of what a phone says (TS 24.301 clause 5): an attach, authentication and security mode, and what comes from a phone
//! that is known. Each is a function with the name of its definition, from a step under way to the step with the row done.
#![tactic(auto)]

mod attaching;
mod serving;

pub use serving::{claim, initial, uplink};
