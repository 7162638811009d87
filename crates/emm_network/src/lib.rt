//! The rows of messages on a phone's association and of what ends one (TS 36.413 clause 8), and of what the network begins: paging,
//! countdowns and a withdrawn subscription (TS 24.301 clauses 5.5.2.3, 5.6.2 and 10.2). Each is a function with the name of its
//! definition, from a step under way to the step with the row done.
#![tactic(auto)]

mod connected;
mod idle;

pub use connected::{
    connection_of, connections_gone, displaced, has_connection_id, has_pair, indicate, path_switch,
    station_gone,
};
pub use idle::{cancelled, data_waits, tick};
