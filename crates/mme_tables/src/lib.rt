//! The MME's tables beside the subscribers': where each phone is, the countdowns of all, and the strangers that wait.
//!
//! Associations by their ids are one map, so that each id stands once, those of a station and those that a list means are found by
//! look-ups, and none is looked at that isn't concerned (TS 36.413 clauses 8.7.1 and 8.7.3). The countdowns are one queue of
//! deadlines: contracts see it as one list, T3470 of the strangers that wait, by rising id (`waits_of`), and after it the
//! countdowns of the subscribers, by slot (`running_from`). Each stranger is kept as it was when it was last touched; a contract
//! sees it as it is now. Room is made before a change: a phone that comes, moves or goes takes no memory.
#![tactic(auto)]

mod closing;
mod connections;
mod due;
mod items;
mod opening;
mod places;
mod sleeper;
mod sleeping;
mod slots;
mod strangers;
mod ticking;
mod timing;
mod waiting;
mod whereabouts;

pub use connections::Connections;
pub use due::{Due, find_due};
pub use strangers::Strangers;
pub use timing::{retime, retime_found};
pub use waiting::{change_wait, stop_wait, wait_of};
pub use whereabouts::Whereabouts;
