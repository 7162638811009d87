//! What a simulation prints: a trace whose comments are the answers of the MME that it plays. What a call appends continues that
//! trace, octet by octet as defined: the line, and a comment for each answer (`with_line`, `with_reply`, `with_states`). If the MME
//! refuses the event, nothing is told; if memory is refused, nothing is printed, and the line or event was taken or not. An event
//! whose line would be too long is neither printed nor played. `skipped_line` and `dropped_line` define what is told of impossible
//! acts and of left-out events.
#![tactic(auto)]

mod comments;
mod events;
mod lines;

pub use comments::{push_dropped, push_skipped};
pub use events::{print_event, print_show};
pub use lines::{
    is_begun, play_cancel, play_data, play_in, play_lost, play_mme, play_show, play_sub, play_tick,
    play_up, play_vec,
};
