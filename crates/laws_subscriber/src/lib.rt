//! What holds of one subscriber's machine and of a stranger's over whole runs, whoever sends: what it takes to be let in, where a
//! connection comes from, and what ends of itself. The MME stands on these laws. No code: definitions, and laws of them.
#![tactic(auto)]

mod admission;
mod connections;
mod ends;

pub use admission::{
    keys_go_to_the_proved, protected_forms_are_marked, registered_by_proof, soundness_is_kept,
    unproved_leaves,
};
pub use connections::connections_come_so;
pub use ends::{
    clocks_are_kept, idle_phones_are_forgotten, procedures_end, silent_phones_end,
    strangers_are_closed,
};
