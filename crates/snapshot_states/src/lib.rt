//! States of phones' machines as a snapshot has them: what they stand for, which of them can be, and how they are stored.
#![tactic(auto)]

mod fit;
mod laws;
mod numbers;
mod restoring;
mod saving;
mod taking;
mod vectors;

pub use laws::states_that_fit;
pub use saving::{Clocks, saved_state};
pub use taking::restored_state;
pub use vectors::{MOST_VECTORS, husk_of, stored_spent, stored_unspent, vectors_of};
