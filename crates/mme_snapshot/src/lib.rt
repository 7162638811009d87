//! Snapshots: an MME stored as octets, and octets restored to an MME.
#![tactic(auto)]

mod adding;
mod building;
mod fault;
mod laws;
mod part;
mod parts;
mod restoring;
mod saving;
mod stored;

pub use fault::{RestoreFault, SaveFault};
pub use laws::parts_restore;
pub use part::{Part, SavedOctets};
pub use restoring::restore;
pub use saving::{SavedPart, save, save_part};
