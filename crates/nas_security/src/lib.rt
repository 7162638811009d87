//! Security contexts of NAS signalling (TS 24.301 clause 4.4.3): counts, protected messages, and what is
//! accepted.
//!
//! A context is generic in its integrity algorithm, [`Integrity`], which [`Eia2`] is. It belongs to
//! the network's side: it protects downlink messages and accepts uplink ones. Each call is proved
//! to do what its function in `specs/` says; a refused call changes nothing.
#![tactic(auto)]

mod context;
mod counts;
mod fault;
mod integrity;
mod laws;

pub use context::SecurityContext;
pub use fault::SecurityFault;
pub use integrity::{Eia2, Integrity};
pub use laws::{accepted_is_exact, accepted_is_fresh, estimate_is_least};
