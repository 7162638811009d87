//! Messages and keys for harnesses, from arguments as they come from outside: what octets are, and the keys, are those of the
//! definitions of S1AP, NAS and `eps_keys`.
//!
//! It calls the codecs and says what they say; nothing here knows C.
#![tactic(auto)]

mod fault;
mod keys;
mod nas;
mod s1ap;

pub use fault::CodecFault;
pub use keys::{derived_kenb, derived_nas_integrity_key, derived_next_hop, mac_of};
pub use nas::{NasParts, nas_parts, nas_type};
pub use s1ap::{S1apMessage, s1ap_message};
