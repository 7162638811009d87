//! Keys and integrity of EPS NAS signalling. Each call equals its function on whole lists, also under a key that is kept expanded
//! (`MacKey`) or hashed (`Kasme`), or is a copy. None is refused or takes memory.
//!
//! No proof speaks of time, but AES, CMAC and [`same_octets`] have no branch and no address in memory that depends on a key or an
//! octet of a message: only lengths steer them.
#![tactic(auto)]

mod aes;
mod block;
mod derive;
mod direction;
mod equal;
mod kasme;
mod lanes;
mod laws;
mod mac;
mod secrets;
mod zeros;

pub use aes::aes_encrypt;
pub use derive::{hmac_sha256, kenb, nas_integrity_key, next_hop};
pub use direction::DirectionBit;
pub use equal::same_octets;
pub use kasme::Kasme;
pub use laws::same_is_equal;
pub use mac::{MacKey, cmac, eia2};
pub use secrets::{IntegrityKey, Kenb, NextHop};
