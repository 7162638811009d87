//! Elements of the NAS messages between a phone and an MME (TS 24.301 clause 9), and what such messages are made of: parts
//! of a mandatory part, and the elements of an optional part. Reading takes no memory.
#![tactic(auto)]

mod capability;
pub mod codes;
mod fault;
pub mod identifier;
mod identity;
mod imsi;
mod laws;
mod lent;
mod optional;
mod reading;
mod rule;
pub mod timers;
mod writing;

pub use capability::UeCapability;
pub use fault::NasFault;
pub use identity::{Guti, MobileIdentity, Plmn, TaiList};
pub use imsi::Imsi;
pub use laws::{
    element_is_spelled, imsi_is_text, one_value, read_is_spelled, row_fault, spelled_is_element,
    spelled_is_read, spelled_is_writable, text_is_imsi, written_is_element, written_is_spelled,
};
pub use lent::Lent;
pub use optional::{Optional, element_at, is_set, put_element};
pub use reading::{
    bounded_at, constant_at, fixed_at, guti_at, identity_at, label_at, long_at, octet_at, short_at,
    tai_list_at,
};
pub use rule::{Domain, Element, Rule};
pub use writing::{
    put_fixed, put_guti, put_identity, put_label, put_long, put_octet, put_short, put_tai_list,
};
