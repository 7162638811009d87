//! Laws of packed encoding, of S1AP and of NAS messages: where the fault is in bits that spell no value of a format, and in octets
//! that are no message, for those who ask why; that what is decoded is in range; and that numbers take the fewest bits and octets.
//! No code: definitions, and laws of them.
#![tactic(auto)]

mod components;
mod nas;
mod s1ap;

pub use components::{
    component_outcome, components_are_spelled, fault_is_named, fault_of_whole_is_named,
    message_parts_by_components, named_is_fault, named_is_fault_of_whole, one_outcome,
    one_whole_outcome,
};
pub use nas::{named_is_emm_fault, named_is_esm_fault, one_emm_outcome, one_esm_outcome};
pub use s1ap::{
    decoded_is_in_range, named_is_s1ap_fault, no_memory_is_no_fault, one_s1ap_outcome,
    s1ap_fault_is_named, widths_are_least,
};
