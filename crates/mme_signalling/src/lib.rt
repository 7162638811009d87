//! What is heard of phones and what is sent to them and their stations: a phone's NAS message by what the machines do with it
//! ([`Heard`]), the NAS messages with their causes ([`EmmCause`]), and the S1AP messages that are sent.
#![tactic(auto)]

mod cause;
mod heard;
mod messages;

pub use cause::{EmmCause, cause_of_fault};
pub use heard::{Heard, hear, initial_octets, is_esm};
pub use messages::{
    Grant, attach_accept, attach_reject, attach_reject_with, authentication_reject,
    authentication_request, detach_accept, emm_status, identity_request, network_detach,
    security_mode_command, service_reject, update_accept, update_reject,
};
pub use mme_types::{
    cause_of_request, context_setup, downlink, error_indication, paging, path_switch_acknowledge,
    path_switch_failure, release_command,
};
