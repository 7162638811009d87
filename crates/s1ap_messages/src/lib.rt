//! S1AP messages from octets (TS 36.413 clause 9): what is read of each message's rows, which stand in `s1ap_pdus`.
//!
//! Each message is read out of line (`inline(never)`), so that what it has is put together once, where it is answered.
#![tactic(auto)]

// The elements that are read of a message's rows, as pairs: the first, and the others.
macro_rules! elements {
    () => { () };
    ($first:ident $(, $others:ident)*) => { ($first, elements!($($others),*)) };
}

mod answer;
mod context;
mod decoding;
mod interface;
mod movement;
mod procedures;
mod setup;
mod transport;

pub use decoding::decode;
pub use s1ap_pdus::{
    Criticality, DownlinkNasTransport, EncodeFault, ErrorIndication, InitialContextSetupFailure,
    InitialContextSetupRequest, InitialContextSetupResponse, InitialUeMessage, MessageType,
    NasNonDeliveryIndication, Paging, PathSwitchRequest, PathSwitchRequestAcknowledge,
    PathSwitchRequestFailure, Pdu, Reset, ResetAcknowledge, S1SetupFailure, S1SetupRequest,
    S1SetupResponse, S1apFault, S1apPdu, UeCapabilityInfoIndication, UeContextReleaseCommand,
    UeContextReleaseComplete, UeContextReleaseRequest, UplinkNasTransport, decoded_exactly, encode,
    encoded_exactly, named_again, one_message, what_is_encoded,
};
