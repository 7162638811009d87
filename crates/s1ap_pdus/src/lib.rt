//! S1AP messages between a station and an MME (TS 36.413): values and octets.
#![tactic(auto)]

// A message's rows stand once, as a type beside its `write`: presence, id, criticality and element of each. `s1ap_messages` reads
// by the same types.

// The elements that are written of a message's rows, as pairs: the first, and the others.
macro_rules! lent {
    () => { () };
    ($first:expr $(, $others:expr)*) => { ($first, lent!($($others),*)) };
}

mod codec;
mod context;
mod interface;
mod laws;
mod message_type;
mod movement;
mod octets;
mod pdu;
pub mod rows;
mod setup;
mod transport;

pub use codec::encode;
pub use laws::{decoded_exactly, encoded_exactly, named_again, one_message, what_is_encoded};
pub use message_type::MessageType;
pub use pdu::{
    DownlinkNasTransport, ErrorIndication, InitialContextSetupFailure, InitialContextSetupRequest,
    InitialContextSetupResponse, InitialUeMessage, NasNonDeliveryIndication, Paging,
    PathSwitchRequest, PathSwitchRequestAcknowledge, PathSwitchRequestFailure, Pdu, Reset,
    ResetAcknowledge, S1SetupFailure, S1SetupRequest, S1SetupResponse, S1apPdu,
    UeCapabilityInfoIndication, UeContextReleaseCommand, UeContextReleaseComplete,
    UeContextReleaseRequest, UplinkNasTransport,
};
pub use s1ap_elements as elements;
pub use s1ap_rows::{Criticality, EncodeFault, S1apFault};
