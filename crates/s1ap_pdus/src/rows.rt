//! The rows of each message, as a type: presence, id, criticality and element of each.

pub use crate::context::{
    InitialContextSetupFailureRows, InitialContextSetupRequestRows,
    InitialContextSetupResponseRows, UeContextReleaseCommandRows, UeContextReleaseCompleteRows,
    UeContextReleaseRequestRows,
};
pub use crate::interface::{ErrorIndicationRows, ResetAcknowledgeRows, ResetRows};
pub use crate::movement::{
    PagingRows, PathSwitchRequestAcknowledgeRows, PathSwitchRequestFailureRows,
    PathSwitchRequestRows,
};
pub use crate::setup::{S1SetupFailureRows, S1SetupRequestRows, S1SetupResponseRows};
pub use crate::transport::{
    DownlinkNasTransportRows, InitialUeMessageRows, NasNonDeliveryIndicationRows,
    UeCapabilityInfoIndicationRows, UplinkNasTransportRows,
};
