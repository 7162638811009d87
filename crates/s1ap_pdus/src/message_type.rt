//! Which message it is.

/// Which message it is: its procedure, and whether it begins it or is an outcome (TS 36.413 clause 9.2.1.1).
#[derive(Clone, Copy, Debug, PartialEq, Eq)]
pub enum MessageType {
    S1SetupRequest,
    S1SetupResponse,
    S1SetupFailure,
    InitialUeMessage,
    DownlinkNasTransport,
    UplinkNasTransport,
    NasNonDeliveryIndication,
    UeCapabilityInfoIndication,
    InitialContextSetupRequest,
    InitialContextSetupResponse,
    InitialContextSetupFailure,
    UeContextReleaseRequest,
    UeContextReleaseCommand,
    UeContextReleaseComplete,
    Paging,
    PathSwitchRequest,
    PathSwitchRequestAcknowledge,
    PathSwitchRequestFailure,
    Reset,
    ResetAcknowledge,
    ErrorIndication,
}
