//! Why something ended or failed: the named causes, in their five groups.
//!
//! The names stand in their order in the ASN.1 of TS 36.413 Release 8, from number 0 on.
//! `Extended` is a cause that a later release added, by its number among those.

/// Why a procedure of the radio network layer ended or failed (TS 36.413 clause 9.2.1.3).
#[derive(Clone, Copy, Debug)]
pub enum RadioNetworkCause {
    Unspecified,
    Tx2RelocOverallExpiry,
    SuccessfulHandover,
    ReleaseDueToEutranGeneratedReason,
    HandoverCancelled,
    PartialHandover,
    HandoverFailureInTarget,
    HandoverTargetNotAllowed,
    Ts1RelocOverallExpiry,
    Ts1RelocPrepExpiry,
    CellNotAvailable,
    UnknownTargetId,
    NoRadioResourcesInTargetCell,
    UnknownMmeUeS1apId,
    UnknownEnbUeS1apId,
    UnknownPairUeS1apId,
    HandoverDesirableForRadioReason,
    TimeCriticalHandover,
    ResourceOptimisationHandover,
    ReduceLoadInServingCell,
    UserInactivity,
    RadioConnectionWithUeLost,
    LoadBalancingTauRequired,
    CsFallbackTriggered,
    UeNotAvailableForPsService,
    RadioResourcesNotAvailable,
    FailureInRadioInterfaceProcedure,
    InvalidQosCombination,
    InterRatRedirection,
    InteractionWithOtherProcedure,
    UnknownErabId,
    MultipleErabIdInstances,
    AlgorithmsNotSupported,
    S1IntraSystemHandoverTriggered,
    S1InterSystemHandoverTriggered,
    X2HandoverTriggered,
    /// A cause of a later release.
    Extended(u64),
}

/// Why the transport layer could not serve (TS 36.413 clause 9.2.1.3).
#[derive(Clone, Copy, Debug)]
pub enum TransportCause {
    TransportResourceUnavailable,
    Unspecified,
    /// A cause of a later release.
    Extended(u64),
}

/// Why a procedure of the NAS ended (TS 36.413 clause 9.2.1.3).
#[derive(Clone, Copy, Debug)]
pub enum NasCause {
    NormalRelease,
    AuthenticationFailure,
    Detach,
    Unspecified,
    /// A cause of a later release.
    Extended(u64),
}

/// What is wrong with a message (TS 36.413 clause 9.2.1.3).
#[derive(Clone, Copy, Debug)]
pub enum ProtocolCause {
    TransferSyntaxError,
    AbstractSyntaxErrorReject,
    AbstractSyntaxErrorIgnoreAndNotify,
    MessageNotCompatible,
    SemanticError,
    FalselyConstructedMessage,
    Unspecified,
    /// A cause of a later release.
    Extended(u64),
}

/// Why a procedure failed, of no other group (TS 36.413 clause 9.2.1.3).
#[derive(Clone, Copy, Debug)]
pub enum MiscCause {
    ControlProcessingOverload,
    NotEnoughUserPlaneResources,
    HardwareFailure,
    OmIntervention,
    Unspecified,
    UnknownPlmn,
    /// A cause of a later release.
    Extended(u64),
}

/// Why something ended or failed (TS 36.413 clause 9.2.1.3).
#[derive(Clone, Copy, Debug)]
pub enum Cause {
    RadioNetwork(RadioNetworkCause),
    Transport(TransportCause),
    Nas(NasCause),
    Protocol(ProtocolCause),
    Misc(MiscCause),
}
