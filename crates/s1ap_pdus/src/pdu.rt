//! Messages as values. `B` is what holds octets: a slice of the message in code, a list in contracts.

use per_bits::PerError;
use s1ap_elements::{
    Ambr, AssociationsReset, Cause, CnDomain, EnbUeId, ErabsSetup, ErabsToBeSetup,
    ErabsToBeSwitched, EutranCgi, GlobalEnbId, MmeUeId, PagingDrx, RelativeCapacity, ResetType,
    RrcCause, STmsi, SecurityCapabilities, SecurityContext, SecurityKey, ServedGummeis,
    SupportedTas, Tai, TaiList, UeIndex, UePagingId, UeS1apIds,
};

/// A station sets the interface up (TS 36.413 clause 9.1.8.4).
#[derive(Drop)]
pub struct S1SetupRequest<B: Drop> {
    pub station: GlobalEnbId,
    /// The printable name of the station, 1 to 150 octets.
    pub name: Option<B>,
    pub supported_tas: SupportedTas,
    pub paging_drx: PagingDrx,
}

/// An MME takes a station (TS 36.413 clause 9.1.8.5).
#[derive(Drop)]
pub struct S1SetupResponse {
    pub served_gummeis: ServedGummeis,
    pub capacity: RelativeCapacity,
}

/// An MME refuses a station (TS 36.413 clause 9.1.8.6).
#[derive(Drop)]
pub struct S1SetupFailure {
    pub cause: Cause,
}

/// The first NAS message of a phone that wants a connection (TS 36.413 clause 9.1.7.1).
#[derive(Drop)]
pub struct InitialUeMessage<B: Drop> {
    pub enb_ue_id: EnbUeId,
    /// A NAS message.
    pub nas: B,
    pub tai: Tai,
    pub cell: EutranCgi,
    pub rrc_cause: RrcCause,
    pub s_tmsi: Option<STmsi>,
}

/// A NAS message to a phone (TS 36.413 clause 9.1.7.2).
#[derive(Drop)]
pub struct DownlinkNasTransport<B: Drop> {
    pub mme_ue_id: MmeUeId,
    pub enb_ue_id: EnbUeId,
    /// A NAS message.
    pub nas: B,
}

/// A NAS message from a phone (TS 36.413 clause 9.1.7.3).
#[derive(Drop)]
pub struct UplinkNasTransport<B: Drop> {
    pub mme_ue_id: MmeUeId,
    pub enb_ue_id: EnbUeId,
    /// A NAS message.
    pub nas: B,
    pub cell: EutranCgi,
    pub tai: Tai,
}

/// A NAS message was not brought to its phone (TS 36.413 clause 9.1.7.4).
#[derive(Drop)]
pub struct NasNonDeliveryIndication<B: Drop> {
    pub mme_ue_id: MmeUeId,
    pub enb_ue_id: EnbUeId,
    /// A NAS message.
    pub nas: B,
    pub cause: Cause,
}

/// What a phone's radio can do, as octets (TS 36.413 clause 9.1.10).
#[derive(Drop)]
pub struct UeCapabilityInfoIndication<B: Drop> {
    pub mme_ue_id: MmeUeId,
    pub enb_ue_id: EnbUeId,
    /// The radio capability, as the station has it.
    pub radio_capability: B,
}

/// A station is to serve a phone's bearers (TS 36.413 clause 9.1.4.1).
#[derive(Drop)]
pub struct InitialContextSetupRequest<'a, B: Drop> {
    pub mme_ue_id: MmeUeId,
    pub enb_ue_id: EnbUeId,
    pub ambr: Ambr,
    pub erabs: ErabsToBeSetup<'a, B>,
    pub capabilities: SecurityCapabilities,
    pub key: SecurityKey,
}

/// A station serves a phone's bearers (TS 36.413 clause 9.1.4.3).
#[derive(Drop)]
pub struct InitialContextSetupResponse<'a> {
    pub mme_ue_id: MmeUeId,
    pub enb_ue_id: EnbUeId,
    pub erabs: ErabsSetup<'a>,
}

/// A station does not serve a phone's bearers (TS 36.413 clause 9.1.4.4).
#[derive(Drop)]
pub struct InitialContextSetupFailure {
    pub mme_ue_id: MmeUeId,
    pub enb_ue_id: EnbUeId,
    pub cause: Cause,
}

/// A station asks that an association ends (TS 36.413 clause 9.1.4.5).
#[derive(Drop)]
pub struct UeContextReleaseRequest {
    pub mme_ue_id: MmeUeId,
    pub enb_ue_id: EnbUeId,
    pub cause: Cause,
}

/// An association ends (TS 36.413 clause 9.1.4.6).
#[derive(Drop)]
pub struct UeContextReleaseCommand {
    pub ids: UeS1apIds,
    pub cause: Cause,
}

/// An association has ended (TS 36.413 clause 9.1.4.7).
#[derive(Drop)]
pub struct UeContextReleaseComplete {
    pub mme_ue_id: MmeUeId,
    pub enb_ue_id: EnbUeId,
}

/// A phone is called (TS 36.413 clause 9.1.6).
#[derive(Drop)]
pub struct Paging<B: Drop> {
    pub ue_index: UeIndex,
    pub paging_id: UePagingId<B>,
    pub domain: CnDomain,
    pub tai_list: TaiList,
}

/// A phone has come to this station (TS 36.413 clause 9.1.5.8).
#[derive(Drop)]
pub struct PathSwitchRequest<'a> {
    pub enb_ue_id: EnbUeId,
    pub erabs: ErabsToBeSwitched<'a>,
    /// The MME's number of the association.
    pub source_mme_ue_id: MmeUeId,
    pub cell: EutranCgi,
    pub tai: Tai,
    pub capabilities: SecurityCapabilities,
}

/// A phone's bearers end at its new station (TS 36.413 clause 9.1.5.9).
#[derive(Drop)]
pub struct PathSwitchRequestAcknowledge {
    pub mme_ue_id: MmeUeId,
    pub enb_ue_id: EnbUeId,
    /// The next hop.
    pub context: SecurityContext,
}

/// A phone's bearers are not switched (TS 36.413 clause 9.1.5.10).
#[derive(Drop)]
pub struct PathSwitchRequestFailure {
    pub mme_ue_id: MmeUeId,
    pub enb_ue_id: EnbUeId,
    pub cause: Cause,
}

/// The interface, or a part of it, is set back (TS 36.413 clause 9.1.8.1).
#[derive(Drop)]
pub struct Reset {
    pub cause: Cause,
    pub reset_type: ResetType,
}

/// The interface, or a part of it, was set back (TS 36.413 clause 9.1.8.2).
#[derive(Drop)]
pub struct ResetAcknowledge {
    /// Those of a part, in the order in which they were asked for.
    pub associations: Option<AssociationsReset>,
}

/// Something is wrong with a message (TS 36.413 clause 9.1.8.3).
#[derive(Drop)]
pub struct ErrorIndication {
    pub mme_ue_id: Option<MmeUeId>,
    pub enb_ue_id: Option<EnbUeId>,
    pub cause: Option<Cause>,
}

/// A message of the interface.
#[derive(Drop)]
pub enum Pdu<'a, B: Drop> {
    S1SetupRequest(S1SetupRequest<B>),
    S1SetupResponse(S1SetupResponse),
    S1SetupFailure(S1SetupFailure),
    InitialUeMessage(InitialUeMessage<B>),
    DownlinkNasTransport(DownlinkNasTransport<B>),
    UplinkNasTransport(UplinkNasTransport<B>),
    NasNonDeliveryIndication(NasNonDeliveryIndication<B>),
    UeCapabilityInfoIndication(UeCapabilityInfoIndication<B>),
    InitialContextSetupRequest(InitialContextSetupRequest<'a, B>),
    InitialContextSetupResponse(InitialContextSetupResponse<'a>),
    InitialContextSetupFailure(InitialContextSetupFailure),
    UeContextReleaseRequest(UeContextReleaseRequest),
    UeContextReleaseCommand(UeContextReleaseCommand),
    UeContextReleaseComplete(UeContextReleaseComplete),
    Paging(Paging<B>),
    PathSwitchRequest(PathSwitchRequest<'a>),
    PathSwitchRequestAcknowledge(PathSwitchRequestAcknowledge),
    PathSwitchRequestFailure(PathSwitchRequestFailure),
    Reset(Reset),
    ResetAcknowledge(ResetAcknowledge),
    ErrorIndication(ErrorIndication),
}

/// A message that lends its octets from where it was read.
pub type S1apPdu<'a> = Pdu<'a, &'a [u8]>;

/// What writing a message answers.
pub type Encoded = Result<Vec<u8>, PerError>;
