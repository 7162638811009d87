//! Messages by which associations begin and end.
#![tactic(auto, unfolding(crate::specs::Typed::encode_typed))]

ghost use Rattle.per_bits.specs.Reading.{GivesWhole};
ghost use Rattle.s1ap_pdus.specs.Pdus.{context_setup_request_lists, typed_context_setup_request, typed_context_setup_response, typed_context_setup_failure, typed_release_request, typed_release_command, typed_release_complete};
ghost use Rattle.s1ap_pdus.specs.Typed.{encode_typed, typed_of};
ghost use Rattle.s1ap_pdus.specs.declared.message_type.MessageType.TheVariants as message;

use crate::message_type::MessageType;
use crate::octets::octets_of;
use crate::pdu::{
    Encoded, InitialContextSetupFailure, InitialContextSetupRequest, InitialContextSetupResponse,
    UeContextReleaseCommand, UeContextReleaseComplete, UeContextReleaseRequest,
};
use s1ap_elements::ids::{
    CAUSE, ENB_UE_S1AP_ID, ERAB_SETUP_LIST_CTXT_SU_RES, ERAB_TO_BE_SETUP_LIST_CTXT_SU_REQ,
    MME_UE_S1AP_ID, SECURITY_KEY, UE_AGGREGATE_MAXIMUM_BITRATE, UE_S1AP_IDS,
    UE_SECURITY_CAPABILITIES,
};
use s1ap_elements::{
    Ambr, Cause, EnbUeId, ErabsSetup, ErabsToBeSetup, IGNORE, MmeUeId, REJECT,
    SecurityCapabilities, SecurityKey, UeS1apIds,
};
use s1ap_rows::{Needed, SixRows, ThreeRows, TwoRows};
use std::alloc::Global;

/// The rows of INITIAL CONTEXT SETUP REQUEST (TS 36.413 clause 9.1.4.1).
pub type InitialContextSetupRequestRows<'a> = SixRows<
    Needed<MME_UE_S1AP_ID, REJECT, MmeUeId>,
    Needed<ENB_UE_S1AP_ID, REJECT, EnbUeId>,
    Needed<UE_AGGREGATE_MAXIMUM_BITRATE, REJECT, Ambr>,
    Needed<ERAB_TO_BE_SETUP_LIST_CTXT_SU_REQ, REJECT, ErabsToBeSetup<'a, &'a [u8]>>,
    Needed<UE_SECURITY_CAPABILITIES, REJECT, SecurityCapabilities>,
    Needed<SECURITY_KEY, REJECT, SecurityKey>,
>;

/// The octets of INITIAL CONTEXT SETUP REQUEST (TS 36.413 clause 9.1.4.1).
#[tactic(auto, using(s1ap_elements::specs::BearerLaws::erabs_seen), unfolding(crate::specs::Typed::encode_typed))]
pub fn write_context_setup_request(alloc: Global, m: &InitialContextSetupRequest<&[u8]>) -> Encoded
    ensures { GivesWhole (λ v. v.items) result
        (encode_typed
        (typed_of message.InitialContextSetupRequest (typed_context_setup_request (context_setup_request_lists m.now)))) }
{
    octets_of::<InitialContextSetupRequestRows>(
        alloc,
        MessageType::InitialContextSetupRequest,
        &lent!(
            &m.mme_ue_id,
            &m.enb_ue_id,
            &m.ambr,
            &m.erabs,
            &m.capabilities,
            &m.key
        ),
    )
}

/// The rows of INITIAL CONTEXT SETUP RESPONSE (TS 36.413 clause 9.1.4.3).
pub type InitialContextSetupResponseRows<'a> = ThreeRows<
    Needed<MME_UE_S1AP_ID, IGNORE, MmeUeId>,
    Needed<ENB_UE_S1AP_ID, IGNORE, EnbUeId>,
    Needed<ERAB_SETUP_LIST_CTXT_SU_RES, IGNORE, ErabsSetup<'a>>,
>;

/// The octets of INITIAL CONTEXT SETUP RESPONSE (TS 36.413 clause 9.1.4.3).
pub fn write_context_setup_response(alloc: Global, m: &InitialContextSetupResponse) -> Encoded
    ensures { GivesWhole (λ v. v.items) result
        (encode_typed (typed_of message.InitialContextSetupResponse (typed_context_setup_response m.now))) }
{
    octets_of::<InitialContextSetupResponseRows>(
        alloc,
        MessageType::InitialContextSetupResponse,
        &lent!(&m.mme_ue_id, &m.enb_ue_id, &m.erabs),
    )
}

/// The rows of INITIAL CONTEXT SETUP FAILURE (TS 36.413 clause 9.1.4.4).
pub type InitialContextSetupFailureRows = ThreeRows<
    Needed<MME_UE_S1AP_ID, IGNORE, MmeUeId>,
    Needed<ENB_UE_S1AP_ID, IGNORE, EnbUeId>,
    Needed<CAUSE, IGNORE, Cause>,
>;

/// The octets of INITIAL CONTEXT SETUP FAILURE (TS 36.413 clause 9.1.4.4).
pub fn write_context_setup_failure(alloc: Global, m: &InitialContextSetupFailure) -> Encoded
    ensures { GivesWhole (λ v. v.items) result
        (encode_typed (typed_of message.InitialContextSetupFailure (typed_context_setup_failure m.now))) }
{
    octets_of::<InitialContextSetupFailureRows>(
        alloc,
        MessageType::InitialContextSetupFailure,
        &lent!(&m.mme_ue_id, &m.enb_ue_id, &m.cause),
    )
}

/// The rows of UE CONTEXT RELEASE REQUEST (TS 36.413 clause 9.1.4.5).
pub type UeContextReleaseRequestRows = ThreeRows<
    Needed<MME_UE_S1AP_ID, REJECT, MmeUeId>,
    Needed<ENB_UE_S1AP_ID, REJECT, EnbUeId>,
    Needed<CAUSE, IGNORE, Cause>,
>;

/// The octets of UE CONTEXT RELEASE REQUEST (TS 36.413 clause 9.1.4.5).
pub fn write_release_request(alloc: Global, m: &UeContextReleaseRequest) -> Encoded
    ensures { GivesWhole (λ v. v.items) result
        (encode_typed (typed_of message.UeContextReleaseRequest (typed_release_request m.now))) }
{
    octets_of::<UeContextReleaseRequestRows>(
        alloc,
        MessageType::UeContextReleaseRequest,
        &lent!(&m.mme_ue_id, &m.enb_ue_id, &m.cause),
    )
}

/// The rows of UE CONTEXT RELEASE COMMAND (TS 36.413 clause 9.1.4.6).
pub type UeContextReleaseCommandRows = TwoRows<
    Needed<UE_S1AP_IDS, REJECT, UeS1apIds>,
    Needed<CAUSE, IGNORE, Cause>,
>;

/// The octets of UE CONTEXT RELEASE COMMAND (TS 36.413 clause 9.1.4.6).
pub fn write_release_command(alloc: Global, m: &UeContextReleaseCommand) -> Encoded
    ensures { GivesWhole (λ v. v.items) result
        (encode_typed (typed_of message.UeContextReleaseCommand (typed_release_command m.now))) }
{
    octets_of::<UeContextReleaseCommandRows>(
        alloc,
        MessageType::UeContextReleaseCommand,
        &lent!(&m.ids, &m.cause),
    )
}

/// The rows of UE CONTEXT RELEASE COMPLETE (TS 36.413 clause 9.1.4.7).
pub type UeContextReleaseCompleteRows = TwoRows<
    Needed<MME_UE_S1AP_ID, IGNORE, MmeUeId>,
    Needed<ENB_UE_S1AP_ID, IGNORE, EnbUeId>,
>;

/// The octets of UE CONTEXT RELEASE COMPLETE (TS 36.413 clause 9.1.4.7).
pub fn write_release_complete(alloc: Global, m: &UeContextReleaseComplete) -> Encoded
    ensures { GivesWhole (λ v. v.items) result
        (encode_typed (typed_of message.UeContextReleaseComplete (typed_release_complete m.now))) }
{
    octets_of::<UeContextReleaseCompleteRows>(
        alloc,
        MessageType::UeContextReleaseComplete,
        &lent!(&m.mme_ue_id, &m.enb_ue_id),
    )
}
