//! Messages that look for phones and follow them.
#![tactic(auto, unfolding(crate::specs::Typed::encode_typed))]

ghost use Rattle.per_bits.specs.Reading.{GivesWhole};
ghost use Rattle.s1ap_pdus.specs.Pdus.{paging_lists, typed_paging, typed_path_switch_request, typed_path_switch_acknowledge, typed_path_switch_failure};
ghost use Rattle.s1ap_pdus.specs.Typed.{encode_typed, typed_of};
ghost use Rattle.s1ap_pdus.specs.declared.message_type.MessageType.TheVariants as message;

use crate::message_type::MessageType;
use crate::octets::octets_of;
use crate::pdu::{
    Encoded, Paging, PathSwitchRequest, PathSwitchRequestAcknowledge, PathSwitchRequestFailure,
};
use s1ap_elements::ids::{
    CAUSE, CN_DOMAIN, ENB_UE_S1AP_ID, ERAB_TO_BE_SWITCHED_DL_LIST, EUTRAN_CGI, MME_UE_S1AP_ID,
    SECURITY_CONTEXT, SOURCE_MME_UE_S1AP_ID, TAI, TAI_LIST, UE_IDENTITY_INDEX_VALUE, UE_PAGING_ID,
    UE_SECURITY_CAPABILITIES,
};
use s1ap_elements::{
    Cause, CnDomain, EnbUeId, ErabsToBeSwitched, EutranCgi, IGNORE, MmeUeId, REJECT,
    SecurityCapabilities, SecurityContext, Tai, TaiList, UeIndex, UePagingId,
};
use s1ap_rows::{FourRows, Needed, SixRows, ThreeRows};
use std::alloc::Global;

/// The rows of PAGING (TS 36.413 clause 9.1.6).
pub type PagingRows<'a> = FourRows<
    Needed<UE_IDENTITY_INDEX_VALUE, IGNORE, UeIndex>,
    Needed<UE_PAGING_ID, IGNORE, UePagingId<&'a [u8]>>,
    Needed<CN_DOMAIN, IGNORE, CnDomain>,
    Needed<TAI_LIST, IGNORE, TaiList>,
>;

/// The octets of PAGING (TS 36.413 clause 9.1.6).
pub fn write_paging(alloc: Global, m: &Paging<&[u8]>) -> Encoded
    ensures { GivesWhole (λ v. v.items) result (encode_typed (typed_of message.Paging (typed_paging (paging_lists m.now)))) }
{
    octets_of::<PagingRows>(
        alloc,
        MessageType::Paging,
        &lent!(&m.ue_index, &m.paging_id, &m.domain, &m.tai_list),
    )
}

/// The rows of PATH SWITCH REQUEST (TS 36.413 clause 9.1.5.8).
pub type PathSwitchRequestRows<'a> = SixRows<
    Needed<ENB_UE_S1AP_ID, REJECT, EnbUeId>,
    Needed<ERAB_TO_BE_SWITCHED_DL_LIST, REJECT, ErabsToBeSwitched<'a>>,
    Needed<SOURCE_MME_UE_S1AP_ID, REJECT, MmeUeId>,
    Needed<EUTRAN_CGI, IGNORE, EutranCgi>,
    Needed<TAI, IGNORE, Tai>,
    Needed<UE_SECURITY_CAPABILITIES, IGNORE, SecurityCapabilities>,
>;

/// The octets of PATH SWITCH REQUEST (TS 36.413 clause 9.1.5.8).
pub fn write_path_switch_request(alloc: Global, m: &PathSwitchRequest) -> Encoded
    ensures { GivesWhole (λ v. v.items) result
        (encode_typed (typed_of message.PathSwitchRequest (typed_path_switch_request m.now))) }
{
    octets_of::<PathSwitchRequestRows>(
        alloc,
        MessageType::PathSwitchRequest,
        &lent!(
            &m.enb_ue_id,
            &m.erabs,
            &m.source_mme_ue_id,
            &m.cell,
            &m.tai,
            &m.capabilities
        ),
    )
}

/// The rows of PATH SWITCH REQUEST ACKNOWLEDGE (TS 36.413 clause 9.1.5.9).
pub type PathSwitchRequestAcknowledgeRows = ThreeRows<
    Needed<MME_UE_S1AP_ID, IGNORE, MmeUeId>,
    Needed<ENB_UE_S1AP_ID, IGNORE, EnbUeId>,
    Needed<SECURITY_CONTEXT, REJECT, SecurityContext>,
>;

/// The octets of PATH SWITCH REQUEST ACKNOWLEDGE (TS 36.413 clause 9.1.5.9).
pub fn write_path_switch_acknowledge(alloc: Global, m: &PathSwitchRequestAcknowledge) -> Encoded
    ensures { GivesWhole (λ v. v.items) result
        (encode_typed (typed_of message.PathSwitchRequestAcknowledge (typed_path_switch_acknowledge m.now))) }
{
    octets_of::<PathSwitchRequestAcknowledgeRows>(
        alloc,
        MessageType::PathSwitchRequestAcknowledge,
        &lent!(&m.mme_ue_id, &m.enb_ue_id, &m.context),
    )
}

/// The rows of PATH SWITCH REQUEST FAILURE (TS 36.413 clause 9.1.5.10).
pub type PathSwitchRequestFailureRows = ThreeRows<
    Needed<MME_UE_S1AP_ID, IGNORE, MmeUeId>,
    Needed<ENB_UE_S1AP_ID, IGNORE, EnbUeId>,
    Needed<CAUSE, IGNORE, Cause>,
>;

/// The octets of PATH SWITCH REQUEST FAILURE (TS 36.413 clause 9.1.5.10).
pub fn write_path_switch_failure(alloc: Global, m: &PathSwitchRequestFailure) -> Encoded
    ensures { GivesWhole (λ v. v.items) result
        (encode_typed (typed_of message.PathSwitchRequestFailure (typed_path_switch_failure m.now))) }
{
    octets_of::<PathSwitchRequestFailureRows>(
        alloc,
        MessageType::PathSwitchRequestFailure,
        &lent!(&m.mme_ue_id, &m.enb_ue_id, &m.cause),
    )
}
