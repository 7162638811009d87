//! Messages of the interface as a whole.
#![tactic(auto, unfolding(crate::specs::Typed::encode_typed))]

ghost use Rattle.per_bits.specs.Reading.{GivesWhole};
ghost use Rattle.s1ap_pdus.specs.Pdus.{typed_reset, typed_reset_acknowledge, typed_error_indication};
ghost use Rattle.s1ap_pdus.specs.Typed.{encode_typed, typed_of};
ghost use Rattle.s1ap_pdus.specs.declared.message_type.MessageType.TheVariants as message;

use crate::message_type::MessageType;
use crate::octets::octets_of;
use crate::pdu::{Encoded, ErrorIndication, Reset, ResetAcknowledge};
use s1ap_elements::ids::{
    CAUSE, ENB_UE_S1AP_ID, MME_UE_S1AP_ID, RESET_TYPE,
    UE_ASSOCIATED_LOGICAL_S1_CONNECTION_LIST_RES_ACK,
};
use s1ap_elements::{AssociationsReset, Cause, EnbUeId, IGNORE, MmeUeId, REJECT, ResetType};
use s1ap_rows::{Needed, OneRow, Optional, ThreeRows, TwoRows};
use std::alloc::Global;

/// The rows of RESET (TS 36.413 clause 9.1.8.1).
pub type ResetRows = TwoRows<Needed<CAUSE, IGNORE, Cause>, Needed<RESET_TYPE, REJECT, ResetType>>;

/// The octets of RESET (TS 36.413 clause 9.1.8.1).
pub fn write_reset(alloc: Global, m: &Reset) -> Encoded
    ensures { GivesWhole (λ v. v.items) result (encode_typed (typed_of message.Reset (typed_reset m.now))) }
{
    octets_of::<ResetRows>(alloc, MessageType::Reset, &lent!(&m.cause, &m.reset_type))
}

/// The rows of RESET ACKNOWLEDGE (TS 36.413 clause 9.1.8.2).
pub type ResetAcknowledgeRows = OneRow<
    Optional<UE_ASSOCIATED_LOGICAL_S1_CONNECTION_LIST_RES_ACK, IGNORE, AssociationsReset>,
>;

/// The octets of RESET ACKNOWLEDGE (TS 36.413 clause 9.1.8.2).
pub fn write_reset_acknowledge(alloc: Global, m: &ResetAcknowledge) -> Encoded
    ensures { GivesWhole (λ v. v.items) result (encode_typed (typed_of message.ResetAcknowledge (typed_reset_acknowledge m.now))) }
{
    octets_of::<ResetAcknowledgeRows>(
        alloc,
        MessageType::ResetAcknowledge,
        &lent!(&m.associations),
    )
}

/// The rows of ERROR INDICATION (TS 36.413 clause 9.1.8.3).
pub type ErrorIndicationRows = ThreeRows<
    Optional<MME_UE_S1AP_ID, IGNORE, MmeUeId>,
    Optional<ENB_UE_S1AP_ID, IGNORE, EnbUeId>,
    Optional<CAUSE, IGNORE, Cause>,
>;

/// The octets of ERROR INDICATION (TS 36.413 clause 9.1.8.3).
pub fn write_error_indication(alloc: Global, m: &ErrorIndication) -> Encoded
    ensures { GivesWhole (λ v. v.items) result (encode_typed (typed_of message.ErrorIndication (typed_error_indication m.now))) }
{
    octets_of::<ErrorIndicationRows>(
        alloc,
        MessageType::ErrorIndication,
        &lent!(&m.mme_ue_id, &m.enb_ue_id, &m.cause),
    )
}
