//! Reading messages of the interface as a whole.

ghost use Rattle.s1ap_rows.specs.Answers.{Answers};
ghost use Rattle.s1ap_pdus.specs.Pdus.{lists, typed};
ghost use Rattle.s1ap_pdus.specs.declared.message_type.MessageType.TheVariants as message;
ghost use Rattle.s1ap_pdus.specs.Typed.{read_typed};

use crate::answer::Decoded;
use s1ap_pdus::rows::{ErrorIndicationRows, ResetAcknowledgeRows, ResetRows};
use s1ap_pdus::{ErrorIndication, Pdu, Reset, ResetAcknowledge};
use s1ap_rows::read_message;
use std::alloc::Global;

/// Reads RESET from the octets of its elements (TS 36.413 clause 9.1.8.1).
#[tactic(auto, unfolding(s1ap_pdus::specs::Typed::read_typed))]
#[inline(never)]
pub fn read_reset<'a>(alloc: Global, octets: &'a [u8]) -> Decoded<'a>
    ensures { Answers (λ m. typed (lists m)) result (read_typed message.Reset octets.now) }
{
    match read_message::<ResetRows>(alloc, octets) {
        Ok(elements!(cause, reset_type)) => Ok(Pdu::Reset(Reset { cause, reset_type })),
        Err(fault) => Err(fault),
    }
}

/// Reads RESET ACKNOWLEDGE from the octets of its elements (TS 36.413 clause 9.1.8.2).
#[tactic(auto, unfolding(s1ap_pdus::specs::Typed::read_typed))]
#[inline(never)]
pub fn read_reset_acknowledge<'a>(alloc: Global, octets: &'a [u8]) -> Decoded<'a>
    ensures { Answers (λ m. typed (lists m)) result (read_typed message.ResetAcknowledge octets.now) }
{
    match read_message::<ResetAcknowledgeRows>(alloc, octets) {
        Ok(elements!(associations)) => Ok(Pdu::ResetAcknowledge(ResetAcknowledge { associations })),
        Err(fault) => Err(fault),
    }
}

/// Reads ERROR INDICATION from the octets of its elements (TS 36.413 clause 9.1.8.3).
#[tactic(auto, unfolding(s1ap_pdus::specs::Typed::read_typed))]
#[inline(never)]
pub fn read_error_indication<'a>(alloc: Global, octets: &'a [u8]) -> Decoded<'a>
    ensures { Answers (λ m. typed (lists m)) result (read_typed message.ErrorIndication octets.now) }
{
    match read_message::<ErrorIndicationRows>(alloc, octets) {
        Ok(elements!(mme_ue_id, enb_ue_id, cause)) => Ok(Pdu::ErrorIndication(ErrorIndication {
            mme_ue_id,
            enb_ue_id,
            cause,
        })),
        Err(fault) => Err(fault),
    }
}
