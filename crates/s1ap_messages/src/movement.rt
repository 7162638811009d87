//! Reading messages that look for phones and follow them.

ghost use Rattle.s1ap_rows.specs.Answers.{Answers};
ghost use Rattle.s1ap_pdus.specs.Pdus.{lists, typed};
ghost use Rattle.s1ap_pdus.specs.declared.message_type.MessageType.TheVariants as message;
ghost use Rattle.s1ap_pdus.specs.Typed.{read_typed};

use crate::answer::Decoded;
use s1ap_pdus::rows::{
    PagingRows, PathSwitchRequestAcknowledgeRows, PathSwitchRequestFailureRows,
    PathSwitchRequestRows,
};
use s1ap_pdus::{
    Paging, PathSwitchRequest, PathSwitchRequestAcknowledge, PathSwitchRequestFailure, Pdu,
};
use s1ap_rows::read_message;
use std::alloc::Global;

/// Reads PAGING from the octets of its elements (TS 36.413 clause 9.1.6).
#[tactic(auto, unfolding(s1ap_pdus::specs::Typed::read_typed))]
#[inline(never)]
pub fn read_paging<'a>(alloc: Global, octets: &'a [u8]) -> Decoded<'a>
    ensures { Answers (λ m. typed (lists m)) result (read_typed message.Paging octets.now) }
{
    match read_message::<PagingRows>(alloc, octets) {
        Ok(elements!(ue_index, paging_id, domain, tai_list)) => Ok(Pdu::Paging(Paging {
            ue_index,
            paging_id,
            domain,
            tai_list,
        })),
        Err(fault) => Err(fault),
    }
}

/// Reads PATH SWITCH REQUEST from the octets of its elements (TS 36.413 clause 9.1.5.8).
#[tactic(auto, unfolding(s1ap_pdus::specs::Typed::read_typed))]
#[inline(never)]
pub fn read_path_switch_request<'a>(alloc: Global, octets: &'a [u8]) -> Decoded<'a>
    ensures { Answers (λ m. typed (lists m)) result (read_typed message.PathSwitchRequest octets.now) }
{
    match read_message::<PathSwitchRequestRows>(alloc, octets) {
        Ok(elements!(enb_ue_id, erabs, source_mme_ue_id, cell, tai, capabilities)) => Ok(
            Pdu::PathSwitchRequest(PathSwitchRequest {
                enb_ue_id,
                erabs,
                source_mme_ue_id,
                cell,
                tai,
                capabilities,
            }),
        ),
        Err(fault) => Err(fault),
    }
}

/// Reads PATH SWITCH REQUEST ACKNOWLEDGE from the octets of its elements (TS 36.413 clause 9.1.5.9).
#[tactic(auto, unfolding(s1ap_pdus::specs::Typed::read_typed))]
#[inline(never)]
pub fn read_path_switch_acknowledge<'a>(alloc: Global, octets: &'a [u8]) -> Decoded<'a>
    ensures { Answers (λ m. typed (lists m)) result (read_typed message.PathSwitchRequestAcknowledge octets.now) }
{
    match read_message::<PathSwitchRequestAcknowledgeRows>(alloc, octets) {
        Ok(elements!(mme_ue_id, enb_ue_id, context)) => Ok(Pdu::PathSwitchRequestAcknowledge(
            PathSwitchRequestAcknowledge {
                mme_ue_id,
                enb_ue_id,
                context,
            },
        )),
        Err(fault) => Err(fault),
    }
}

/// Reads PATH SWITCH REQUEST FAILURE from the octets of its elements (TS 36.413 clause 9.1.5.10).
#[tactic(auto, unfolding(s1ap_pdus::specs::Typed::read_typed))]
#[inline(never)]
pub fn read_path_switch_failure<'a>(alloc: Global, octets: &'a [u8]) -> Decoded<'a>
    ensures { Answers (λ m. typed (lists m)) result (read_typed message.PathSwitchRequestFailure octets.now) }
{
    match read_message::<PathSwitchRequestFailureRows>(alloc, octets) {
        Ok(elements!(mme_ue_id, enb_ue_id, cause)) => Ok(Pdu::PathSwitchRequestFailure(
            PathSwitchRequestFailure {
                mme_ue_id,
                enb_ue_id,
                cause,
            },
        )),
        Err(fault) => Err(fault),
    }
}
