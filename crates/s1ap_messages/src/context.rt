//! Reading messages by which associations begin and end.

ghost use Rattle.s1ap_rows.specs.Answers.{Answers};
ghost use Rattle.s1ap_pdus.specs.Pdus.{lists, typed};
ghost use Rattle.s1ap_pdus.specs.declared.message_type.MessageType.TheVariants as message;
ghost use Rattle.s1ap_pdus.specs.Typed.{read_typed};

use crate::answer::Decoded;
use s1ap_pdus::rows::{
    InitialContextSetupFailureRows, InitialContextSetupRequestRows,
    InitialContextSetupResponseRows, UeContextReleaseCommandRows, UeContextReleaseCompleteRows,
    UeContextReleaseRequestRows,
};
use s1ap_pdus::{
    InitialContextSetupFailure, InitialContextSetupRequest, InitialContextSetupResponse, Pdu,
    UeContextReleaseCommand, UeContextReleaseComplete, UeContextReleaseRequest,
};
use s1ap_rows::read_message;
use std::alloc::Global;

/// Reads INITIAL CONTEXT SETUP REQUEST from the octets of its elements (TS 36.413 clause 9.1.4.1).
#[tactic(auto, using(s1ap_elements::specs::BearerLaws::erabs_seen), unfolding(s1ap_pdus::specs::Typed::read_typed))]
#[inline(never)]
pub fn read_context_setup_request<'a>(alloc: Global, octets: &'a [u8]) -> Decoded<'a>
    ensures { Answers (λ m. typed (lists m)) result (read_typed message.InitialContextSetupRequest octets.now) }
{
    match read_message::<InitialContextSetupRequestRows>(alloc, octets) {
        Ok(elements!(mme_ue_id, enb_ue_id, ambr, erabs, capabilities, key)) => Ok(
            Pdu::InitialContextSetupRequest(InitialContextSetupRequest {
                mme_ue_id,
                enb_ue_id,
                ambr,
                erabs,
                capabilities,
                key,
            }),
        ),
        Err(fault) => Err(fault),
    }
}

/// Reads INITIAL CONTEXT SETUP RESPONSE from the octets of its elements (TS 36.413 clause 9.1.4.3).
#[tactic(auto, unfolding(s1ap_pdus::specs::Typed::read_typed))]
#[inline(never)]
pub fn read_context_setup_response<'a>(alloc: Global, octets: &'a [u8]) -> Decoded<'a>
    ensures { Answers (λ m. typed (lists m)) result (read_typed message.InitialContextSetupResponse octets.now) }
{
    match read_message::<InitialContextSetupResponseRows>(alloc, octets) {
        Ok(elements!(mme_ue_id, enb_ue_id, erabs)) => Ok(Pdu::InitialContextSetupResponse(
            InitialContextSetupResponse {
                mme_ue_id,
                enb_ue_id,
                erabs,
            },
        )),
        Err(fault) => Err(fault),
    }
}

/// Reads INITIAL CONTEXT SETUP FAILURE from the octets of its elements (TS 36.413 clause 9.1.4.4).
#[tactic(auto, unfolding(s1ap_pdus::specs::Typed::read_typed))]
#[inline(never)]
pub fn read_context_setup_failure<'a>(alloc: Global, octets: &'a [u8]) -> Decoded<'a>
    ensures { Answers (λ m. typed (lists m)) result (read_typed message.InitialContextSetupFailure octets.now) }
{
    match read_message::<InitialContextSetupFailureRows>(alloc, octets) {
        Ok(elements!(mme_ue_id, enb_ue_id, cause)) => Ok(Pdu::InitialContextSetupFailure(
            InitialContextSetupFailure {
                mme_ue_id,
                enb_ue_id,
                cause,
            },
        )),
        Err(fault) => Err(fault),
    }
}

/// Reads UE CONTEXT RELEASE REQUEST from the octets of its elements (TS 36.413 clause 9.1.4.5).
#[tactic(auto, unfolding(s1ap_pdus::specs::Typed::read_typed))]
#[inline(never)]
pub fn read_release_request<'a>(alloc: Global, octets: &'a [u8]) -> Decoded<'a>
    ensures { Answers (λ m. typed (lists m)) result (read_typed message.UeContextReleaseRequest octets.now) }
{
    match read_message::<UeContextReleaseRequestRows>(alloc, octets) {
        Ok(elements!(mme_ue_id, enb_ue_id, cause)) => Ok(Pdu::UeContextReleaseRequest(
            UeContextReleaseRequest {
                mme_ue_id,
                enb_ue_id,
                cause,
            },
        )),
        Err(fault) => Err(fault),
    }
}

/// Reads UE CONTEXT RELEASE COMMAND from the octets of its elements (TS 36.413 clause 9.1.4.6).
#[tactic(auto, unfolding(s1ap_pdus::specs::Typed::read_typed))]
#[inline(never)]
pub fn read_release_command<'a>(alloc: Global, octets: &'a [u8]) -> Decoded<'a>
    ensures { Answers (λ m. typed (lists m)) result (read_typed message.UeContextReleaseCommand octets.now) }
{
    match read_message::<UeContextReleaseCommandRows>(alloc, octets) {
        Ok(elements!(ids, cause)) => Ok(Pdu::UeContextReleaseCommand(UeContextReleaseCommand {
            ids,
            cause,
        })),
        Err(fault) => Err(fault),
    }
}

/// Reads UE CONTEXT RELEASE COMPLETE from the octets of its elements (TS 36.413 clause 9.1.4.7).
#[tactic(auto, unfolding(s1ap_pdus::specs::Typed::read_typed))]
#[inline(never)]
pub fn read_release_complete<'a>(alloc: Global, octets: &'a [u8]) -> Decoded<'a>
    ensures { Answers (λ m. typed (lists m)) result (read_typed message.UeContextReleaseComplete octets.now) }
{
    match read_message::<UeContextReleaseCompleteRows>(alloc, octets) {
        Ok(elements!(mme_ue_id, enb_ue_id)) => Ok(Pdu::UeContextReleaseComplete(
            UeContextReleaseComplete {
                mme_ue_id,
                enb_ue_id,
            },
        )),
        Err(fault) => Err(fault),
    }
}
