//! Reading messages by which stations come up.

ghost use Rattle.s1ap_rows.specs.Answers.{Answers};
ghost use Rattle.s1ap_pdus.specs.Pdus.{lists, typed};
ghost use Rattle.s1ap_pdus.specs.declared.message_type.MessageType.TheVariants as message;
ghost use Rattle.s1ap_pdus.specs.Typed.{read_typed};

use crate::answer::Decoded;
use s1ap_elements::octets_of_name;
use s1ap_pdus::rows::{S1SetupFailureRows, S1SetupRequestRows, S1SetupResponseRows};
use s1ap_pdus::{Pdu, S1SetupFailure, S1SetupRequest, S1SetupResponse};
use s1ap_rows::read_message;
use std::alloc::Global;

/// Reads S1 SETUP REQUEST from the octets of its elements (TS 36.413 clause 9.1.8.4).
#[tactic(auto, unfolding(s1ap_pdus::specs::Typed::read_typed))]
#[inline(never)]
pub fn read_setup_request<'a>(alloc: Global, octets: &'a [u8]) -> Decoded<'a>
    ensures { Answers (λ m. typed (lists m)) result (read_typed message.S1SetupRequest octets.now) }
{
    match read_message::<S1SetupRequestRows>(alloc, octets) {
        Ok(elements!(station, name, supported_tas, paging_drx)) => Ok(Pdu::S1SetupRequest(
            S1SetupRequest {
                station,
                name: octets_of_name(name),
                supported_tas,
                paging_drx,
            },
        )),
        Err(fault) => Err(fault),
    }
}

/// Reads S1 SETUP RESPONSE from the octets of its elements (TS 36.413 clause 9.1.8.5).
#[tactic(auto, unfolding(s1ap_pdus::specs::Typed::read_typed))]
#[inline(never)]
pub fn read_setup_response<'a>(alloc: Global, octets: &'a [u8]) -> Decoded<'a>
    ensures { Answers (λ m. typed (lists m)) result (read_typed message.S1SetupResponse octets.now) }
{
    match read_message::<S1SetupResponseRows>(alloc, octets) {
        Ok(elements!(served_gummeis, capacity)) => Ok(Pdu::S1SetupResponse(S1SetupResponse {
            served_gummeis,
            capacity,
        })),
        Err(fault) => Err(fault),
    }
}

/// Reads S1 SETUP FAILURE from the octets of its elements (TS 36.413 clause 9.1.8.6).
#[tactic(auto, unfolding(s1ap_pdus::specs::Typed::read_typed))]
#[inline(never)]
pub fn read_setup_failure<'a>(alloc: Global, octets: &'a [u8]) -> Decoded<'a>
    ensures { Answers (λ m. typed (lists m)) result (read_typed message.S1SetupFailure octets.now) }
{
    match read_message::<S1SetupFailureRows>(alloc, octets) {
        Ok(elements!(cause)) => Ok(Pdu::S1SetupFailure(S1SetupFailure { cause })),
        Err(fault) => Err(fault),
    }
}
