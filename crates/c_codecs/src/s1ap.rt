//! S1AP messages (TS 36.413) by their kinds and the ids of the association that they name.

ghost use Rattle.std.specs.Prelude.{◌≡◌};
ghost use Rattle.s1ap_pdus.specs.Pdus.{lists};
ghost use Rattle.c_codecs.specs.S1ap.{Summed, of_both, of_enb, of_ids, of_none, summary};

use crate::fault::{CodecFault, of_s1ap};
use s1ap_elements::{EnbUeId, MmeUeId, UeS1apIds};
use s1ap_messages::{Pdu, S1apPdu, decode};
use std::alloc::Global;

/// A message by its kind, 1 to 21 in the order of [`Pdu`], and the ids of the one association that it names.
#[derive(Clone, Copy)]
pub struct S1apMessage {
    pub kind: u8,
    pub mme_ue_id: Option<u32>,
    pub enb_ue_id: Option<u32>,
}

fn mme_number(id: MmeUeId) -> u32
    ensures { result ≡ id }
{
    id.get() as u32
}

fn enb_number(id: EnbUeId) -> u32
    ensures { result ≡ id }
{
    id.get() as u32
}

fn of_none(kind: u8) -> S1apMessage
    ensures { result ≡ of_none kind }
{
    S1apMessage {
        kind,
        mme_ue_id: None,
        enb_ue_id: None,
    }
}

fn of_enb(kind: u8, enb_ue_id: EnbUeId) -> S1apMessage
    ensures { result ≡ of_enb kind enb_ue_id }
{
    S1apMessage {
        kind,
        mme_ue_id: None,
        enb_ue_id: Some(enb_number(enb_ue_id)),
    }
}

fn of_both(kind: u8, mme_ue_id: MmeUeId, enb_ue_id: EnbUeId) -> S1apMessage
    ensures { result ≡ of_both kind mme_ue_id enb_ue_id }
{
    S1apMessage {
        kind,
        mme_ue_id: Some(mme_number(mme_ue_id)),
        enb_ue_id: Some(enb_number(enb_ue_id)),
    }
}

fn of_ids(kind: u8, ids: UeS1apIds) -> S1apMessage
    ensures { result ≡ of_ids kind ids }
{
    match ids {
        UeS1apIds::Pair(pair) => of_both(kind, pair.mme_ue_id, pair.enb_ue_id),
        UeS1apIds::MmeUeId(id) => S1apMessage {
            kind,
            mme_ue_id: Some(mme_number(id)),
            enb_ue_id: None,
        },
    }
}

fn of_given(kind: u8, mme_ue_id: Option<MmeUeId>, enb_ue_id: Option<EnbUeId>) -> S1apMessage
    ensures { result ≡ record { kind = kind; mme_ue_id = mme_ue_id; enb_ue_id = enb_ue_id } }
{
    S1apMessage {
        kind,
        mme_ue_id: match mme_ue_id {
            Some(id) => Some(mme_number(id)),
            None => None,
        },
        enb_ue_id: match enb_ue_id {
            Some(id) => Some(enb_number(id)),
            None => None,
        },
    }
}

fn summary(message: &S1apPdu) -> S1apMessage
    ensures { result ≡ summary (lists message.now) }
{
    match message {
        Pdu::S1SetupRequest(_) => of_none(1),
        Pdu::S1SetupResponse(_) => of_none(2),
        Pdu::S1SetupFailure(_) => of_none(3),
        Pdu::InitialUeMessage(m) => of_enb(4, m.enb_ue_id),
        Pdu::DownlinkNasTransport(m) => of_both(5, m.mme_ue_id, m.enb_ue_id),
        Pdu::UplinkNasTransport(m) => of_both(6, m.mme_ue_id, m.enb_ue_id),
        Pdu::NasNonDeliveryIndication(m) => of_both(7, m.mme_ue_id, m.enb_ue_id),
        Pdu::UeCapabilityInfoIndication(m) => of_both(8, m.mme_ue_id, m.enb_ue_id),
        Pdu::InitialContextSetupRequest(m) => of_both(9, m.mme_ue_id, m.enb_ue_id),
        Pdu::InitialContextSetupResponse(m) => of_both(10, m.mme_ue_id, m.enb_ue_id),
        Pdu::InitialContextSetupFailure(m) => of_both(11, m.mme_ue_id, m.enb_ue_id),
        Pdu::UeContextReleaseRequest(m) => of_both(12, m.mme_ue_id, m.enb_ue_id),
        Pdu::UeContextReleaseCommand(m) => of_ids(13, m.ids),
        Pdu::UeContextReleaseComplete(m) => of_both(14, m.mme_ue_id, m.enb_ue_id),
        Pdu::Paging(_) => of_none(15),
        Pdu::PathSwitchRequest(m) => of_both(16, m.source_mme_ue_id, m.enb_ue_id),
        Pdu::PathSwitchRequestAcknowledge(m) => of_both(17, m.mme_ue_id, m.enb_ue_id),
        Pdu::PathSwitchRequestFailure(m) => of_both(18, m.mme_ue_id, m.enb_ue_id),
        Pdu::Reset(_) => of_none(19),
        Pdu::ResetAcknowledge(_) => of_none(20),
        Pdu::ErrorIndication(m) => of_given(21, m.mme_ue_id, m.enb_ue_id),
    }
}

/// The message that the octets spell, by its kind and ids; else their first fault from the left, a missing element last. NoMemory
/// may stand in place of both.
pub fn s1ap_message(alloc: Global, octets: &[u8]) -> Result<S1apMessage, CodecFault>
    ensures { Summed octets.now result }
{
    match decode(alloc, octets) {
        Ok(message) => Ok(summary(&message)),
        Err(fault) => Err(of_s1ap(fault)),
    }
}
