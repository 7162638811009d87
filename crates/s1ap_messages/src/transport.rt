//! Reading messages that carry what phones and the MME say.

ghost use Rattle.s1ap_rows.specs.Answers.{Answers};
ghost use Rattle.s1ap_pdus.specs.Pdus.{lists, typed};
ghost use Rattle.s1ap_pdus.specs.declared.message_type.MessageType.TheVariants as message;
ghost use Rattle.s1ap_pdus.specs.Typed.{read_typed};

use crate::answer::Decoded;
use s1ap_pdus::rows::{
    DownlinkNasTransportRows, InitialUeMessageRows, NasNonDeliveryIndicationRows,
    UeCapabilityInfoIndicationRows, UplinkNasTransportRows,
};
use s1ap_pdus::{
    DownlinkNasTransport, InitialUeMessage, NasNonDeliveryIndication, Pdu,
    UeCapabilityInfoIndication, UplinkNasTransport,
};
use s1ap_rows::read_message;
use std::alloc::Global;

/// Reads INITIAL UE MESSAGE from the octets of its elements (TS 36.413 clause 9.1.7.1).
#[tactic(auto, unfolding(s1ap_pdus::specs::Typed::read_typed))]
#[inline(never)]
pub fn read_initial_ue_message<'a>(alloc: Global, octets: &'a [u8]) -> Decoded<'a>
    ensures { Answers (λ m. typed (lists m)) result (read_typed message.InitialUeMessage octets.now) }
{
    match read_message::<InitialUeMessageRows>(alloc, octets) {
        Ok(elements!(enb_ue_id, nas, tai, cell, rrc_cause, s_tmsi)) => Ok(Pdu::InitialUeMessage(
            InitialUeMessage {
                enb_ue_id,
                nas: nas.octets,
                tai,
                cell,
                rrc_cause,
                s_tmsi,
            },
        )),
        Err(fault) => Err(fault),
    }
}

/// Reads DOWNLINK NAS TRANSPORT from the octets of its elements (TS 36.413 clause 9.1.7.2).
#[tactic(auto, unfolding(s1ap_pdus::specs::Typed::read_typed))]
#[inline(never)]
pub fn read_downlink_nas_transport<'a>(alloc: Global, octets: &'a [u8]) -> Decoded<'a>
    ensures { Answers (λ m. typed (lists m)) result (read_typed message.DownlinkNasTransport octets.now) }
{
    match read_message::<DownlinkNasTransportRows>(alloc, octets) {
        Ok(elements!(mme_ue_id, enb_ue_id, nas)) => Ok(Pdu::DownlinkNasTransport(
            DownlinkNasTransport {
                mme_ue_id,
                enb_ue_id,
                nas: nas.octets,
            },
        )),
        Err(fault) => Err(fault),
    }
}

/// Reads UPLINK NAS TRANSPORT from the octets of its elements (TS 36.413 clause 9.1.7.3).
#[tactic(auto, unfolding(s1ap_pdus::specs::Typed::read_typed))]
#[inline(never)]
pub fn read_uplink_nas_transport<'a>(alloc: Global, octets: &'a [u8]) -> Decoded<'a>
    ensures { Answers (λ m. typed (lists m)) result (read_typed message.UplinkNasTransport octets.now) }
{
    match read_message::<UplinkNasTransportRows>(alloc, octets) {
        Ok(elements!(mme_ue_id, enb_ue_id, nas, cell, tai)) => Ok(Pdu::UplinkNasTransport(
            UplinkNasTransport {
                mme_ue_id,
                enb_ue_id,
                nas: nas.octets,
                cell,
                tai,
            },
        )),
        Err(fault) => Err(fault),
    }
}

/// Reads NAS NON DELIVERY INDICATION from the octets of its elements (TS 36.413 clause 9.1.7.4).
#[tactic(auto, unfolding(s1ap_pdus::specs::Typed::read_typed))]
#[inline(never)]
pub fn read_nas_non_delivery<'a>(alloc: Global, octets: &'a [u8]) -> Decoded<'a>
    ensures { Answers (λ m. typed (lists m)) result (read_typed message.NasNonDeliveryIndication octets.now) }
{
    match read_message::<NasNonDeliveryIndicationRows>(alloc, octets) {
        Ok(elements!(mme_ue_id, enb_ue_id, nas, cause)) => Ok(Pdu::NasNonDeliveryIndication(
            NasNonDeliveryIndication {
                mme_ue_id,
                enb_ue_id,
                nas: nas.octets,
                cause,
            },
        )),
        Err(fault) => Err(fault),
    }
}

/// Reads UE CAPABILITY INFO INDICATION from the octets of its elements (TS 36.413 clause 9.1.10).
#[tactic(auto, unfolding(s1ap_pdus::specs::Typed::read_typed))]
#[inline(never)]
pub fn read_capability_info<'a>(alloc: Global, octets: &'a [u8]) -> Decoded<'a>
    ensures { Answers (λ m. typed (lists m)) result (read_typed message.UeCapabilityInfoIndication octets.now) }
{
    match read_message::<UeCapabilityInfoIndicationRows>(alloc, octets) {
        Ok(elements!(mme_ue_id, enb_ue_id, radio_capability)) => Ok(
            Pdu::UeCapabilityInfoIndication(UeCapabilityInfoIndication {
                mme_ue_id,
                enb_ue_id,
                radio_capability: radio_capability.octets,
            }),
        ),
        Err(fault) => Err(fault),
    }
}
