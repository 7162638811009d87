//! Messages that carry what phones and the MME say.
#![tactic(auto, unfolding(crate::specs::Typed::encode_typed))]

ghost use Rattle.per_bits.specs.Reading.{GivesWhole};
ghost use Rattle.s1ap_pdus.specs.Pdus.{initial_ue_message_lists, typed_initial_ue_message, downlink_nas_transport_lists, typed_downlink_nas_transport, uplink_nas_transport_lists, typed_uplink_nas_transport, nas_non_delivery_lists, typed_nas_non_delivery, capability_info_lists, typed_capability_info};
ghost use Rattle.s1ap_pdus.specs.Typed.{encode_typed, typed_of};
ghost use Rattle.s1ap_pdus.specs.declared.message_type.MessageType.TheVariants as message;

use crate::message_type::MessageType;
use crate::octets::octets_of;
use crate::pdu::{
    DownlinkNasTransport, Encoded, InitialUeMessage, NasNonDeliveryIndication,
    UeCapabilityInfoIndication, UplinkNasTransport,
};
use per_bits::OctetString;
use s1ap_elements::ids::{
    CAUSE, ENB_UE_S1AP_ID, EUTRAN_CGI, MME_UE_S1AP_ID, NAS_PDU, RRC_ESTABLISHMENT_CAUSE, S_TMSI,
    TAI, UE_RADIO_CAPABILITY,
};
use s1ap_elements::{Cause, EnbUeId, EutranCgi, IGNORE, MmeUeId, REJECT, RrcCause, STmsi, Tai};
use s1ap_rows::{FiveRows, FourRows, Needed, Optional, SixRows, ThreeRows};
use std::alloc::Global;

/// The rows of INITIAL UE MESSAGE (TS 36.413 clause 9.1.7.1).
pub type InitialUeMessageRows<'a> = SixRows<
    Needed<ENB_UE_S1AP_ID, REJECT, EnbUeId>,
    Needed<NAS_PDU, REJECT, OctetString<'a>>,
    Needed<TAI, REJECT, Tai>,
    Needed<EUTRAN_CGI, IGNORE, EutranCgi>,
    Needed<RRC_ESTABLISHMENT_CAUSE, IGNORE, RrcCause>,
    Optional<S_TMSI, REJECT, STmsi>,
>;

/// The octets of INITIAL UE MESSAGE (TS 36.413 clause 9.1.7.1).
pub fn write_initial_ue_message(alloc: Global, m: &InitialUeMessage<&[u8]>) -> Encoded
    ensures { GivesWhole (λ v. v.items) result
        (encode_typed (typed_of message.InitialUeMessage (typed_initial_ue_message (initial_ue_message_lists m.now)))) }
{
    octets_of::<InitialUeMessageRows>(
        alloc,
        MessageType::InitialUeMessage,
        &lent!(
            &m.enb_ue_id,
            &OctetString { octets: m.nas },
            &m.tai,
            &m.cell,
            &m.rrc_cause,
            &m.s_tmsi
        ),
    )
}

/// The rows of DOWNLINK NAS TRANSPORT (TS 36.413 clause 9.1.7.2).
pub type DownlinkNasTransportRows<'a> = ThreeRows<
    Needed<MME_UE_S1AP_ID, REJECT, MmeUeId>,
    Needed<ENB_UE_S1AP_ID, REJECT, EnbUeId>,
    Needed<NAS_PDU, REJECT, OctetString<'a>>,
>;

/// The octets of DOWNLINK NAS TRANSPORT (TS 36.413 clause 9.1.7.2).
pub fn write_downlink_nas_transport(alloc: Global, m: &DownlinkNasTransport<&[u8]>) -> Encoded
    ensures { GivesWhole (λ v. v.items) result
        (encode_typed (typed_of message.DownlinkNasTransport (typed_downlink_nas_transport (downlink_nas_transport_lists m.now)))) }
{
    octets_of::<DownlinkNasTransportRows>(
        alloc,
        MessageType::DownlinkNasTransport,
        &lent!(&m.mme_ue_id, &m.enb_ue_id, &OctetString { octets: m.nas }),
    )
}

/// The rows of UPLINK NAS TRANSPORT (TS 36.413 clause 9.1.7.3).
pub type UplinkNasTransportRows<'a> = FiveRows<
    Needed<MME_UE_S1AP_ID, REJECT, MmeUeId>,
    Needed<ENB_UE_S1AP_ID, REJECT, EnbUeId>,
    Needed<NAS_PDU, REJECT, OctetString<'a>>,
    Needed<EUTRAN_CGI, IGNORE, EutranCgi>,
    Needed<TAI, IGNORE, Tai>,
>;

/// The octets of UPLINK NAS TRANSPORT (TS 36.413 clause 9.1.7.3).
pub fn write_uplink_nas_transport(alloc: Global, m: &UplinkNasTransport<&[u8]>) -> Encoded
    ensures { GivesWhole (λ v. v.items) result
        (encode_typed (typed_of message.UplinkNasTransport (typed_uplink_nas_transport (uplink_nas_transport_lists m.now)))) }
{
    octets_of::<UplinkNasTransportRows>(
        alloc,
        MessageType::UplinkNasTransport,
        &lent!(
            &m.mme_ue_id,
            &m.enb_ue_id,
            &OctetString { octets: m.nas },
            &m.cell,
            &m.tai
        ),
    )
}

/// The rows of NAS NON DELIVERY INDICATION (TS 36.413 clause 9.1.7.4).
pub type NasNonDeliveryIndicationRows<'a> = FourRows<
    Needed<MME_UE_S1AP_ID, REJECT, MmeUeId>,
    Needed<ENB_UE_S1AP_ID, REJECT, EnbUeId>,
    Needed<NAS_PDU, IGNORE, OctetString<'a>>,
    Needed<CAUSE, IGNORE, Cause>,
>;

/// The octets of NAS NON DELIVERY INDICATION (TS 36.413 clause 9.1.7.4).
pub fn write_nas_non_delivery(alloc: Global, m: &NasNonDeliveryIndication<&[u8]>) -> Encoded
    ensures { GivesWhole (λ v. v.items) result
        (encode_typed (typed_of message.NasNonDeliveryIndication (typed_nas_non_delivery (nas_non_delivery_lists m.now)))) }
{
    octets_of::<NasNonDeliveryIndicationRows>(
        alloc,
        MessageType::NasNonDeliveryIndication,
        &lent!(
            &m.mme_ue_id,
            &m.enb_ue_id,
            &OctetString { octets: m.nas },
            &m.cause
        ),
    )
}

/// The rows of UE CAPABILITY INFO INDICATION (TS 36.413 clause 9.1.10).
pub type UeCapabilityInfoIndicationRows<'a> = ThreeRows<
    Needed<MME_UE_S1AP_ID, REJECT, MmeUeId>,
    Needed<ENB_UE_S1AP_ID, REJECT, EnbUeId>,
    Needed<UE_RADIO_CAPABILITY, IGNORE, OctetString<'a>>,
>;

/// The octets of UE CAPABILITY INFO INDICATION (TS 36.413 clause 9.1.10).
pub fn write_capability_info(alloc: Global, m: &UeCapabilityInfoIndication<&[u8]>) -> Encoded
    ensures { GivesWhole (λ v. v.items) result
        (encode_typed (typed_of message.UeCapabilityInfoIndication (typed_capability_info (capability_info_lists m.now)))) }
{
    octets_of::<UeCapabilityInfoIndicationRows>(
        alloc,
        MessageType::UeCapabilityInfoIndication,
        &lent!(
            &m.mme_ue_id,
            &m.enb_ue_id,
            &OctetString {
                octets: m.radio_capability
            }
        ),
    )
}
