//! The S1AP messages that the machine sends.

ghost use Rattle.std.specs.Prelude.{◌≡◌, ◌<◌, ◌≤◌, ◌%◌, ◌∷◌, [], IfOk, option_map};
ghost use Rattle.s1ap_pdus.specs.Pdus.{lists};
ghost use Rattle.mme_types.specs.Pdus.{algorithm_bits, cause_of_request, context_setup, downlink, error_indication, index_bits, is_extended, number_from, paging, path_switch_acknowledge, path_switch_failure, qos, release_command, ue_index};

use crate::connection::Connection;
use crate::network::Network;
use eps_keys::{Kenb, NextHop};
use identity_slots::{AssociationId, Profile, Tmsi};
use nas_elements::{Imsi, UeCapability, codes};
use s1ap_pdus::elements::{
    Address, Ambr, Arp, BitField, Cause, CnDomain, EnbUeId, ErabId, ErabToBeSetup, Items, Listed,
    MiscCause, MmeUeId, NasCause, Octets, ProtocolCause, Qos, RadioNetworkCause, STmsi,
    SecurityCapabilities, SecurityContext, Tai, TaiItem, TransportCause, UeIdPair, UeIndex,
    UePagingId, UeS1apIds, Whole,
};
use s1ap_pdus::{
    DownlinkNasTransport, ErrorIndication, InitialContextSetupRequest, Paging,
    PathSwitchRequestAcknowledge, PathSwitchRequestFailure, Pdu, S1apPdu, UeContextReleaseCommand,
};
use std::alloc::{AllocError, Global};

// An association's id as S1AP has it.
fn mme_ue_id_of(id: AssociationId) -> MmeUeId
    ensures { result ≡ id }
{
    Whole::new(u64::from(id.get()))
}

/// DOWNLINK NAS TRANSPORT (TS 36.413 clause 8.6.2.2).
#[tactic(auto, unfolding(crate::specs::Pdus::downlink))]
pub fn downlink<'a>(connection: Connection, nas: &'a [u8]) -> S1apPdu<'a>
    ensures { lists result ≡ downlink connection nas.entry.now }
{
    Pdu::DownlinkNasTransport(DownlinkNasTransport {
        mme_ue_id: mme_ue_id_of(connection.id),
        enb_ue_id: connection.enb_ue_id,
        nas,
    })
}

/// UE CONTEXT RELEASE COMMAND with the pair of numbers (TS 36.413 clause 8.3.3.2).
#[tactic(auto, unfolding(crate::specs::Pdus::release_command))]
pub fn release_command<'a>(
    mme_ue_id: AssociationId,
    enb_ue_id: EnbUeId,
    cause: Cause,
) -> S1apPdu<'a>
    ensures { lists result ≡ release_command mme_ue_id enb_ue_id cause }
{
    let ids = UeS1apIds::Pair(UeIdPair {
        mme_ue_id: mme_ue_id_of(mme_ue_id),
        enb_ue_id,
    });
    Pdu::UeContextReleaseCommand(UeContextReleaseCommand { ids, cause })
}

fn is_extended(cause: Cause) -> bool
    ensures { result ≡ is_extended cause }
{
    matches!(
        cause,
        Cause::RadioNetwork(RadioNetworkCause::Extended(_))
            | Cause::Transport(TransportCause::Extended(_))
            | Cause::Nas(NasCause::Extended(_))
            | Cause::Protocol(ProtocolCause::Extended(_))
            | Cause::Misc(MiscCause::Extended(_))
    )
}

/// The cause by which a requested release is commanded: the request's, but a cause of a later release isn't written (TS 36.413
/// clause 8.3.3.2).
pub fn cause_of_request(cause: Cause) -> Cause
    ensures { result ≡ cause_of_request cause }
{
    if is_extended(cause) {
        Cause::RadioNetwork(RadioNetworkCause::Unspecified)
    } else {
        cause
    }
}

/// ERROR INDICATION with the numbers that were received (TS 36.413 clause 8.7.2).
#[tactic(auto, unfolding(crate::specs::Pdus::error_indication))]
pub fn error_indication<'a>(
    mme_ue_id: AssociationId,
    enb_ue_id: EnbUeId,
    cause: Cause,
) -> S1apPdu<'a>
    ensures { lists result ≡ error_indication mme_ue_id enb_ue_id cause }
{
    Pdu::ErrorIndication(ErrorIndication {
        mme_ue_id: Some(mme_ue_id_of(mme_ue_id)),
        enb_ue_id: Some(enb_ue_id),
        cause: Some(cause),
    })
}

/// PATH SWITCH REQUEST FAILURE with the numbers that were received (TS 36.413 clause 8.4.4.3).
#[tactic(auto, unfolding(crate::specs::Pdus::path_switch_failure))]
pub fn path_switch_failure<'a>(
    mme_ue_id: AssociationId,
    enb_ue_id: EnbUeId,
    cause: Cause,
) -> S1apPdu<'a>
    ensures { lists result ≡ path_switch_failure mme_ue_id enb_ue_id cause }
{
    Pdu::PathSwitchRequestFailure(PathSwitchRequestFailure {
        mme_ue_id: mme_ue_id_of(mme_ue_id),
        enb_ue_id,
        cause,
    })
}

/// PATH SWITCH REQUEST ACKNOWLEDGE with the next hop of 32 octets and its chaining count, 0 to 7 (TS 36.413 clause 8.4.4.2).
#[tactic(auto, unfolding(crate::specs::Pdus::path_switch_acknowledge))]
pub fn path_switch_acknowledge<'a>(
    connection: Connection,
    next_hop: NextHop,
    chaining_count: u8,
) -> S1apPdu<'a>
    requires { chaining_count < 8 }
    ensures { lists result ≡ path_switch_acknowledge connection next_hop chaining_count }
{
    Pdu::PathSwitchRequestAcknowledge(PathSwitchRequestAcknowledge {
        mme_ue_id: mme_ue_id_of(connection.id),
        enb_ue_id: connection.enb_ue_id,
        context: SecurityContext {
            chaining_count: Whole::new(u64::from(chaining_count)),
            next_hop: Octets::new(*next_hop.octets()),
        },
    })
}

// QCI 9 at the lowest priority, which takes from nobody and from which nothing is taken.
fn qos() -> Qos
    ensures { result ≡ qos }
{
    Qos {
        qci: Whole::new(9),
        arp: Arp {
            priority: Whole::new(15),
            capability: Whole::new(0),
            vulnerability: Whole::new(0),
        },
    }
}

// The algorithms 1 to 7 of an octet that begins with algorithm 0, as the first of 16.
fn algorithm_bits(octet: u8) -> BitField<16>
    ensures { result ≡ algorithm_bits octet }
{
    BitField::new([
        octet / 64 % 2 == 1,
        octet / 32 % 2 == 1,
        octet / 16 % 2 == 1,
        octet / 8 % 2 == 1,
        octet / 4 % 2 == 1,
        octet / 2 % 2 == 1,
        octet % 2 == 1,
        false,
        false,
        false,
        false,
        false,
        false,
        false,
        false,
        false,
    ])
}

/// INITIAL CONTEXT SETUP REQUEST for the default bearer, with a NAS message where there is one (TS 36.413 clause 8.3.1.2).
#[tactic(auto, unfolding(crate::specs::Pdus::context_setup))]
pub fn context_setup<'a>(
    alloc: Global,
    network: &Network,
    profile: &'a Profile,
    capability: &UeCapability,
    connection: Connection,
    kenb: Kenb,
    nas: Option<&'a [u8]>,
) -> Result<S1apPdu<'a>, AllocError>
    ensures { IfOk result
        (λ m. lists m ≡ context_setup network.now profile.entry.now capability.now connection kenb
        (option_map (λ o. o.now) nas.entry)) }
{
    let address = Address::new(&profile.gateway);
    let id: ErabId = Whole::new(u64::from(codes::DEFAULT_BEARER));
    let erab = ErabToBeSetup {
        id,
        qos: qos(),
        address,
        teid: Octets::new(profile.teid),
        nas,
    };
    let erabs = Items::only(alloc, Listed { value: erab })?;
    Ok(Pdu::InitialContextSetupRequest(InitialContextSetupRequest {
        mme_ue_id: mme_ue_id_of(connection.id),
        enb_ue_id: connection.enb_ue_id,
        ambr: Ambr {
            down: Whole::new(network.down.get()),
            up: Whole::new(network.up.get()),
        },
        erabs,
        capabilities: SecurityCapabilities {
            encryption: algorithm_bits(capability.encryption()),
            integrity: algorithm_bits(capability.integrity()),
        },
        key: Octets::new(*kenb.octets()),
    }))
}

// The number that digits stand for, modulo 1024.
fn number_of(digits: &[u8]) -> u32
    ensures value { result ≡ number_from 0 digits.now % 1024 }
    ensures small { result < 1024 }
{
    let mut number = 0u32;
    for digit in digits {
        number = (number * 10 + u32::from(*digit).saturating_sub(48)) % 1024;
    }
    number
}

// The IMSI modulo 1024 (TS 36.304 clause 7.1).
#[tactic(auto, unfolding(crate::specs::Pdus::ue_index))]
fn ue_index(imsi: Imsi) -> u32
    ensures { result ≡ ue_index imsi }
{
    let text = imsi.digits();
    number_of(text.as_str().as_bytes())
}

fn index_bits(index: u32) -> UeIndex
    ensures { result ≡ index_bits index }
{
    BitField::new([
        index / 512 % 2 == 1,
        index / 256 % 2 == 1,
        index / 128 % 2 == 1,
        index / 64 % 2 == 1,
        index / 32 % 2 == 1,
        index / 16 % 2 == 1,
        index / 8 % 2 == 1,
        index / 4 % 2 == 1,
        index / 2 % 2 == 1,
        index % 2 == 1,
    ])
}

/// PAGING of a phone by its S-TMSI in its tracking area (TS 36.413 clause 8.5).
#[tactic(auto, unfolding(crate::specs::Pdus::paging))]
pub fn paging<'a>(
    alloc: Global,
    network: &Network,
    imsi: Imsi,
    tmsi: Tmsi,
    tai: Tai,
) -> Result<S1apPdu<'a>, AllocError>
    ensures { IfOk result (λ m. lists m ≡ paging network.now imsi tmsi tai) }
{
    let tai_list = Items::only(
        alloc,
        Listed {
            value: TaiItem { tai },
        },
    )?;
    Ok(Pdu::Paging(Paging {
        ue_index: index_bits(ue_index(imsi)),
        paging_id: UePagingId::STmsi(STmsi {
            code: network.code,
            m_tmsi: Octets::new(tmsi.get().to_be_bytes()),
        }),
        domain: CnDomain::Ps,
        tai_list,
    }))
}
