//! The S1AP messages that a station sends, as octets.

ghost use Rattle.std.specs.Prelude.{◌≡◌, ◌≢◌, ◌++◌, ◌≤◌, ◌∷◌, [], IfOk, Some, option_map};
ghost use Rattle.std.specs.Int.{w32, to_be_bytes};
ghost use Rattle.s1ap_pdus.specs.Pdus.{encoded, lists};
ghost use Rattle.enb_sim.specs.Profile.{address_of, area_of, cell_number, cell_of, phone_capabilities};
ghost use Rattle.enb_sim.specs.Sending.{complete_pdu, context_pdu, initial_pdu, release_pdu, switch_pdu, uplink_pdu};

use crate::profile::StationProfile;
use crate::writable::{
    is_initial_writable, is_uplink_writable, release_is_writable, switch_is_writable,
};
use per_bits::{BitField, Items, Octets, Whole};
use s1ap_elements::{
    Address, Cause, CellId, EnbUeId, ErabId, ErabTunnel, EutranCgi, Listed, RadioNetworkCause,
    RrcCause, STmsi, SecurityCapabilities, Tai, Teid, UeIdPair,
};
use s1ap_messages::{
    EncodeFault, InitialContextSetupResponse, InitialUeMessage, PathSwitchRequest, Pdu, S1apPdu,
    UeContextReleaseComplete, UeContextReleaseRequest, UplinkNasTransport, encode,
};
use std::alloc::{AllocError, Global};

// The number 1 of a cell, after 20 bits for its station's.
const CELL: [bool; 28] = [
    false, false, false, false, false, false, false, false, false, false, false, false, false,
    false, false, false, false, false, false, false, false, false, false, false, false, false,
    false, true,
];

/// The octets of a message that has a written form, or `None`; or that memory was refused.
pub(crate) type Sent = Result<Option<Vec<u8>>, AllocError>;

/// The octets of a message, where it has a written form.
pub(crate) fn sent(alloc: Global, message: &S1apPdu) -> Sent
    ensures { IfOk result (λ o. option_map (λ v. v.items) o ≡ encoded (lists message.now)) }
{
    match encode(alloc, message) {
        Ok(octets) => Ok(Some(octets)),
        Err(EncodeFault::NotWritable) => Ok(None),
        Err(EncodeFault::NoMemory) => Err(AllocError),
    }
}

// The one tracking area of a station.
fn area(profile: &StationProfile) -> Tai
    ensures { result ≡ area_of profile.now }
{
    Tai {
        plmn: profile.plmn,
        tac: profile.tac,
    }
}

// Cell 1 of the station of this number.
fn cell_id(macro_id: BitField<20>) -> CellId
    ensures { result ≡ macro_id ++ cell_number }
{
    let mut bits = CELL;
    bits[..20].copy_from_slice(&macro_id.bits());
    BitField::new(bits)
}

// The one cell of a station.
fn cell(profile: &StationProfile) -> EutranCgi
    ensures { result ≡ cell_of profile.now }
{
    EutranCgi {
        plmn: profile.plmn,
        cell: cell_id(profile.macro_id),
    }
}

// The end of a tunnel, by the number that the phone has at the station.
fn teid(enb_ue_id: EnbUeId) -> Teid
    ensures { result ≡ to_be_bytes w32 enb_ue_id }
{
    Octets::new((enb_ue_id.get() as u32).to_be_bytes())
}

// The IPv4 address of a station.
fn address(profile: &StationProfile) -> [u8; 4]
    ensures { result ≡ address_of profile.now }
{
    [0xc0, 0xa8, 0, profile.number.get()]
}

// EEA1, EEA2; EIA1, EIA2.
fn capabilities() -> SecurityCapabilities
    ensures { result ≡ phone_capabilities }
{
    let two = BitField::new([
        true, true, false, false, false, false, false, false, false, false, false, false, false,
        false, false, false,
    ]);
    SecurityCapabilities {
        encryption: two,
        integrity: two,
    }
}

// The default bearer (TS 36.413 clause 9.2.1.2).
fn default_bearer() -> ErabId
    ensures { result ≡ 5 }
{
    Whole::new(5)
}

/// INITIAL UE MESSAGE (TS 36.413 clause 8.6.2.1); `None` where its NAS message is too long, whatever memory there is.
#[tactic(auto, unfolding(crate::specs::Sending::initial_pdu))]
pub(crate) fn initial(
    alloc: Global,
    profile: &StationProfile,
    enb_ue_id: EnbUeId,
    nas: &[u8],
    s_tmsi: Option<STmsi>,
) -> Sent
    ensures octets { IfOk result (λ o. option_map (λ v. v.items) o ≡ encoded (initial_pdu profile.now enb_ue_id nas.now s_tmsi)) }
    ensures unsent { encoded (initial_pdu profile.now enb_ue_id nas.now s_tmsi) ≡ None → result ≡ Ok None }
{
    if !is_initial_writable(profile, enb_ue_id, nas, &s_tmsi) {
        return Ok(None);
    }
    let message = Pdu::InitialUeMessage(InitialUeMessage {
        enb_ue_id,
        nas,
        tai: area(profile),
        cell: cell(profile),
        rrc_cause: RrcCause::MoSignalling,
        s_tmsi,
    });
    sent(alloc, &message)
}

/// UPLINK NAS TRANSPORT (TS 36.413 clause 8.6.2.3); `None` where its NAS message is too long, whatever memory there is.
#[tactic(auto, unfolding(crate::specs::Sending::uplink_pdu))]
pub(crate) fn uplink(alloc: Global, profile: &StationProfile, pair: UeIdPair, nas: &[u8]) -> Sent
    ensures octets { IfOk result (λ o. option_map (λ v. v.items) o ≡ encoded (uplink_pdu profile.now pair nas.now)) }
    ensures unsent { encoded (uplink_pdu profile.now pair nas.now) ≡ None → result ≡ Ok None }
{
    if !is_uplink_writable(profile, &pair, nas) {
        return Ok(None);
    }
    let message = Pdu::UplinkNasTransport(UplinkNasTransport {
        mme_ue_id: pair.mme_ue_id,
        enb_ue_id: pair.enb_ue_id,
        nas,
        cell: cell(profile),
        tai: area(profile),
    });
    sent(alloc, &message)
}

#[tactic(auto, unfolding(crate::specs::Sending::switch_pdu))]
fn switch_request<'a>(
    alloc: Global,
    profile: &StationProfile,
    address: &'a [u8; 4],
    pair: UeIdPair,
) -> Result<S1apPdu<'a>, AllocError>
    requires { address.now ≡ address_of profile.now }
    ensures { IfOk result (λ m. lists m ≡ switch_pdu profile.now pair) }
{
    let address = Address::new(address);
    let value = ErabTunnel {
        id: default_bearer(),
        address,
        teid: teid(pair.enb_ue_id),
    };
    let erabs = Items::only(alloc, Listed { value })?;
    Ok(Pdu::PathSwitchRequest(PathSwitchRequest {
        enb_ue_id: pair.enb_ue_id,
        erabs,
        source_mme_ue_id: pair.mme_ue_id,
        cell: cell(profile),
        tai: area(profile),
        capabilities: capabilities(),
    }))
}

/// PATH SWITCH REQUEST (TS 36.413 clause 8.4.4).
pub(crate) fn switch(alloc: Global, profile: &StationProfile, pair: UeIdPair) -> Sent
    ensures octets { IfOk result (λ o. option_map (λ v. v.items) o ≡ encoded (switch_pdu profile.now pair)) }
    ensures written { encoded (switch_pdu profile.now pair) ≢ None }
{
    switch_is_writable(profile, &pair);
    let address = address(profile);
    let message = switch_request(alloc, profile, &address, pair)?;
    sent(alloc, &message)
}

/// UE CONTEXT RELEASE REQUEST for inactivity (TS 36.413 clause 8.3.2).
#[tactic(auto, unfolding(crate::specs::Sending::release_pdu))]
pub(crate) fn release_request(alloc: Global, pair: UeIdPair) -> Sent
    ensures octets { IfOk result (λ o. option_map (λ v. v.items) o ≡ encoded (release_pdu pair)) }
    ensures written { encoded (release_pdu pair) ≢ None }
{
    release_is_writable(&pair);
    let message = Pdu::UeContextReleaseRequest(UeContextReleaseRequest {
        mme_ue_id: pair.mme_ue_id,
        enb_ue_id: pair.enb_ue_id,
        cause: Cause::RadioNetwork(RadioNetworkCause::UserInactivity),
    });
    sent(alloc, &message)
}

#[tactic(auto, unfolding(crate::specs::Sending::context_pdu))]
fn context_setup_response<'a>(
    alloc: Global,
    profile: &StationProfile,
    address: &'a [u8; 4],
    pair: UeIdPair,
    id: ErabId,
) -> Result<S1apPdu<'a>, AllocError>
    requires { address.now ≡ address_of profile.now }
    ensures { IfOk result (λ m. lists m ≡ context_pdu profile.now pair id) }
{
    let _ = profile;
    let address = Address::new(address);
    let value = ErabTunnel {
        id,
        address,
        teid: teid(pair.enb_ue_id),
    };
    let erabs = Items::only(alloc, Listed { value })?;
    Ok(Pdu::InitialContextSetupResponse(InitialContextSetupResponse {
        mme_ue_id: pair.mme_ue_id,
        enb_ue_id: pair.enb_ue_id,
        erabs,
    }))
}

/// INITIAL CONTEXT SETUP RESPONSE for one bearer (TS 36.413 clause 8.3.1).
pub(crate) fn context_response(
    alloc: Global,
    profile: &StationProfile,
    pair: &UeIdPair,
    id: ErabId,
) -> Sent
    ensures { IfOk result (λ o. option_map (λ v. v.items) o ≡ encoded (context_pdu profile.now pair.now id)) }
{
    let address = address(profile);
    let message = context_setup_response(alloc, profile, &address, *pair, id)?;
    sent(alloc, &message)
}

/// UE CONTEXT RELEASE COMPLETE (TS 36.413 clause 8.3.3).
#[tactic(auto, unfolding(crate::specs::Sending::complete_pdu))]
pub(crate) fn release_complete(alloc: Global, pair: UeIdPair) -> Sent
    ensures { IfOk result (λ o. option_map (λ v. v.items) o ≡ encoded (complete_pdu pair)) }
{
    let message = Pdu::UeContextReleaseComplete(UeContextReleaseComplete {
        mme_ue_id: pair.mme_ue_id,
        enb_ue_id: pair.enb_ue_id,
    });
    sent(alloc, &message)
}
