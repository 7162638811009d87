//! Which of the messages that a station sends of its own accord have a written form: all but those whose NAS message is too long.
//! Nothing here takes memory.

ghost use Rattle.std.specs.Prelude.{◌≡◌, ◌≢◌, ◌^◌, ◌<◌, ◌≤◌, None, false, true};
ghost use Rattle.per_streams.specs.Octet.{all_below};
ghost use Rattle.per_bits.specs.Numbers.{octets_for};
ghost use Rattle.s1ap_pdus.specs.Pdus.{encoded};
ghost use Rattle.enb_sim.specs.Ranges.{STmsiInRangeIf, SiteInRange};
ghost use Rattle.enb_sim.specs.Sending.{initial_pdu, release_pdu, setup_pdu, switch_pdu, uplink_pdu};

use crate::profile::StationProfile;
use per_bits::Octets;
use s1ap_elements::{EnbUeId, STmsi, UeIdPair};
use s1ap_messages::encoded_exactly;

// How many octets a NAS message, the numbers of its association and the element of an S-TMSI may have together. The open type
// around a message's elements has at most 16,383 (X.691 clause 11.9); 42 of them are for the rest. In both messages that is 3 for
// the count of elements, 7 before the NAS message (id and criticality 3, its lengths 2 and 2), 5 before each number, 10 for the
// tracking area and 12 for the cell; and in an INITIAL UE MESSAGE, which has one number, 5 for the cause.
const ROOM: usize = 16_341;

// How many octets the element of an S-TMSI has: 4 before its value, and 6.
const S_TMSI: usize = 10;

// How many octets a number of an association is written in (X.691 clause 11.5).
fn octets_of(number: u64) -> usize
    requires { number < 2 ^ 32 }
    ensures exact { result ≡ octets_for number }
    ensures most { result ≤ 4 }
{
    if number < 1 << 8 {
        1
    } else if number < 1 << 16 {
        2
    } else if number < 1 << 24 {
        3
    } else {
        4
    }
}

// What a proof knows by the types.

fn site_is_in_range(profile: StationProfile)
    ensures { SiteInRange profile }
{
    let _plmn = profile.plmn;
    let _macro_id = profile.macro_id.bits();
    let _tac = profile.tac;
}

fn s_tmsi_is_in_range(s_tmsi: Option<STmsi>)
    ensures { STmsiInRangeIf s_tmsi }
{
    match s_tmsi {
        Some(s_tmsi) => {
            let _octets = (s_tmsi.code, s_tmsi.m_tmsi);
        }
        None => {}
    }
}

fn octets_are_below(octets: &[u8])
    ensures { all_below 256 octets.now ≡ true }
{
    let _ = octets;
}

/// Whether the INITIAL UE MESSAGE has a written form.
pub(crate) fn is_initial_writable(
    profile: &StationProfile,
    enb_ue_id: EnbUeId,
    nas: &[u8],
    s_tmsi: &Option<STmsi>,
) -> bool
    ensures written { result ≡ true → encoded (initial_pdu profile.now enb_ue_id nas.now s_tmsi.now) ≢ None }
    ensures refused { result ≡ false → encoded (initial_pdu profile.now enb_ue_id nas.now s_tmsi.now) ≡ None }
{
    encoded_exactly();
    site_is_in_range(*profile);
    s_tmsi_is_in_range(*s_tmsi);
    octets_are_below(nas);
    let octets = nas.len() + octets_of(enb_ue_id.get());
    match s_tmsi {
        None => octets <= ROOM,
        Some(_) => octets + S_TMSI <= ROOM,
    }
}

/// Whether the UPLINK NAS TRANSPORT has a written form.
pub(crate) fn is_uplink_writable(profile: &StationProfile, pair: &UeIdPair, nas: &[u8]) -> bool
    ensures written { result ≡ true → encoded (uplink_pdu profile.now pair.now nas.now) ≢ None }
    ensures refused { result ≡ false → encoded (uplink_pdu profile.now pair.now nas.now) ≡ None }
{
    encoded_exactly();
    site_is_in_range(*profile);
    octets_are_below(nas);
    nas.len() + octets_of(pair.mme_ue_id.get()) + octets_of(pair.enb_ue_id.get()) <= ROOM
}

/// The S1 SETUP REQUEST has a written form.
pub(crate) fn setup_is_writable(profile: &StationProfile)
    ensures { encoded (setup_pdu profile.now) ≢ None }
{
    encoded_exactly();
    site_is_in_range(*profile);
}

/// The PATH SWITCH REQUEST has a written form.
pub(crate) fn switch_is_writable(profile: &StationProfile, pair: &UeIdPair)
    ensures { encoded (switch_pdu profile.now pair.now) ≢ None }
{
    encoded_exactly();
    site_is_in_range(*profile);
    let _mme_ue_id = pair.mme_ue_id.get();
    let enb_ue_id = pair.enb_ue_id.get();
    let _teid = Octets::new((enb_ue_id as u32).to_be_bytes());
}

/// The UE CONTEXT RELEASE REQUEST has a written form.
pub(crate) fn release_is_writable(pair: &UeIdPair)
    ensures { encoded (release_pdu pair.now) ≢ None }
{
    encoded_exactly();
    let _mme_ue_id = pair.mme_ue_id.get();
    let _enb_ue_id = pair.enb_ue_id.get();
}
