//! S1 SETUP REQUEST.

ghost use Rattle.std.specs.Prelude.{◌≡◌, ◌≢◌, IfOk, Ok, Some};
ghost use Rattle.s1ap_pdus.specs.Pdus.{decoded, encoded, lists};
ghost use Rattle.enb_sim.specs.Sending.{setup_pdu};

use crate::profile::StationProfile;
use crate::writable::setup_is_writable;
use per_bits::Items;
use s1ap_elements::{EnbId, GlobalEnbId, PagingDrx, SupportedTa};
use s1ap_messages::{EncodeFault, Pdu, S1SetupRequest, S1apPdu, encode, what_is_encoded};
use std::alloc::{AllocError, Global};

// S1 SETUP REQUEST (TS 36.413 clause 9.1.8.4): without a name, one tracking area, a paging cycle of 128 frames.
#[tactic(auto, unfolding(crate::specs::Sending::setup_pdu))]
fn setup_request<'a>(alloc: Global, profile: &StationProfile) -> Result<S1apPdu<'a>, AllocError>
    ensures { IfOk result (λ m. lists m ≡ setup_pdu profile.now) }
{
    let area = SupportedTa {
        tac: profile.tac,
        plmns: Items::only(alloc, profile.plmn)?,
    };
    Ok(Pdu::S1SetupRequest(S1SetupRequest {
        station: GlobalEnbId {
            plmn: profile.plmn,
            id: EnbId::Macro(profile.macro_id),
        },
        name: None,
        supported_tas: Items::only(alloc, area)?,
        paging_drx: PagingDrx::Frames128,
    }))
}

// What is written of it is decoded as it.
fn is_read(profile: StationProfile, octets: &[u8])
    requires { encoded (setup_pdu profile) ≡ Some octets.now }
    ensures { decoded octets.now ≡ Ok (setup_pdu profile) }
{
    let _ = octets;
    let _ = profile;
    what_is_encoded();
}

/// The octets of S1 SETUP REQUEST, which are decoded as that (TS 36.413 clause 8.7.3).
pub(crate) fn setup(alloc: Global, profile: &StationProfile) -> Result<Vec<u8>, AllocError>
    ensures octets { IfOk result (λ o. encoded (setup_pdu profile.now) ≡ Some o.items) }
    ensures read { IfOk result (λ o. decoded o.items ≡ Ok (setup_pdu profile.now)) }
    ensures written { encoded (setup_pdu profile.now) ≢ None }
{
    setup_is_writable(profile);
    let message = setup_request(alloc, profile)?;
    match encode(alloc, &message) {
        Ok(octets) => {
            is_read(*profile, &octets);
            Ok(octets)
        }
        Err(EncodeFault::NoMemory) => Err(AllocError),
        Err(EncodeFault::NotWritable) => unreachable!(),
    }
}
