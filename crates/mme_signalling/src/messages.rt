//! The NAS messages that the machine sends.

ghost use Rattle.std.specs.Prelude.{◌≡◌, ◌<◌, ◌^◌, length, IfOk, IfSome, Some, None};
ghost use Rattle.nas_elements.specs.Identities.{TaiListFits};
ghost use Rattle.nas_elements.specs.Seen.{octets_of};
ghost use Rattle.nas_messages.specs.Messages.{IsWritable, encoded_emm, lists};
ghost use Rattle.mme_signalling.specs.Messages.{attach_accept, attach_reject, authentication_reject, authentication_request, detach_accept, emm_status, guti, identity_request, network_detach, security_mode_command, service_reject, tai_list, update_accept, update_reject};

use crate::cause::EmmCause;
use identity_slots::Tmsi;
use mme_types::Network;
use mme_types::s1ap::elements::Tai;
use nas_elements::{Guti, Plmn, TaiList, UeCapability};
use nas_messages::{
    AttachAccept, AttachReject, AuthenticationRequest, Emm, EmmMessage, Lent, SecurityModeCommand,
    TrackingAreaUpdateAccept, encode_emm, timers,
};
use std::alloc::{AllocError, Global};

/// What a phone is granted: its M-TMSI in its tracking area; the cause of a combined request, which is granted for EPS
/// services only.
#[derive(Clone, Copy)]
pub struct Grant {
    pub tmsi: Tmsi,
    pub tai: Tai,
    pub combined: bool,
}

// T3412, as an element has it.
const PERIODIC_UPDATE: [u8; 1] = [timers::T3412_OCTET];

// The GUTI of an M-TMSI (TS 23.003 clause 2.8).
fn guti(network: &Network, tmsi: Tmsi) -> Guti
    ensures { result ≡ guti network.now tmsi }
{
    let [code] = network.code.get();
    Guti {
        plmn: Plmn::from_s1ap(network.plmn.get()),
        group: network.group.get(),
        code,
        tmsi: tmsi.get(),
    }
}

// The one tracking area that a phone is registered in.
fn tai_list(tai: Tai) -> TaiList
    ensures { result ≡ tai_list tai }
{
    TaiList {
        plmn: Plmn::from_s1ap(tai.plmn.get()),
        tac: tai.tac.get(),
    }
}

// The octets of a message. Encoding has one fault, that there is no memory.
fn encoded(alloc: Global, message: &Lent<EmmMessage>) -> Result<Vec<u8>, AllocError>
    requires { IsWritable (lists message.now.value) }
    ensures { IfOk result (λ o. o.items ≡ encoded_emm (lists message.now.value)) }
{
    encode_emm(alloc, &message.value).map_err(|_| AllocError)
}

/// ATTACH REJECT without an ESM message (TS 24.301 clause 8.2.3).
#[tactic(auto, unfolding(crate::specs::Messages::attach_reject, nas_elements::specs::Optionals::rule_of))]
pub fn attach_reject(alloc: Global, cause: EmmCause) -> Result<Vec<u8>, AllocError>
    ensures { IfOk result (λ o. o.items ≡ attach_reject cause None) }
{
    let cause = cause.code();
    encoded(
        alloc,
        &Lent {
            value: Emm::AttachReject(AttachReject { cause, esm: None }),
        },
    )
}

/// ATTACH REJECT with an ESM message of fewer than 2^16 octets (TS 24.301 clause 8.2.3).
#[tactic(auto, unfolding(crate::specs::Messages::attach_reject, nas_elements::specs::Optionals::rule_of))]
pub fn attach_reject_with(alloc: Global, cause: EmmCause, esm: &[u8]) -> Result<Vec<u8>, AllocError>
    requires { length esm.now < 2 ^ 16 }
    ensures { IfOk result (λ o. o.items ≡ attach_reject cause (Some esm.now)) }
{
    let cause = cause.code();
    encoded(
        alloc,
        &Lent {
            value: Emm::AttachReject(AttachReject {
                cause,
                esm: Some(esm),
            }),
        },
    )
}

/// AUTHENTICATION REQUEST under a key set identifier below 8 (TS 24.301 clause 8.2.7).
#[tactic(auto, unfolding(crate::specs::Messages::authentication_request))]
pub fn authentication_request(
    alloc: Global,
    ksi: u8,
    rand: [u8; 16],
    autn: [u8; 16],
) -> Result<Vec<u8>, AllocError>
    requires { ksi < 8 }
    ensures { IfOk result (λ o. o.items ≡ authentication_request ksi rand autn) }
{
    encoded(
        alloc,
        &Lent {
            value: Emm::AuthenticationRequest(AuthenticationRequest {
                ksi,
                rand: rand.as_slice(),
                autn: autn.as_slice(),
            }),
        },
    )
}

/// AUTHENTICATION REJECT (TS 24.301 clause 8.2.6).
#[tactic(auto, unfolding(crate::specs::Messages::authentication_reject))]
pub fn authentication_reject(alloc: Global) -> Result<Vec<u8>, AllocError>
    ensures { IfOk result (λ o. o.items ≡ authentication_reject) }
{
    encoded(
        alloc,
        &Lent {
            value: Emm::AuthenticationReject,
        },
    )
}

/// IDENTITY REQUEST for the IMSI (TS 24.301 clause 8.2.18).
#[tactic(auto, unfolding(crate::specs::Messages::identity_request))]
pub fn identity_request(alloc: Global) -> Result<Vec<u8>, AllocError>
    ensures { IfOk result (λ o. o.items ≡ identity_request) }
{
    encoded(
        alloc,
        &Lent {
            value: Emm::IdentityRequest,
        },
    )
}

/// SECURITY MODE COMMAND for EEA0 and EIA2 under a key set identifier below 8, with the capability that the phone told
/// (TS 24.301 clause 8.2.20).
#[tactic(auto, unfolding(crate::specs::Messages::security_mode_command))]
pub fn security_mode_command(
    alloc: Global,
    ksi: u8,
    capability: &UeCapability,
) -> Result<Vec<u8>, AllocError>
    requires { ksi < 8 }
    ensures { IfOk result (λ o. o.items ≡ security_mode_command ksi capability.now) }
{
    let replayed = capability.replayed();
    encoded(
        alloc,
        &Lent {
            value: Emm::SecurityModeCommand(SecurityModeCommand {
                ksi,
                capability: replayed.as_slice(),
            }),
        },
    )
}

/// ATTACH ACCEPT with an ESM message of fewer than 2^16 octets (TS 24.301 clause 8.2.1).
#[tactic(auto, unfolding(crate::specs::Messages::attach_accept, nas_elements::specs::Optionals::rule_of, nas_elements::specs::Identities::guti_octets))]
pub fn attach_accept(
    alloc: Global,
    network: &Network,
    grant: Grant,
    esm: &[u8],
) -> Result<Vec<u8>, AllocError>
    requires { length esm.now < 2 ^ 16 }
    ensures { IfOk result (λ o. o.items ≡ attach_accept network.now grant esm.now) }
{
    let guti_octets = guti(network, grant.tmsi).octets();
    let areas = tai_list(grant.tai);
    let guti = guti_octets.as_slice();
    let not_available = [EmmCause::CsDomainNotAvailable.code()];
    if grant.combined {
        accept_octets(alloc, areas, esm, guti, Some(not_available.as_slice()))
    } else {
        accept_octets(alloc, areas, esm, guti, None)
    }
}

#[tactic(auto, unfolding(nas_elements::specs::Optionals::rule_of))]
fn accept_octets<'a>(
    alloc: Global,
    tai_list: TaiList,
    esm: &'a [u8],
    guti: &'a [u8],
    cause: Option<&'a [u8]>,
) -> Result<Vec<u8>, AllocError>
    requires area { TaiListFits tai_list }
    requires esm { length esm.now < 2 ^ 16 }
    requires guti { length guti.now ≡ 11 }
    requires cause { IfSome cause (λ c. length c.now ≡ 1) }
    ensures { IfOk result
        (λ o. o.items ≡ encoded_emm
        (Emm.AttachAccept (record {
          tai_list = tai_list;
          esm = esm.entry.now;
          guti = Some guti.entry.now;
          cause =
              octets_of cause.entry;
        }))) }
{
    encoded(
        alloc,
        &Lent {
            value: Emm::AttachAccept(AttachAccept {
                tai_list,
                esm,
                guti: Some(guti),
                cause,
            }),
        },
    )
}

/// TRACKING AREA UPDATE ACCEPT (TS 24.301 clause 8.2.26).
#[tactic(auto, unfolding(crate::specs::Messages::update_accept, nas_elements::specs::Optionals::rule_of, nas_elements::specs::Identities::guti_octets, nas_elements::specs::Identities::tai_list_octets))]
pub fn update_accept(alloc: Global, network: &Network, grant: Grant) -> Result<Vec<u8>, AllocError>
    ensures { IfOk result (λ o. o.items ≡ update_accept network.now grant) }
{
    let guti_octets = guti(network, grant.tmsi).octets();
    let areas = tai_list(grant.tai).octets();
    let (guti, areas) = (guti_octets.as_slice(), areas.as_slice());
    let timer = PERIODIC_UPDATE.as_slice();
    let not_available = [EmmCause::CsDomainNotAvailable.code()];
    if grant.combined {
        update_octets(alloc, timer, guti, areas, Some(not_available.as_slice()))
    } else {
        update_octets(alloc, timer, guti, areas, None)
    }
}

#[tactic(auto, unfolding(nas_elements::specs::Optionals::rule_of))]
fn update_octets<'a>(
    alloc: Global,
    timer: &'a [u8],
    guti: &'a [u8],
    areas: &'a [u8],
    cause: Option<&'a [u8]>,
) -> Result<Vec<u8>, AllocError>
    requires timer { length timer.now ≡ 1 }
    requires guti { length guti.now ≡ 11 }
    requires areas { length areas.now ≡ 6 }
    requires cause { IfSome cause (λ c. length c.now ≡ 1) }
    ensures { IfOk result
        (λ o. o.items ≡ encoded_emm
        (Emm.TrackingAreaUpdateAccept
        (record {
          timer = Some timer.entry.now;
          guti = Some guti.entry.now;
          tai_list = Some areas.entry.now;
          cause =
              octets_of cause.entry;
        }))) }
{
    encoded(
        alloc,
        &Lent {
            value: Emm::TrackingAreaUpdateAccept(TrackingAreaUpdateAccept {
                timer: Some(timer),
                guti: Some(guti),
                tai_list: Some(areas),
                cause,
            }),
        },
    )
}

/// TRACKING AREA UPDATE REJECT (TS 24.301 clause 8.2.28).
#[tactic(auto, unfolding(crate::specs::Messages::update_reject))]
pub fn update_reject(alloc: Global, cause: EmmCause) -> Result<Vec<u8>, AllocError>
    ensures { IfOk result (λ o. o.items ≡ update_reject cause) }
{
    let cause = cause.code();
    encoded(
        alloc,
        &Lent {
            value: Emm::TrackingAreaUpdateReject { cause },
        },
    )
}

/// SERVICE REJECT (TS 24.301 clause 8.2.24).
#[tactic(auto, unfolding(crate::specs::Messages::service_reject))]
pub fn service_reject(alloc: Global, cause: EmmCause) -> Result<Vec<u8>, AllocError>
    ensures { IfOk result (λ o. o.items ≡ service_reject cause) }
{
    let cause = cause.code();
    encoded(
        alloc,
        &Lent {
            value: Emm::ServiceReject { cause },
        },
    )
}

/// DETACH ACCEPT (TS 24.301 clause 8.2.10).
#[tactic(auto, unfolding(crate::specs::Messages::detach_accept))]
pub fn detach_accept(alloc: Global) -> Result<Vec<u8>, AllocError>
    ensures { IfOk result (λ o. o.items ≡ detach_accept) }
{
    encoded(
        alloc,
        &Lent {
            value: Emm::DetachAccept,
        },
    )
}

/// DETACH REQUEST of the network, re-attach not required (TS 24.301 clause 8.2.11.2).
#[tactic(auto, unfolding(crate::specs::Messages::network_detach))]
pub fn network_detach(alloc: Global) -> Result<Vec<u8>, AllocError>
    ensures { IfOk result (λ o. o.items ≡ network_detach) }
{
    encoded(
        alloc,
        &Lent {
            value: Emm::NetworkDetach,
        },
    )
}

/// EMM STATUS (TS 24.301 clause 8.2.14).
#[tactic(auto, unfolding(crate::specs::Messages::emm_status))]
pub fn emm_status(alloc: Global, cause: EmmCause) -> Result<Vec<u8>, AllocError>
    ensures { IfOk result (λ o. o.items ≡ emm_status cause) }
{
    let cause = cause.code();
    encoded(
        alloc,
        &Lent {
            value: Emm::EmmStatus { cause },
        },
    )
}
