//! The NAS messages that a phone sends, before they are protected.

ghost use Rattle.std.specs.Prelude.{◌≡◌, ◌<◌, ◌≤◌, IfOk, length, slice_index};
ghost use Rattle.nas_elements.specs.Identities.{IdentityFits, GutiFits};
ghost use Rattle.nas_messages.specs.EsmMessages.{IsWritableEsm, encoded_esm, esm_lists};
ghost use Rattle.nas_messages.specs.Messages.{IsWritable, encoded_emm, lists};
ghost use Rattle.nas_elements.specs.declared.identity.MobileIdentity.TheVariants as identities;
ghost use Rattle.sim_phone.specs.Messages.{attach_complete_octets, attach_octets, connectivity_octets, detach_accept_octets, detach_octets, failure_octets, foreign_guti, identity_octets_of, information_octets, mode_complete_octets, response_octets, update_complete_octets, update_octets};

use nas_elements::{Guti, Imsi, MobileIdentity, Plmn};
use nas_messages::{
    AttachRequest, DetachRequest, Emm, EmmMessage, Esm, EsmBody, EsmMessage, Lent,
    TrackingAreaUpdateRequest, encode_emm, encode_esm,
};
use std::alloc::{AllocError, Global};

/// The octets of a message, or that memory was refused.
pub(crate) type Encoded = Result<Vec<u8>, AllocError>;

// TS 24.301 clauses 9.9.3.11, 9.9.3.14 and 9.9.3.7: an EPS attach, a TA updating, an EPS detach.
const EPS_ATTACH: u8 = 1;

const TA_UPDATING: u8 = 0;

const EPS_DETACH: u8 = 1;

/// The key set identifier of a phone that has no keys (TS 24.301 clause 9.9.3.21).
pub(crate) const NO_KEY_SET: u8 = 7;

// EEA0, EEA1, EEA2; EIA1, EIA2 (TS 24.301 clause 9.9.3.34).
const CAPABILITY: [u8; 2] = [0xe0, 0x60];

// The default bearer, and the transaction that asks for it (TS 24.301 clauses 9.3.2 and 9.4).
const DEFAULT_BEARER: u8 = 5;

const CONNECTIVITY: u8 = 1;

// An initial request, for IPv4 (TS 24.301 clauses 9.9.4.14 and 9.9.4.10).
const INITIAL_REQUEST: u8 = 1;

const IPV4: u8 = 1;

// MAC failure (TS 24.301 clause 9.9.3.9).
const MAC_FAILURE: u8 = 20;

/// A GUTI that another network gave.
pub fn foreign_guti() -> Guti
    ensures value { result ≡ foreign_guti }
    ensures fits { GutiFits result }
{
    Guti {
        plmn: Plmn {
            octets: [0x02, 0xf8, 0x39],
        },
        group: [0, 1],
        code: 2,
        tmsi: 0x1234_5678,
    }
}

/// An IMSI as an identity.
pub fn permanent(imsi: Imsi) -> MobileIdentity
    ensures value { result ≡ identities.Imsi imsi }
    ensures fits { IdentityFits result }
{
    MobileIdentity::Imsi(imsi)
}

/// A GUTI as an identity.
pub fn temporary(guti: Guti) -> MobileIdentity
    ensures value { result ≡ identities.Temporary guti }
    ensures fits { IdentityFits result }
{
    MobileIdentity::Temporary(guti)
}

// The octets of a message. Encoding has one fault, that there is no memory.
fn encoded(alloc: Global, message: &Lent<EmmMessage>) -> Encoded
    requires { IsWritable (lists message.now.value) }
    ensures { IfOk result (λ o. o.items ≡ encoded_emm (lists message.now.value)) }
{
    encode_emm(alloc, &message.value).map_err(|_| AllocError)
}

fn encoded_session(alloc: Global, message: EsmMessage) -> Encoded
    requires { IsWritableEsm (esm_lists message) }
    ensures { IfOk result (λ o. o.items ≡ encoded_esm (esm_lists message.entry)) }
{
    encode_esm(alloc, &message).map_err(|_| AllocError)
}

// PDN CONNECTIVITY REQUEST (TS 24.301 clause 8.3.20).
#[tactic(auto, unfolding(nas_elements::specs::Optionals::rule_of))]
fn connectivity_request(alloc: Global, information: bool) -> Encoded
    ensures value { IfOk result (λ o. o.items ≡ connectivity_octets information) }
    ensures short { IfOk result (λ o. length o.items < 65536) }
{
    encoded_session(
        alloc,
        Esm {
            bearer: 0,
            transaction: CONNECTIVITY,
            body: EsmBody::ConnectivityRequest {
                request_type: INITIAL_REQUEST,
                pdn_type: IPV4,
                information,
            },
        },
    )
}

/// ATTACH REQUEST (TS 24.301 clause 8.2.4).
#[tactic(auto, unfolding(crate::specs::Messages::attach_octets))]
pub(crate) fn attach_request(alloc: Global, identity: MobileIdentity, information: bool) -> Encoded
    requires { IdentityFits identity }
    ensures { IfOk result (λ o. o.items ≡ attach_octets identity information) }
{
    let esm = connectivity_request(alloc, information)?;
    encoded(
        alloc,
        &Lent {
            value: Emm::AttachRequest(AttachRequest {
                attach_type: EPS_ATTACH,
                ksi: NO_KEY_SET,
                identity,
                capability: CAPABILITY.as_slice(),
                esm: esm.as_slice(),
            }),
        },
    )
}

/// SERVICE REQUEST, its four octets (TS 24.301 clause 8.2.25).
pub(crate) fn service_octets(alloc: Global, octets: [u8; 4]) -> Encoded
    requires { slice_index octets 0 ≡ 0xc7 }
    ensures { IfOk result (λ o. o.items ≡ octets) }
{
    encoded(
        alloc,
        &Lent {
            value: Emm::ServiceRequest { octets },
        },
    )
}

/// TRACKING AREA UPDATE REQUEST under a key set identifier below 8 (TS 24.301 clause 8.2.29).
#[tactic(auto, unfolding(crate::specs::Messages::update_octets))]
pub(crate) fn area_update_request(alloc: Global, ksi: u8, guti: Guti) -> Encoded
    requires { ksi < 8 }
    ensures { IfOk result (λ o. o.items ≡ update_octets ksi guti) }
{
    encoded(
        alloc,
        &Lent {
            value: Emm::TrackingAreaUpdateRequest(TrackingAreaUpdateRequest {
                update_type: TA_UPDATING,
                active: false,
                ksi,
                guti,
            }),
        },
    )
}

/// DETACH REQUEST under a key set identifier below 8 (TS 24.301 clause 8.2.11.1).
#[tactic(auto, unfolding(crate::specs::Messages::detach_octets))]
pub(crate) fn detach_request(
    alloc: Global,
    identity: MobileIdentity,
    switch_off: bool,
    ksi: u8,
) -> Encoded
    requires identity { IdentityFits identity }
    requires ksi { ksi < 8 }
    ensures { IfOk result (λ o. o.items ≡ detach_octets identity switch_off ksi) }
{
    encoded(
        alloc,
        &Lent {
            value: Emm::DetachRequest(DetachRequest {
                detach_type: EPS_DETACH,
                switch_off,
                ksi,
                identity,
            }),
        },
    )
}

/// IDENTITY RESPONSE (TS 24.301 clause 8.2.19).
#[tactic(auto, unfolding(crate::specs::Messages::identity_octets_of))]
pub(crate) fn identity_response(alloc: Global, identity: MobileIdentity) -> Encoded
    requires { IdentityFits identity }
    ensures { IfOk result (λ o. o.items ≡ identity_octets_of identity) }
{
    encoded(
        alloc,
        &Lent {
            value: Emm::IdentityResponse { identity },
        },
    )
}

/// AUTHENTICATION RESPONSE with 4 to 16 octets (TS 24.301 clause 8.2.8).
#[tactic(auto, unfolding(crate::specs::Messages::response_octets))]
pub(crate) fn authentication_response(alloc: Global, res: &[u8]) -> Encoded
    requires low { 4 ≤ length res.now }
    requires high { length res.now ≤ 16 }
    ensures { IfOk result (λ o. o.items ≡ response_octets res.now) }
{
    encoded(
        alloc,
        &Lent {
            value: Emm::AuthenticationResponse { res },
        },
    )
}

/// AUTHENTICATION FAILURE, MAC failure (TS 24.301 clause 8.2.5).
#[tactic(auto, unfolding(crate::specs::Messages::failure_octets))]
pub(crate) fn authentication_failure(alloc: Global) -> Encoded
    ensures { IfOk result (λ o. o.items ≡ failure_octets) }
{
    encoded(
        alloc,
        &Lent {
            value: Emm::AuthenticationFailure { cause: MAC_FAILURE },
        },
    )
}

/// SECURITY MODE COMPLETE (TS 24.301 clause 8.2.21).
#[tactic(auto, unfolding(crate::specs::Messages::mode_complete_octets))]
pub(crate) fn security_mode_complete(alloc: Global) -> Encoded
    ensures { IfOk result (λ o. o.items ≡ mode_complete_octets) }
{
    encoded(
        alloc,
        &Lent {
            value: Emm::SecurityModeComplete,
        },
    )
}

/// ATTACH COMPLETE for the default bearer (TS 24.301 clause 8.2.2).
#[tactic(auto, unfolding(crate::specs::Messages::attach_complete_octets))]
pub(crate) fn attach_complete(alloc: Global) -> Encoded
    ensures { IfOk result (λ o. o.items ≡ attach_complete_octets) }
{
    let accept = Esm {
        bearer: DEFAULT_BEARER,
        transaction: 0,
        body: EsmBody::ActivateAccept,
    };
    let esm = encoded_session(alloc, accept)?;
    encoded(
        alloc,
        &Lent {
            value: Emm::AttachComplete {
                esm: esm.as_slice(),
            },
        },
    )
}

/// TRACKING AREA UPDATE COMPLETE (TS 24.301 clause 8.2.27).
#[tactic(auto, unfolding(crate::specs::Messages::update_complete_octets))]
pub(crate) fn area_update_complete(alloc: Global) -> Encoded
    ensures { IfOk result (λ o. o.items ≡ update_complete_octets) }
{
    encoded(
        alloc,
        &Lent {
            value: Emm::TrackingAreaUpdateComplete,
        },
    )
}

/// DETACH ACCEPT (TS 24.301 clause 8.2.10).
#[tactic(auto, unfolding(crate::specs::Messages::detach_accept_octets))]
pub(crate) fn detach_accept(alloc: Global) -> Encoded
    ensures { IfOk result (λ o. o.items ≡ detach_accept_octets) }
{
    encoded(
        alloc,
        &Lent {
            value: Emm::DetachAccept,
        },
    )
}

/// ESM INFORMATION RESPONSE to a request of this transaction (TS 24.301 clause 8.3.14).
#[tactic(auto, unfolding(crate::specs::Messages::information_octets))]
pub(crate) fn information_response(alloc: Global, transaction: u8) -> Encoded
    ensures { IfOk result (λ o. o.items ≡ information_octets transaction) }
{
    encoded_session(
        alloc,
        Esm {
            bearer: 0,
            transaction,
            body: EsmBody::InformationResponse,
        },
    )
}
