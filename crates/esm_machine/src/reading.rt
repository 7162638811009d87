//! What octets of a phone ask for.

ghost use Rattle.std.specs.Prelude.{◌≡◌};
ghost use Rattle.nas_messages.specs.EsmMessages.{body_lists};
ghost use Rattle.esm_machine.specs.Reading.{asked, asked_in, is_accept, is_accept_in};

use nas_messages::{EsmBody, decode_esm};

/// What a PDN CONNECTIVITY REQUEST asks for.
#[derive(Clone, Copy)]
pub struct Connectivity {
    pub transaction: u8,
    /// The PDN type, three bits (TS 24.301 clause 9.9.4.10).
    pub pdn_type: u8,
    pub information: bool,
}

/// What octets ask for, where they are a PDN CONNECTIVITY REQUEST.
#[tactic(auto, unfolding(crate::specs::Reading::asked))]
pub fn asked(esm: &[u8]) -> Option<Connectivity>
    ensures { result ≡ asked esm.now }
{
    match decode_esm(esm) {
        Ok(message) => asked_in(message.transaction, message.body),
        Err(_) => None,
    }
}

fn asked_in(transaction: u8, body: EsmBody<&[u8]>) -> Option<Connectivity>
    ensures { result ≡ asked_in transaction (body_lists body.entry) }
{
    match body {
        EsmBody::ConnectivityRequest {
            pdn_type,
            information,
            ..
        } => Some(Connectivity {
            transaction,
            pdn_type,
            information,
        }),
        EsmBody::ActivateRequest(_)
        | EsmBody::ActivateAccept
        | EsmBody::ActivateReject { .. }
        | EsmBody::ConnectivityReject { .. }
        | EsmBody::DisconnectRequest { .. }
        | EsmBody::DisconnectReject { .. }
        | EsmBody::InformationRequest
        | EsmBody::InformationResponse
        | EsmBody::EsmStatus { .. } => None,
    }
}

/// Whether octets are an ACTIVATE DEFAULT EPS BEARER CONTEXT ACCEPT.
#[tactic(auto, unfolding(crate::specs::Reading::is_accept))]
pub fn is_accept(esm: &[u8]) -> bool
    ensures { result ≡ is_accept esm.now }
{
    match decode_esm(esm) {
        Ok(message) => is_accept_in(message.body),
        Err(_) => false,
    }
}

fn is_accept_in(body: EsmBody<&[u8]>) -> bool
    ensures { result ≡ is_accept_in (body_lists body.entry) }
{
    match body {
        EsmBody::ActivateAccept => true,
        EsmBody::ActivateRequest(_)
        | EsmBody::ActivateReject { .. }
        | EsmBody::ConnectivityRequest { .. }
        | EsmBody::ConnectivityReject { .. }
        | EsmBody::DisconnectRequest { .. }
        | EsmBody::DisconnectReject { .. }
        | EsmBody::InformationRequest
        | EsmBody::InformationResponse
        | EsmBody::EsmStatus { .. } => false,
    }
}
