//! ESM messages to octets.

ghost use Rattle.std.specs.Prelude.{◌≡◌, ◌++◌, OnOk, IfErr, IfOk};
ghost use Rattle.nas_messages.specs.EsmMessages.{BodyFits, IsWritableEsm, body_lists, encoded_esm, esm_lists, typed_body, written_body};
ghost use Rattle.nas_messages.specs.declared.esm_types.EsmBody.TheVariants as bodies;

use crate::USUAL_ROOM;
use crate::esm_types::{ActivateRequest, EsmBody, EsmMessage};
use nas_elements::{
    Domain, NasFault, codes, identifier, put_element, put_fixed, put_label, put_octet,
};
use std::alloc::{AllocError, Global};

fn put_activate_request(out: &mut Vec<u8>, m: &ActivateRequest<&[u8]>) -> Result<(), AllocError>
    requires { BodyFits (typed_body (body_lists (bodies.ActivateRequest m.now))) }
    ensures { OnOk result (out.new.items ≡ out.old.items ++ written_body (body_lists (bodies.ActivateRequest m.now))) }
{
    put_fixed(out, &[0xc1, 1, 9])?;
    put_label(out, m.apn)?;
    put_fixed(out, &[5, 1])?;
    put_fixed(out, m.address)?;
    put_element(out, Domain::Esm, identifier::ESM_CAUSE, m.cause)
}

#[tactic(auto, unfolding(nas_elements::specs::Optionals::rule_of))]
fn put_connectivity_request(
    out: &mut Vec<u8>,
    request_type: u8,
    pdn_type: u8,
    information: bool,
) -> Result<(), AllocError>
    requires { BodyFits (typed_body (bodies.ConnectivityRequest request_type pdn_type information)) }
    ensures { OnOk result
        (out.new.items ≡ out.old.items ++ written_body (bodies.ConnectivityRequest request_type pdn_type information)) }
{
    put_fixed(out, &[0xd0, pdn_type * 16 + request_type])?;
    if information {
        put_octet(out, 0xd1)?;
    }
    Ok(())
}

fn put_body(out: &mut Vec<u8>, body: &EsmBody<&[u8]>) -> Result<(), AllocError>
    requires { BodyFits (typed_body (body_lists body.now)) }
    ensures { OnOk result (out.new.items ≡ out.old.items ++ written_body (body_lists body.now)) }
{
    match body {
        EsmBody::ActivateRequest(m) => put_activate_request(out, m),
        EsmBody::ActivateAccept => put_octet(out, 0xc2),
        EsmBody::ActivateReject { cause } => put_fixed(out, &[0xc3, *cause]),
        EsmBody::ConnectivityRequest {
            request_type,
            pdn_type,
            information,
        } => put_connectivity_request(out, *request_type, *pdn_type, *information),
        EsmBody::ConnectivityReject { cause } => put_fixed(out, &[0xd1, *cause]),
        EsmBody::DisconnectRequest { linked } => put_fixed(out, &[0xd2, *linked]),
        EsmBody::DisconnectReject { cause } => put_fixed(out, &[0xd3, *cause]),
        EsmBody::InformationRequest => put_octet(out, 0xd9),
        EsmBody::InformationResponse => put_octet(out, 0xda),
        EsmBody::EsmStatus { cause } => put_fixed(out, &[0xe8, *cause]),
    }
}

/// The one written form of a message, with the bearer and the transaction that it holds; spare bits 0. What was decoded may
/// be encoded. The one fault is NoMemory.
pub fn encode_esm(alloc: Global, message: &EsmMessage) -> Result<Vec<u8>, NasFault>
    requires { IsWritableEsm (esm_lists message.now) }
    ensures ok { IfOk result (λ octets. octets.items ≡ encoded_esm (esm_lists message.now)) }
    ensures memory { IfErr result (λ fault. fault ≡ NasFault.NoMemory) }
{
    let mut octets = Vec::with_capacity(alloc, USUAL_ROOM)?;
    put_octet(&mut octets, message.bearer * 16 + codes::ESM_DISCRIMINATOR)?;
    put_octet(&mut octets, message.transaction)?;
    put_body(&mut octets, &message.body)?;
    Ok(octets)
}
