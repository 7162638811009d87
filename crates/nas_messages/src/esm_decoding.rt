//! Octets to ESM messages.

ghost use Rattle.std.specs.Prelude.{◌≡◌, IfOk};
ghost use Rattle.nas_elements.specs.Parts.{read_parts};
ghost use Rattle.nas_elements.specs.Seen.{at};
ghost use Rattle.nas_messages.specs.Formats.{esm_parts_of};
ghost use Rattle.nas_messages.specs.EsmMessages.{IsWritableEsm, decoded_esm, esm_lists, esm_type_of, read_body, seen_body, seen_esm};
ghost use Rattle.nas_messages.specs.declared.esm_types.EsmType.TheVariants as types;

use crate::esm_types::{ActivateRequest, Esm, EsmBody, EsmMessage, EsmType};
use crate::simple::{cause_in, nothing_in};
use nas_elements::{
    Domain, NasFault, Optional, codes, constant_at, fixed_at, identifier, is_set, label_at,
    octet_at,
};

#[tactic(auto, unfolding(crate::specs::EsmMessages::read_body, nas_elements::specs::Rows::read_row))]
fn activate_request<'a>(octets: &'a [u8]) -> Result<EsmBody<&'a [u8]>, NasFault>
    ensures { seen_body result ≡ read_body types.ActivateRequest octets.entry.now }
{
    let Some(((apn, address), rest)) = activate_request_at(octets) else {
        return Err(NasFault::Mandatory);
    };
    let optional = Optional::read(Domain::Esm, rest)?;
    Ok(EsmBody::ActivateRequest(ActivateRequest {
        apn,
        address,
        cause: optional.find(identifier::ESM_CAUSE),
    }))
}

fn activate_request_at<'a>(octets: &'a [u8]) -> Option<((&'a [u8], &'a [u8]), &'a [u8])>
    ensures { at (λ m. (tt, (tt, (m.0.now, (tt, (tt, (m.1.now, tt)))))))
        result ≡ read_parts (esm_parts_of types.ActivateRequest) octets.entry.now }
{
    let Some((_, rest)) = constant_at(1, octets) else {
        return None;
    };
    let Some((_, rest)) = constant_at(9, rest) else {
        return None;
    };
    let Some((apn, rest)) = label_at(rest) else {
        return None;
    };
    let Some((_, rest)) = constant_at(5, rest) else {
        return None;
    };
    let Some((_, rest)) = constant_at(1, rest) else {
        return None;
    };
    let Some((address, rest)) = fixed_at(4, rest) else {
        return None;
    };
    Some(((apn, address), rest))
}

#[tactic(auto, unfolding(crate::specs::EsmMessages::read_body, nas_elements::specs::Rows::read_row))]
fn connectivity_request<'a>(octets: &'a [u8]) -> Result<EsmBody<&'a [u8]>, NasFault>
    ensures { seen_body result ≡ read_body types.ConnectivityRequest octets.entry.now }
{
    let Some((first, rest)) = octet_at(octets) else {
        return Err(NasFault::Mandatory);
    };
    let optional = Optional::read(Domain::Esm, rest)?;
    Ok(EsmBody::ConnectivityRequest {
        request_type: first % 16 % 8,
        pdn_type: first / 16 % 8,
        information: is_set(optional.find(identifier::ESM_INFORMATION_FLAG)),
    })
}

#[tactic(auto, unfolding(crate::specs::EsmMessages::read_body, nas_elements::specs::Rows::read_row))]
fn disconnect_request<'a>(octets: &'a [u8]) -> Result<EsmBody<&'a [u8]>, NasFault>
    ensures { seen_body result ≡ read_body types.DisconnectRequest octets.entry.now }
{
    let Some((first, rest)) = octet_at(octets) else {
        return Err(NasFault::Mandatory);
    };
    let _ = Optional::read(Domain::Esm, rest)?;
    Ok(EsmBody::DisconnectRequest { linked: first % 16 })
}

#[tactic(auto, unfolding(crate::specs::EsmMessages::read_body))]
fn activate_accept<'a>(octets: &'a [u8]) -> Result<EsmBody<&'a [u8]>, NasFault>
    ensures { seen_body result ≡ read_body types.ActivateAccept octets.entry.now }
{
    nothing_in(Domain::Esm, octets)?;
    Ok(EsmBody::ActivateAccept)
}

#[tactic(auto, unfolding(crate::specs::EsmMessages::read_body))]
fn activate_reject<'a>(octets: &'a [u8]) -> Result<EsmBody<&'a [u8]>, NasFault>
    ensures { seen_body result ≡ read_body types.ActivateReject octets.entry.now }
{
    let cause = cause_in(Domain::Esm, octets)?;
    Ok(EsmBody::ActivateReject { cause })
}

#[tactic(auto, unfolding(crate::specs::EsmMessages::read_body))]
fn connectivity_reject<'a>(octets: &'a [u8]) -> Result<EsmBody<&'a [u8]>, NasFault>
    ensures { seen_body result ≡ read_body types.ConnectivityReject octets.entry.now }
{
    let cause = cause_in(Domain::Esm, octets)?;
    Ok(EsmBody::ConnectivityReject { cause })
}

#[tactic(auto, unfolding(crate::specs::EsmMessages::read_body))]
fn disconnect_reject<'a>(octets: &'a [u8]) -> Result<EsmBody<&'a [u8]>, NasFault>
    ensures { seen_body result ≡ read_body types.DisconnectReject octets.entry.now }
{
    let cause = cause_in(Domain::Esm, octets)?;
    Ok(EsmBody::DisconnectReject { cause })
}

#[tactic(auto, unfolding(crate::specs::EsmMessages::read_body))]
fn information_request<'a>(octets: &'a [u8]) -> Result<EsmBody<&'a [u8]>, NasFault>
    ensures { seen_body result ≡ read_body types.InformationRequest octets.entry.now }
{
    nothing_in(Domain::Esm, octets)?;
    Ok(EsmBody::InformationRequest)
}

#[tactic(auto, unfolding(crate::specs::EsmMessages::read_body))]
fn information_response<'a>(octets: &'a [u8]) -> Result<EsmBody<&'a [u8]>, NasFault>
    ensures { seen_body result ≡ read_body types.InformationResponse octets.entry.now }
{
    nothing_in(Domain::Esm, octets)?;
    Ok(EsmBody::InformationResponse)
}

#[tactic(auto, unfolding(crate::specs::EsmMessages::read_body))]
fn esm_status<'a>(octets: &'a [u8]) -> Result<EsmBody<&'a [u8]>, NasFault>
    ensures { seen_body result ≡ read_body types.EsmStatus octets.entry.now }
{
    let cause = cause_in(Domain::Esm, octets)?;
    Ok(EsmBody::EsmStatus { cause })
}

#[tactic(auto, unfolding(crate::specs::EsmMessages::esm_type_of))]
fn esm_type_of(code: u8) -> Option<EsmType>
    ensures { result ≡ esm_type_of code }
{
    match code {
        0xc1 => Some(EsmType::ActivateRequest),
        0xc2 => Some(EsmType::ActivateAccept),
        0xc3 => Some(EsmType::ActivateReject),
        0xd0 => Some(EsmType::ConnectivityRequest),
        0xd1 => Some(EsmType::ConnectivityReject),
        0xd2 => Some(EsmType::DisconnectRequest),
        0xd3 => Some(EsmType::DisconnectReject),
        0xd9 => Some(EsmType::InformationRequest),
        0xda => Some(EsmType::InformationResponse),
        0xe8 => Some(EsmType::EsmStatus),
        _ => None,
    }
}

fn read_body<'a>(esm_type: EsmType, octets: &'a [u8]) -> Result<EsmBody<&'a [u8]>, NasFault>
    ensures { seen_body result ≡ read_body esm_type octets.entry.now }
{
    match esm_type {
        EsmType::ActivateRequest => activate_request(octets),
        EsmType::ActivateAccept => activate_accept(octets),
        EsmType::ActivateReject => activate_reject(octets),
        EsmType::ConnectivityRequest => connectivity_request(octets),
        EsmType::ConnectivityReject => connectivity_reject(octets),
        EsmType::DisconnectRequest => disconnect_request(octets),
        EsmType::DisconnectReject => disconnect_reject(octets),
        EsmType::InformationRequest => information_request(octets),
        EsmType::InformationResponse => information_response(octets),
        EsmType::EsmStatus => esm_status(octets),
    }
}

#[tactic(auto, unfolding(crate::specs::EsmMessages::decoded_esm))]
fn read_esm<'a>(octets: &'a [u8]) -> Result<EsmMessage<'a>, NasFault>
    ensures { seen_esm result ≡ decoded_esm octets.entry.now }
{
    if octets.len() < 3 {
        return Err(NasFault::TooShort);
    }
    if octets[0] % 16 != codes::ESM_DISCRIMINATOR {
        return Err(NasFault::UnknownType);
    }
    let Some(esm_type) = esm_type_of(octets[2]) else {
        return Err(NasFault::UnknownType);
    };
    let body = read_body(esm_type, &octets[3..])?;
    Ok(Esm {
        bearer: octets[0] / 16,
        transaction: octets[1],
        body,
    })
}

/// The ESM message that these octets are. Takes no memory.
///
/// Faults, the first that fits: TooShort below three octets; UnknownType where the low half of the first octet is not the
/// protocol discriminator 2 or the type is none of [`EsmBody`](crate::EsmBody); Mandatory; OptionalPart.
pub fn decode_esm<'a>(octets: &'a [u8]) -> Result<EsmMessage<'a>, NasFault>
    ensures decoded { seen_esm result ≡ decoded_esm octets.entry.now }
    ensures writable { IfOk result (λ m. IsWritableEsm (esm_lists m)) }
{
    read_esm(octets)
}
