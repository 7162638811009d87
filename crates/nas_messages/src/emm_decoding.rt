//! Octets to EMM messages.

ghost use Rattle.std.specs.Prelude.{◌≡◌, IfOk, Ok, Option, Result, option_map};
ghost use Rattle.nas_elements.specs.Faults.{◌>>>◌, mandatory_part};
ghost use Rattle.nas_elements.specs.Parts.{read_parts};
ghost use Rattle.nas_elements.specs.Seen.{at};
ghost use Rattle.nas_messages.specs.Formats.{parts_of};
ghost use Rattle.nas_messages.specs.Messages.{IsWritable, decoded_emm, detach_of, lists, read_typed, seen, type_of};
ghost use Rattle.nas_messages.specs.declared.emm_types.EmmType.TheVariants as types;

use crate::emm_types::{
    AttachAccept, AttachReject, AttachRequest, AuthenticationRequest, DetachRequest, Direction,
    EmmMessage, EmmType, SecurityModeCommand, TrackingAreaUpdateAccept, TrackingAreaUpdateRequest,
};
use crate::simple::{cause_in, nothing_in, three_at, three_in};
use nas_elements::{
    Domain, NasFault, Optional, TaiList, bounded_at, codes, constant_at, fixed_at, guti_at,
    identifier, identity_at, long_at, octet_at, tai_list_at, timers,
};

#[tactic(auto, unfolding(crate::specs::Messages::read_typed, nas_elements::specs::Rows::read_row))]
fn attach_request<'a>(octets: &'a [u8]) -> Result<EmmMessage<'a>, NasFault>
    ensures { seen result ≡ read_typed types.AttachRequest octets.entry.now }
{
    let Some((message, rest)) = attach_request_at(octets) else {
        return Err(NasFault::Mandatory);
    };
    let _ = Optional::read(Domain::Emm, rest)?;
    Ok(EmmMessage::AttachRequest(message))
}

fn attach_request_at<'a>(octets: &'a [u8]) -> Option<(AttachRequest<&'a [u8]>, &'a [u8])>
    ensures { at (λ m. ((m.attach_type, m.ksi), (m.identity, (m.capability.now, (m.esm.now, tt)))))
        result ≡ read_parts (parts_of types.AttachRequest) octets.entry.now }
{
    let Some((first, rest)) = octet_at(octets) else {
        return None;
    };
    let Some((identity, rest)) = identity_at(rest) else {
        return None;
    };
    let (capability, rest) = bounded_at(2, 13, rest)?;
    let Some((esm, rest)) = long_at(rest) else {
        return None;
    };
    let message = AttachRequest {
        attach_type: first % 16 % 8,
        ksi: first / 16 % 8,
        identity,
        capability,
        esm,
    };
    Some((message, rest))
}

#[tactic(auto, unfolding(crate::specs::Messages::read_typed, nas_elements::specs::Rows::read_row))]
fn attach_accept<'a>(octets: &'a [u8]) -> Result<EmmMessage<'a>, NasFault>
    ensures { seen result ≡ read_typed types.AttachAccept octets.entry.now }
{
    let Some(((tai_list, esm), rest)) = attach_accept_at(octets) else {
        return Err(NasFault::Mandatory);
    };
    let optional = Optional::read(Domain::Emm, rest)?;
    let message = AttachAccept {
        tai_list,
        esm,
        guti: optional.find(identifier::GUTI),
        cause: optional.find(identifier::EMM_CAUSE),
    };
    Ok(EmmMessage::AttachAccept(message))
}

fn attach_accept_at<'a>(octets: &'a [u8]) -> Option<((TaiList, &'a [u8]), &'a [u8])>
    ensures { at (λ m. ((tt, tt), (tt, (m.0, (m.1.now, tt)))))
        result ≡ read_parts (parts_of types.AttachAccept) octets.entry.now }
{
    let Some((first, rest)) = octet_at(octets) else {
        return None;
    };
    if first % 16 % 8 != 1 {
        return None;
    }
    let Some((_, rest)) = constant_at(timers::T3412_OCTET, rest) else {
        return None;
    };
    let Some((tai_list, rest)) = tai_list_at(rest) else {
        return None;
    };
    let Some((esm, rest)) = long_at(rest) else {
        return None;
    };
    Some(((tai_list, esm), rest))
}

#[tactic(auto, unfolding(crate::specs::Messages::read_typed, nas_elements::specs::Rows::read_row))]
fn attach_complete<'a>(octets: &'a [u8]) -> Result<EmmMessage<'a>, NasFault>
    ensures { seen result ≡ read_typed types.AttachComplete octets.entry.now }
{
    let Some((esm, rest)) = long_at(octets) else {
        return Err(NasFault::Mandatory);
    };
    let _ = Optional::read(Domain::Emm, rest)?;
    Ok(EmmMessage::AttachComplete { esm })
}

#[tactic(auto, unfolding(crate::specs::Messages::read_typed, nas_elements::specs::Rows::read_row))]
fn attach_reject<'a>(octets: &'a [u8]) -> Result<EmmMessage<'a>, NasFault>
    ensures { seen result ≡ read_typed types.AttachReject octets.entry.now }
{
    let Some((cause, rest)) = octet_at(octets) else {
        return Err(NasFault::Mandatory);
    };
    let optional = Optional::read(Domain::Emm, rest)?;
    Ok(EmmMessage::AttachReject(AttachReject {
        cause,
        esm: optional.find(identifier::ESM_MESSAGE_CONTAINER),
    }))
}

#[tactic(auto, unfolding(crate::specs::Messages::read_typed, nas_elements::specs::Rows::read_row))]
fn detach_request<'a>(octets: &'a [u8]) -> Result<EmmMessage<'a>, NasFault>
    ensures { seen result ≡ read_typed types.DetachRequest octets.entry.now }
{
    let Some((message, rest)) = detach_request_at(octets) else {
        return Err(NasFault::Mandatory);
    };
    let _ = Optional::read(Domain::Emm, rest)?;
    Ok(EmmMessage::DetachRequest(message))
}

fn detach_request_at(octets: &[u8]) -> Option<(DetachRequest, &[u8])>
    ensures { at (λ m. (((m.detach_type, m.switch_off), m.ksi), (m.identity, tt)))
        result ≡ read_parts (parts_of types.DetachRequest) octets.now }
{
    let Some((first, rest)) = octet_at(octets) else {
        return None;
    };
    let Some((identity, rest)) = identity_at(rest) else {
        return None;
    };
    let message = DetachRequest {
        detach_type: first % 16 % 8,
        switch_off: 8 <= first % 16,
        ksi: first / 16 % 8,
        identity,
    };
    Some((message, rest))
}

#[tactic(auto, unfolding(crate::specs::Messages::read_typed))]
fn network_detach<'a>(octets: &'a [u8]) -> Result<EmmMessage<'a>, NasFault>
    ensures { seen result ≡ read_typed types.NetworkDetach octets.entry.now }
{
    three_in(2, octets)?;
    Ok(EmmMessage::NetworkDetach)
}

#[tactic(auto, unfolding(crate::specs::Messages::read_typed, nas_elements::specs::Rows::read_row))]
fn area_update_request<'a>(octets: &'a [u8]) -> Result<EmmMessage<'a>, NasFault>
    ensures { seen result ≡ read_typed types.TrackingAreaUpdateRequest octets.entry.now }
{
    let Some((message, rest)) = area_update_request_at(octets) else {
        return Err(NasFault::Mandatory);
    };
    let _ = Optional::read(Domain::Emm, rest)?;
    Ok(EmmMessage::TrackingAreaUpdateRequest(message))
}

fn area_update_request_at(octets: &[u8]) -> Option<(TrackingAreaUpdateRequest, &[u8])>
    ensures { at (λ m. (((m.update_type, m.active), m.ksi), (m.guti, tt)))
        result ≡ read_parts (parts_of types.TrackingAreaUpdateRequest) octets.now }
{
    let Some((first, rest)) = octet_at(octets) else {
        return None;
    };
    let Some((guti, rest)) = guti_at(rest) else {
        return None;
    };
    let message = TrackingAreaUpdateRequest {
        update_type: first % 16 % 8,
        active: 8 <= first % 16,
        ksi: first / 16 % 8,
        guti,
    };
    Some((message, rest))
}

#[tactic(auto, unfolding(crate::specs::Messages::read_typed, nas_elements::specs::Rows::read_row))]
fn area_update_accept<'a>(octets: &'a [u8]) -> Result<EmmMessage<'a>, NasFault>
    ensures { seen result ≡ read_typed types.TrackingAreaUpdateAccept octets.entry.now }
{
    let Some((_, rest)) = three_at(0, octets) else {
        return Err(NasFault::Mandatory);
    };
    let optional = Optional::read(Domain::Emm, rest)?;
    let message = TrackingAreaUpdateAccept {
        timer: optional.find(identifier::T3412_VALUE),
        guti: optional.find(identifier::GUTI),
        tai_list: optional.find(identifier::TAI_LIST),
        cause: optional.find(identifier::EMM_CAUSE),
    };
    Ok(EmmMessage::TrackingAreaUpdateAccept(message))
}

#[tactic(auto, unfolding(crate::specs::Messages::read_typed, nas_elements::specs::Rows::read_row))]
fn authentication_request<'a>(octets: &'a [u8]) -> Result<EmmMessage<'a>, NasFault>
    ensures { seen result ≡ read_typed types.AuthenticationRequest octets.entry.now }
{
    let Some((message, rest)) = authentication_request_at(octets) else {
        return Err(NasFault::Mandatory);
    };
    let _ = Optional::read(Domain::Emm, rest)?;
    Ok(EmmMessage::AuthenticationRequest(message))
}

fn authentication_request_at<'a>(
    octets: &'a [u8],
) -> Option<(AuthenticationRequest<&'a [u8]>, &'a [u8])>
    ensures { at (λ m. ((m.ksi, tt), (m.rand.now, (m.autn.now, tt))))
        result ≡ read_parts (parts_of types.AuthenticationRequest) octets.entry.now }
{
    let Some((first, rest)) = octet_at(octets) else {
        return None;
    };
    let Some((rand, rest)) = fixed_at(16, rest) else {
        return None;
    };
    let Some((autn, rest)) = bounded_at(16, 16, rest) else {
        return None;
    };
    let message = AuthenticationRequest {
        ksi: first % 16 % 8,
        rand,
        autn,
    };
    Some((message, rest))
}

#[tactic(auto, unfolding(crate::specs::Messages::read_typed, nas_elements::specs::Rows::read_row))]
fn authentication_response<'a>(octets: &'a [u8]) -> Result<EmmMessage<'a>, NasFault>
    ensures { seen result ≡ read_typed types.AuthenticationResponse octets.entry.now }
{
    let Some((res, rest)) = bounded_at(4, 16, octets) else {
        return Err(NasFault::Mandatory);
    };
    let _ = Optional::read(Domain::Emm, rest)?;
    Ok(EmmMessage::AuthenticationResponse { res })
}

#[tactic(auto, unfolding(crate::specs::Messages::read_typed))]
fn identity_request<'a>(octets: &'a [u8]) -> Result<EmmMessage<'a>, NasFault>
    ensures { seen result ≡ read_typed types.IdentityRequest octets.entry.now }
{
    three_in(1, octets)?;
    Ok(EmmMessage::IdentityRequest)
}

#[tactic(auto, unfolding(crate::specs::Messages::read_typed, nas_elements::specs::Rows::read_row))]
fn identity_response<'a>(octets: &'a [u8]) -> Result<EmmMessage<'a>, NasFault>
    ensures { seen result ≡ read_typed types.IdentityResponse octets.entry.now }
{
    let Some((identity, rest)) = identity_at(octets) else {
        return Err(NasFault::Mandatory);
    };
    let _ = Optional::read(Domain::Emm, rest)?;
    Ok(EmmMessage::IdentityResponse { identity })
}

#[tactic(auto, unfolding(crate::specs::Messages::read_typed, nas_elements::specs::Rows::read_row))]
fn security_mode_command<'a>(octets: &'a [u8]) -> Result<EmmMessage<'a>, NasFault>
    ensures { seen result ≡ read_typed types.SecurityModeCommand octets.entry.now }
{
    let Some((message, rest)) = security_mode_command_at(octets) else {
        return Err(NasFault::Mandatory);
    };
    let _ = Optional::read(Domain::Emm, rest)?;
    Ok(EmmMessage::SecurityModeCommand(message))
}

fn security_mode_command_at<'a>(
    octets: &'a [u8],
) -> Option<(SecurityModeCommand<&'a [u8]>, &'a [u8])>
    ensures { at (λ m. (tt, ((m.ksi, tt), (m.capability.now, tt))))
        result ≡ read_parts (parts_of types.SecurityModeCommand) octets.entry.now }
{
    let Some((_, rest)) = constant_at(2, octets) else {
        return None;
    };
    let Some((first, rest)) = octet_at(rest) else {
        return None;
    };
    let Some((replayed, rest)) = bounded_at(2, 13, rest) else {
        return None;
    };
    let message = SecurityModeCommand {
        ksi: first % 16 % 8,
        capability: replayed,
    };
    Some((message, rest))
}

#[tactic(auto, unfolding(crate::specs::Messages::read_typed))]
fn detach_accept<'a>(octets: &'a [u8]) -> Result<EmmMessage<'a>, NasFault>
    ensures { seen result ≡ read_typed types.DetachAccept octets.entry.now }
{
    nothing_in(Domain::Emm, octets)?;
    Ok(EmmMessage::DetachAccept)
}

#[tactic(auto, unfolding(crate::specs::Messages::read_typed))]
fn area_update_complete<'a>(octets: &'a [u8]) -> Result<EmmMessage<'a>, NasFault>
    ensures { seen result ≡ read_typed types.TrackingAreaUpdateComplete octets.entry.now }
{
    nothing_in(Domain::Emm, octets)?;
    Ok(EmmMessage::TrackingAreaUpdateComplete)
}

#[tactic(auto, unfolding(crate::specs::Messages::read_typed))]
fn area_update_reject<'a>(octets: &'a [u8]) -> Result<EmmMessage<'a>, NasFault>
    ensures { seen result ≡ read_typed types.TrackingAreaUpdateReject octets.entry.now }
{
    let cause = cause_in(Domain::Emm, octets)?;
    Ok(EmmMessage::TrackingAreaUpdateReject { cause })
}

#[tactic(auto, unfolding(crate::specs::Messages::read_typed))]
fn service_reject<'a>(octets: &'a [u8]) -> Result<EmmMessage<'a>, NasFault>
    ensures { seen result ≡ read_typed types.ServiceReject octets.entry.now }
{
    let cause = cause_in(Domain::Emm, octets)?;
    Ok(EmmMessage::ServiceReject { cause })
}

#[tactic(auto, unfolding(crate::specs::Messages::read_typed))]
fn authentication_reject<'a>(octets: &'a [u8]) -> Result<EmmMessage<'a>, NasFault>
    ensures { seen result ≡ read_typed types.AuthenticationReject octets.entry.now }
{
    nothing_in(Domain::Emm, octets)?;
    Ok(EmmMessage::AuthenticationReject)
}

#[tactic(auto, unfolding(crate::specs::Messages::read_typed))]
fn authentication_failure<'a>(octets: &'a [u8]) -> Result<EmmMessage<'a>, NasFault>
    ensures { seen result ≡ read_typed types.AuthenticationFailure octets.entry.now }
{
    let cause = cause_in(Domain::Emm, octets)?;
    Ok(EmmMessage::AuthenticationFailure { cause })
}

#[tactic(auto, unfolding(crate::specs::Messages::read_typed))]
fn security_mode_complete<'a>(octets: &'a [u8]) -> Result<EmmMessage<'a>, NasFault>
    ensures { seen result ≡ read_typed types.SecurityModeComplete octets.entry.now }
{
    nothing_in(Domain::Emm, octets)?;
    Ok(EmmMessage::SecurityModeComplete)
}

#[tactic(auto, unfolding(crate::specs::Messages::read_typed))]
fn security_mode_reject<'a>(octets: &'a [u8]) -> Result<EmmMessage<'a>, NasFault>
    ensures { seen result ≡ read_typed types.SecurityModeReject octets.entry.now }
{
    let cause = cause_in(Domain::Emm, octets)?;
    Ok(EmmMessage::SecurityModeReject { cause })
}

#[tactic(auto, unfolding(crate::specs::Messages::read_typed))]
fn emm_status<'a>(octets: &'a [u8]) -> Result<EmmMessage<'a>, NasFault>
    ensures { seen result ≡ read_typed types.EmmStatus octets.entry.now }
{
    let cause = cause_in(Domain::Emm, octets)?;
    Ok(EmmMessage::EmmStatus { cause })
}

fn detach_of(direction: Direction) -> EmmType
    ensures { result ≡ detach_of direction }
{
    match direction {
        Direction::Uplink => EmmType::DetachRequest,
        Direction::Downlink => EmmType::NetworkDetach,
    }
}

#[tactic(auto, unfolding(crate::specs::Messages::type_of))]
fn type_of(direction: Direction, code: u8) -> Option<EmmType>
    ensures { result ≡ type_of direction code }
{
    match code {
        0x41 => Some(EmmType::AttachRequest),
        0x42 => Some(EmmType::AttachAccept),
        0x43 => Some(EmmType::AttachComplete),
        0x44 => Some(EmmType::AttachReject),
        0x45 => Some(detach_of(direction)),
        0x46 => Some(EmmType::DetachAccept),
        0x48 => Some(EmmType::TrackingAreaUpdateRequest),
        0x49 => Some(EmmType::TrackingAreaUpdateAccept),
        0x4a => Some(EmmType::TrackingAreaUpdateComplete),
        0x4b => Some(EmmType::TrackingAreaUpdateReject),
        0x4e => Some(EmmType::ServiceReject),
        0x52 => Some(EmmType::AuthenticationRequest),
        0x53 => Some(EmmType::AuthenticationResponse),
        0x54 => Some(EmmType::AuthenticationReject),
        0x55 => Some(EmmType::IdentityRequest),
        0x56 => Some(EmmType::IdentityResponse),
        0x5c => Some(EmmType::AuthenticationFailure),
        0x5d => Some(EmmType::SecurityModeCommand),
        0x5e => Some(EmmType::SecurityModeComplete),
        0x5f => Some(EmmType::SecurityModeReject),
        0x60 => Some(EmmType::EmmStatus),
        _ => None,
    }
}

fn read_typed<'a>(emm_type: EmmType, octets: &'a [u8]) -> Result<EmmMessage<'a>, NasFault>
    ensures { seen result ≡ read_typed emm_type octets.entry.now }
{
    match emm_type {
        EmmType::AttachRequest => attach_request(octets),
        EmmType::AttachAccept => attach_accept(octets),
        EmmType::AttachComplete => attach_complete(octets),
        EmmType::AttachReject => attach_reject(octets),
        EmmType::DetachRequest => detach_request(octets),
        EmmType::NetworkDetach => network_detach(octets),
        EmmType::DetachAccept => detach_accept(octets),
        EmmType::TrackingAreaUpdateRequest => area_update_request(octets),
        EmmType::TrackingAreaUpdateAccept => area_update_accept(octets),
        EmmType::TrackingAreaUpdateComplete => area_update_complete(octets),
        EmmType::TrackingAreaUpdateReject => area_update_reject(octets),
        EmmType::ServiceReject => service_reject(octets),
        EmmType::AuthenticationRequest => authentication_request(octets),
        EmmType::AuthenticationResponse => authentication_response(octets),
        EmmType::AuthenticationReject => authentication_reject(octets),
        EmmType::IdentityRequest => identity_request(octets),
        EmmType::IdentityResponse => identity_response(octets),
        EmmType::AuthenticationFailure => authentication_failure(octets),
        EmmType::SecurityModeCommand => security_mode_command(octets),
        EmmType::SecurityModeComplete => security_mode_complete(octets),
        EmmType::SecurityModeReject => security_mode_reject(octets),
        EmmType::EmmStatus => emm_status(octets),
    }
}

#[tactic(auto, unfolding(crate::specs::Messages::decoded_emm))]
fn read_emm<'a>(octets: &'a [u8], direction: Direction) -> Result<EmmMessage<'a>, NasFault>
    ensures { seen result ≡ decoded_emm direction octets.entry.now }
{
    if octets.len() < 2 {
        return Err(NasFault::TooShort);
    }
    if octets[0] == codes::EMM_DISCRIMINATOR {
        let Some(emm_type) = type_of(direction, octets[1]) else {
            return Err(NasFault::UnknownType);
        };
        return read_typed(emm_type, &octets[2..]);
    }
    if octets[0] != codes::SERVICE_REQUEST {
        return Err(NasFault::UnknownType);
    }
    let [first, second, third, fourth] = octets else {
        return Err(NasFault::UnknownType);
    };
    Ok(EmmMessage::ServiceRequest {
        octets: [*first, *second, *third, *fourth],
    })
}

/// The EMM message that these octets are, if `direction` sends them. Takes no memory.
///
/// Faults, the first that fits: TooShort below two octets; UnknownType for no SERVICE REQUEST (four octets that begin with
/// c7) and no message of a type in [`Emm`](crate::Emm) with the protocol discriminator 7; Mandatory; OptionalPart.
pub fn decode_emm<'a>(octets: &'a [u8], direction: Direction) -> Result<EmmMessage<'a>, NasFault>
    ensures decoded { seen result ≡ decoded_emm direction octets.entry.now }
    ensures writable { IfOk result (λ m. IsWritable (lists m)) }
{
    read_emm(octets, direction)
}
