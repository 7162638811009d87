//! EMM messages to octets.

ghost use Rattle.std.specs.Prelude.{◌≡◌, ◌++◌, ◌∷◌, [], OnOk, IfErr, IfOk, ◌<◌, length};
ghost use Rattle.nas_elements.specs.Parts.{flagged, write_half};
ghost use Rattle.nas_elements.specs.Rows.{RowFits, write_row};
ghost use Rattle.nas_elements.specs.Seen.{octets_of};
ghost use Rattle.nas_messages.specs.Formats.{row_of};
ghost use Rattle.nas_messages.specs.Messages.{IsWritable, encoded_emm, lists};
ghost use Rattle.nas_messages.specs.declared.emm_types.Emm.TheVariants as messages;

use crate::USUAL_ROOM;
use crate::emm_types::{
    AttachAccept, AttachReject, AttachRequest, AuthenticationRequest, DetachRequest, EmmMessage,
    SecurityModeCommand, TrackingAreaUpdateAccept, TrackingAreaUpdateRequest,
};
use nas_elements::{
    Domain, NasFault, identifier, put_element, put_fixed, put_guti, put_identity, put_long,
    put_short, put_tai_list, timers,
};
use std::alloc::{AllocError, Global};

fn put_attach_request(out: &mut Vec<u8>, m: &AttachRequest<&[u8]>) -> Result<(), AllocError>
    requires { IsWritable (lists (messages.AttachRequest m.now)) }
    ensures { OnOk result (out.new.items ≡ out.old.items ++ encoded_emm (lists (messages.AttachRequest m.now))) }
{
    put_fixed(out, &[7, 0x41, m.ksi * 16 + m.attach_type])?;
    put_identity(out, &m.identity)?;
    put_short(out, m.capability)?;
    put_long(out, m.esm)
}

fn put_attach_accept(out: &mut Vec<u8>, m: &AttachAccept<&[u8]>) -> Result<(), AllocError>
    requires { IsWritable (lists (messages.AttachAccept m.now)) }
    ensures { OnOk result (out.new.items ≡ out.old.items ++ encoded_emm (lists (messages.AttachAccept m.now))) }
{
    put_fixed(out, &[7, 0x42, 1, timers::T3412_OCTET])?;
    put_tai_list(out, &m.tai_list)?;
    put_long(out, m.esm)?;
    put_element(out, Domain::Emm, identifier::GUTI, m.guti)?;
    put_element(out, Domain::Emm, identifier::EMM_CAUSE, m.cause)
}

fn put_attach_reject(out: &mut Vec<u8>, m: &AttachReject<&[u8]>) -> Result<(), AllocError>
    requires { IsWritable (lists (messages.AttachReject m.now)) }
    ensures { OnOk result (out.new.items ≡ out.old.items ++ encoded_emm (lists (messages.AttachReject m.now))) }
{
    put_fixed(out, &[7, 0x44, m.cause])?;
    put_element(out, Domain::Emm, identifier::ESM_MESSAGE_CONTAINER, m.esm)
}

fn put_detach_request(out: &mut Vec<u8>, m: &DetachRequest) -> Result<(), AllocError>
    requires { IsWritable (lists (messages.DetachRequest m.now)) }
    ensures { OnOk result (out.new.items ≡ out.old.items ++ encoded_emm (lists (messages.DetachRequest m.now))) }
{
    let first = m.ksi * 16 + flagged(m.switch_off, m.detach_type);
    put_fixed(out, &[7, 0x45, first])?;
    put_identity(out, &m.identity)
}

fn put_area_update_request(
    out: &mut Vec<u8>,
    m: &TrackingAreaUpdateRequest,
) -> Result<(), AllocError>
    requires { IsWritable (lists (messages.TrackingAreaUpdateRequest m.now)) }
    ensures { OnOk result (out.new.items ≡ out.old.items ++ encoded_emm (lists (messages.TrackingAreaUpdateRequest m.now))) }
{
    let first = m.ksi * 16 + flagged(m.active, m.update_type);
    put_fixed(out, &[7, 0x48, first])?;
    put_guti(out, &m.guti)
}

/// A half octet with a flag.
fn flagged(flag: bool, number: u8) -> u8
    requires { number < 8 }
    ensures value { result ≡ write_half flagged (number, flag) }
    ensures small { result < 16 }
{
    if flag { 8 + number } else { number }
}

fn put_area_update_accept(
    out: &mut Vec<u8>,
    m: &TrackingAreaUpdateAccept<&[u8]>,
) -> Result<(), AllocError>
    requires { IsWritable (lists (messages.TrackingAreaUpdateAccept m.now)) }
    ensures { OnOk result (out.new.items ≡ out.old.items ++ encoded_emm (lists (messages.TrackingAreaUpdateAccept m.now))) }
{
    put_fixed(out, &[7, 0x49, 0])?;
    put_element(out, Domain::Emm, identifier::T3412_VALUE, m.timer)?;
    put_element(out, Domain::Emm, identifier::GUTI, m.guti)?;
    put_element(out, Domain::Emm, identifier::TAI_LIST, m.tai_list)?;
    put_element(out, Domain::Emm, identifier::EMM_CAUSE, m.cause)
}

fn put_authentication_request(
    out: &mut Vec<u8>,
    m: &AuthenticationRequest<&[u8]>,
) -> Result<(), AllocError>
    requires { IsWritable (lists (messages.AuthenticationRequest m.now)) }
    ensures { OnOk result (out.new.items ≡ out.old.items ++ encoded_emm (lists (messages.AuthenticationRequest m.now))) }
{
    put_fixed(out, &[7, 0x52, m.ksi])?;
    put_fixed(out, m.rand)?;
    put_short(out, m.autn)
}

fn put_security_mode_command(
    out: &mut Vec<u8>,
    m: &SecurityModeCommand<&[u8]>,
) -> Result<(), AllocError>
    requires { IsWritable (lists (messages.SecurityModeCommand m.now)) }
    ensures { OnOk result (out.new.items ≡ out.old.items ++ encoded_emm (lists (messages.SecurityModeCommand m.now))) }
{
    put_fixed(out, &[7, 0x5d, 2, m.ksi])?;
    put_short(out, m.capability)
}

fn put_emm(out: &mut Vec<u8>, message: &EmmMessage) -> Result<(), AllocError>
    requires { IsWritable (lists message.now) }
    ensures { OnOk result (out.new.items ≡ out.old.items ++ encoded_emm (lists message.now)) }
{
    match message {
        EmmMessage::AttachRequest(m) => put_attach_request(out, m),
        EmmMessage::AttachAccept(m) => put_attach_accept(out, m),
        EmmMessage::AttachComplete { esm } => {
            put_fixed(out, &[7, 0x43])?;
            put_long(out, esm)
        }
        EmmMessage::AttachReject(m) => put_attach_reject(out, m),
        EmmMessage::DetachRequest(m) => put_detach_request(out, m),
        EmmMessage::NetworkDetach => put_fixed(out, &[7, 0x45, 2]),
        EmmMessage::DetachAccept => put_fixed(out, &[7, 0x46]),
        EmmMessage::TrackingAreaUpdateRequest(m) => put_area_update_request(out, m),
        EmmMessage::TrackingAreaUpdateAccept(m) => put_area_update_accept(out, m),
        EmmMessage::TrackingAreaUpdateComplete => put_fixed(out, &[7, 0x4a]),
        EmmMessage::TrackingAreaUpdateReject { cause } => put_fixed(out, &[7, 0x4b, *cause]),
        EmmMessage::ServiceReject { cause } => put_fixed(out, &[7, 0x4e, *cause]),
        EmmMessage::AuthenticationRequest(m) => put_authentication_request(out, m),
        EmmMessage::AuthenticationResponse { res } => {
            put_fixed(out, &[7, 0x53])?;
            put_short(out, res)
        }
        EmmMessage::AuthenticationReject => put_fixed(out, &[7, 0x54]),
        EmmMessage::IdentityRequest => put_fixed(out, &[7, 0x55, 1]),
        EmmMessage::IdentityResponse { identity } => {
            put_fixed(out, &[7, 0x56])?;
            put_identity(out, identity)
        }
        EmmMessage::AuthenticationFailure { cause } => put_fixed(out, &[7, 0x5c, *cause]),
        EmmMessage::SecurityModeCommand(m) => put_security_mode_command(out, m),
        EmmMessage::SecurityModeComplete => put_fixed(out, &[7, 0x5e]),
        EmmMessage::SecurityModeReject { cause } => put_fixed(out, &[7, 0x5f, *cause]),
        EmmMessage::EmmStatus { cause } => put_fixed(out, &[7, 0x60, *cause]),
        EmmMessage::ServiceRequest { octets } => put_fixed(out, octets),
    }
}

/// The one written form of a message: optional elements in the order of its type's clause, spare bits 0. What was decoded
/// may be encoded. The one fault is NoMemory.
pub fn encode_emm(alloc: Global, message: &EmmMessage) -> Result<Vec<u8>, NasFault>
    requires { IsWritable (lists message.now) }
    ensures ok { IfOk result (λ octets. octets.items ≡ encoded_emm (lists message.now)) }
    ensures memory { IfErr result (λ fault. fault ≡ NasFault.NoMemory) }
{
    let mut octets = Vec::with_capacity(alloc, USUAL_ROOM)?;
    put_emm(&mut octets, message)?;
    Ok(octets)
}
