//! NAS messages (TS 24.301) by their types, and in their parts.

ghost use Rattle.std.specs.Prelude.{◌≡◌};
ghost use Rattle.nas_messages.specs.Messages.{lists};
ghost use Rattle.c_codecs.specs.Nas.{direction_of, nas_parts, nas_type, type_code};

use crate::fault::{CodecFault, of_nas};
use nas_messages::{Direction, Emm, EmmMessage, decode_emm, split_protected};

/// A message in the protected form, but for the plain message in it.
#[derive(Clone, Copy)]
pub struct NasParts {
    /// The security header type, 1 to 4 (TS 24.301 clause 9.3.1).
    pub header: u8,
    /// The message authentication code, its first octet the highest.
    pub mac: u32,
    /// The sequence number.
    pub sequence: u8,
}

fn direction_of(number: u32) -> Result<Direction, CodecFault>
    ensures { result ≡ direction_of number }
{
    match number {
        0 => Ok(Direction::Uplink),
        1 => Ok(Direction::Downlink),
        _ => Err(CodecFault::BadNumber),
    }
}

fn type_code(message: &EmmMessage) -> u8
    ensures { result ≡ type_code (lists message.now) }
{
    match message {
        Emm::AttachRequest(_) => 0x41,
        Emm::AttachAccept(_) => 0x42,
        Emm::AttachComplete { esm: _ } => 0x43,
        Emm::AttachReject(_) => 0x44,
        Emm::DetachRequest(_) | Emm::NetworkDetach => 0x45,
        Emm::DetachAccept => 0x46,
        Emm::TrackingAreaUpdateRequest(_) => 0x48,
        Emm::TrackingAreaUpdateAccept(_) => 0x49,
        Emm::TrackingAreaUpdateComplete => 0x4a,
        Emm::TrackingAreaUpdateReject { cause: _ } => 0x4b,
        Emm::ServiceReject { cause: _ } => 0x4e,
        Emm::AuthenticationRequest(_) => 0x52,
        Emm::AuthenticationResponse { res: _ } => 0x53,
        Emm::AuthenticationReject => 0x54,
        Emm::IdentityRequest => 0x55,
        Emm::IdentityResponse { identity: _ } => 0x56,
        Emm::AuthenticationFailure { cause: _ } => 0x5c,
        Emm::SecurityModeCommand(_) => 0x5d,
        Emm::SecurityModeComplete => 0x5e,
        Emm::SecurityModeReject { cause: _ } => 0x5f,
        Emm::EmmStatus { cause: _ } => 0x60,
        Emm::ServiceRequest { octets: _ } => 0xc7,
    }
}

/// The type of the plain EMM message that these octets are, if that direction sends them (0 the phone, 1 the network): its message
/// type (TS 24.301 clause 9.8), or c7 for SERVICE REQUEST. BadNumber for another direction, then the message's first fault.
pub fn nas_type(octets: &[u8], direction: u32) -> Result<u8, CodecFault>
    ensures { result ≡ nas_type octets.now direction }
{
    let direction = direction_of(direction)?;
    match decode_emm(octets, direction) {
        Ok(message) => Ok(type_code(&message)),
        Err(fault) => Err(of_nas(fault)),
    }
}

/// The parts of octets in the protected form (TS 24.301 clause 9.1), else NotProtected. The MAC isn't checked.
pub fn nas_parts(octets: &[u8]) -> Result<NasParts, CodecFault>
    ensures { result ≡ nas_parts octets.now }
{
    match split_protected(octets) {
        Some(protected) => Ok(NasParts {
            header: protected.header.code(),
            mac: u32::from_be_bytes(protected.mac),
            sequence: protected.sequence,
        }),
        None => Err(CodecFault::NotProtected),
    }
}
