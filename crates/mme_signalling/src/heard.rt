//! What a phone's NAS message is to the machine. `B` is what holds octets: a slice of the message in code, a list in
//! contracts.

ghost use Rattle.std.specs.Prelude.{◌≡◌, Ok, Err};
ghost use Rattle.nas_messages.specs.Messages.{IsWritable, decoded_emm, lists, seen};
ghost use Rattle.nas_messages.specs.declared.emm_types.Direction.TheVariants.{Uplink};
ghost use Rattle.mme_signalling.specs.Hearing.{AttachFits, attach_of, heard, heard_lists, initial_octets, is_combined_update, is_esm, is_initial_header, request_lists, sorted};

use nas_elements::{NasFault, UeCapability};
use nas_messages::{
    AttachRequest, Direction, Emm, EmmMessage, SecurityHeader, codes, decode_emm, split_protected,
};

/// An EMM message of a phone, by what the machine does with it.
#[derive(Clone, Copy)]
pub enum Heard<B> {
    /// ATTACH REQUEST: for EPS and for other services or not (TS 24.301 clause 9.9.3.11), and any octets for session
    /// management.
    AttachRequest {
        combined: bool,
        capability: UeCapability,
        esm: B,
    },
    DetachRequest {
        switch_off: bool,
    },
    /// TRACKING AREA UPDATE REQUEST, combined or not (TS 24.301 clause 9.9.3.14).
    TrackingAreaUpdateRequest {
        combined: bool,
    },
    ServiceRequest {
        octets: [u8; 4],
    },
    AuthenticationResponse {
        res: B,
    },
    AuthenticationFailure {
        cause: u8,
    },
    SecurityModeComplete,
    SecurityModeReject,
    AttachComplete {
        esm: B,
    },
    TrackingAreaUpdateComplete,
    DetachAccept,
    /// IDENTITY RESPONSE and EMM STATUS, which no procedure of a known phone waits for.
    Unasked,
    /// A message that only a network sends.
    Other,
    Unreadable(NasFault),
}

// What an ATTACH REQUEST that was decoded asks for.
fn attach_of<'a>(request: &AttachRequest<&'a [u8]>) -> Heard<&'a [u8]>
    requires { AttachFits request.now.capability.now }
    ensures { heard_lists result ≡ attach_of (request_lists request.now) }
{
    Heard::AttachRequest {
        combined: request.attach_type == codes::COMBINED_ATTACH,
        capability: UeCapability::new(request.capability),
        esm: request.esm,
    }
}

fn is_combined_update(update_type: u8) -> bool
    ensures { result ≡ is_combined_update update_type }
{
    update_type == codes::COMBINED_UPDATE || update_type == codes::COMBINED_UPDATE_WITH_ATTACH
}

fn sorted<'a>(message: &EmmMessage<'a>) -> Heard<&'a [u8]>
    requires { IsWritable (lists message.now) }
    ensures { heard_lists result ≡ sorted (lists message.now) }
{
    match message {
        Emm::AttachRequest(request) => attach_of(request),
        Emm::DetachRequest(request) => Heard::DetachRequest {
            switch_off: request.switch_off,
        },
        Emm::TrackingAreaUpdateRequest(request) => Heard::TrackingAreaUpdateRequest {
            combined: is_combined_update(request.update_type),
        },
        Emm::ServiceRequest { octets } => Heard::ServiceRequest { octets: *octets },
        Emm::AuthenticationResponse { res } => Heard::AuthenticationResponse { res },
        Emm::AuthenticationFailure { cause } => Heard::AuthenticationFailure { cause: *cause },
        Emm::SecurityModeComplete => Heard::SecurityModeComplete,
        Emm::SecurityModeReject { cause: _ } => Heard::SecurityModeReject,
        Emm::AttachComplete { esm } => Heard::AttachComplete { esm },
        Emm::TrackingAreaUpdateComplete => Heard::TrackingAreaUpdateComplete,
        Emm::DetachAccept => Heard::DetachAccept,
        Emm::IdentityResponse { identity: _ } | Emm::EmmStatus { cause: _ } => Heard::Unasked,
        Emm::AttachAccept(_)
        | Emm::AttachReject(_)
        | Emm::NetworkDetach
        | Emm::TrackingAreaUpdateAccept(_)
        | Emm::TrackingAreaUpdateReject { cause: _ }
        | Emm::ServiceReject { cause: _ }
        | Emm::AuthenticationRequest(_)
        | Emm::AuthenticationReject
        | Emm::IdentityRequest
        | Emm::SecurityModeCommand(_) => Heard::Other,
    }
}

/// What these octets of a phone are to the machine. Takes no memory.
#[tactic(auto, unfolding(crate::specs::Hearing::heard))]
pub fn hear<'a>(octets: &'a [u8]) -> Heard<&'a [u8]>
    ensures { heard_lists result ≡ heard octets.entry.now }
{
    match decode_emm(octets, Direction::Uplink) {
        Ok(message) => sorted(&message),
        Err(fault) => Heard::Unreadable(fault),
    }
}

fn is_initial_header(header: SecurityHeader) -> bool
    ensures { result ≡ is_initial_header header }
{
    match header {
        SecurityHeader::IntegrityProtected | SecurityHeader::IntegrityProtectedCiphered => true,
        SecurityHeader::NewContext | SecurityHeader::NewContextCiphered => false,
    }
}

/// The octets of an INITIAL UE MESSAGE's NAS message by which it is known: those after the header, where it is protected
/// under a context.
#[tactic(auto, unfolding(crate::specs::Hearing::initial_octets))]
pub fn initial_octets<'a>(octets: &'a [u8]) -> &'a [u8]
    ensures { result.now ≡ initial_octets octets.entry.now }
{
    match split_protected(octets) {
        Some(protected) if is_initial_header(protected.header) => protected.message,
        Some(_) | None => octets,
    }
}

/// Whether an accepted message is of session management: by its protocol discriminator (TS 24.007 clause 11.2.3.1.1).
#[tactic(auto, unfolding(crate::specs::Hearing::is_esm))]
pub fn is_esm(octets: &[u8]) -> bool
    ensures { result ≡ is_esm octets.now }
{
    match octets.first() {
        Some(first) => *first % 16 == codes::ESM_DISCRIMINATOR,
        None => false,
    }
}
