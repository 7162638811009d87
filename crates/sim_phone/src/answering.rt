//! What a phone answers to the network's NAS messages.

ghost use Rattle.std.specs.Prelude.{◌≡◌, IfOk, option_map};
ghost use Rattle.nas_elements.specs.Seen.{octets_of};
ghost use Rattle.nas_messages.specs.EsmMessages.{decoded_esm};
ghost use Rattle.nas_messages.specs.Messages.{decoded_emm, lists};
ghost use Rattle.sim_phone.specs.Answering.{challenge_saying, context_saying, esm_saying, fresh_context, in_use_headers, mobility_saying, mode_saying, phone_answer, plain_saying, protected_answer, vector_with, with_given_guti};
ghost use Rattle.sim_phone.specs.Protecting.{taken_under, with_context};

use crate::messages::{
    area_update_complete, attach_complete, authentication_failure, authentication_response,
    detach_accept, identity_response, information_response, permanent, security_mode_complete,
};
use crate::protecting::{Saying, protected_saying, taken_under};
use crate::registration::{PhoneContext, Registration};
use crate::side::PhoneSide;
use eps_keys::{nas_integrity_key, same_octets};
use identity_slots::Vector;
use nas_elements::{Guti, Imsi};
use nas_messages::{
    AuthenticationRequest, Direction, Emm, EmmMessage, EsmBody, SecurityHeader, decode_emm,
    decode_esm,
};
use std::alloc::{AllocError, Global};

// The headers of messages under the context in use, and of those that take a context into use (TS 24.301 clause 9.3.1).
const IN_USE: [SecurityHeader; 2] = [
    SecurityHeader::IntegrityProtected,
    SecurityHeader::IntegrityProtectedCiphered,
];

const NEW_CONTEXT: [SecurityHeader; 2] = [
    SecurityHeader::NewContext,
    SecurityHeader::NewContextCiphered,
];

// The first vector with this RAND.
fn first_with<'a>(vectors: &'a [Vector], rand: &[u8]) -> Option<&'a Vector>
    ensures { option_map (λ v. v.now) result ≡ vector_with vectors.entry.now rand.now }
{
    vectors.iter().find(|v| same_octets(&v.rand, rand))
}

fn fresh_context(vector: &Vector, ksi: u8) -> PhoneContext
    ensures { result ≡ fresh_context vector.now ksi }
{
    let key = nas_integrity_key(vector.kasme.octets());
    PhoneContext::new(PhoneSide::new(&key), ksi, 0, None)
}

// A RESPONSE by the vector, or the FAILURE without one (TS 24.301 clause 5.4.2).
fn challenged(
    alloc: Global,
    vector: Option<&Vector>,
    ksi: u8,
    registration: Registration,
) -> Result<Saying, AllocError>
    ensures { IfOk result (λ s. s ≡ challenge_saying (option_map (λ v. v.now) vector.entry) ksi registration) }
{
    match vector {
        Some(vector) => {
            let octets = authentication_response(alloc, vector.xres.as_slice())?;
            Ok(Saying {
                octets: Some(octets),
                registration: Registration {
                    challenge: Some(fresh_context(vector, ksi)),
                    ..registration
                },
            })
        }
        None => Ok(Saying {
            octets: Some(authentication_failure(alloc)?),
            registration,
        }),
    }
}

// What is said to a message that a phone takes plain, too (TS 24.301 clause 4.4.4.2).
fn plain_saying(
    alloc: Global,
    imsi: Imsi,
    vectors: &[Vector],
    registration: Registration,
    message: &EmmMessage,
) -> Result<Saying, AllocError>
    ensures { IfOk result (λ s. s ≡ plain_saying (record { imsi = imsi; vectors = vectors.now }) registration (lists message.now)) }
{
    match message {
        Emm::AuthenticationRequest(m) => {
            challenged(alloc, first_with(vectors, m.rand), m.ksi, registration)
        }
        Emm::IdentityRequest => Ok(Saying {
            octets: Some(identity_response(alloc, permanent(imsi))?),
            registration,
        }),
        Emm::AuthenticationReject
        | Emm::AttachReject(_)
        | Emm::TrackingAreaUpdateReject { .. }
        | Emm::ServiceReject { .. }
        | Emm::DetachAccept => Ok(Saying::nothing(Registration::none())),
        _ => Ok(Saying::nothing(registration)),
    }
}

// The GUTI that a message gives, or that of before.
fn with_given_guti(registration: Registration, told: Option<&[u8]>) -> Registration
    ensures { result ≡ with_given_guti registration (octets_of told.entry) }
{
    let Some(octets) = told else {
        return registration;
    };
    match Guti::read(octets) {
        Ok(guti) => Registration {
            guti: Some(guti),
            ..registration
        },
        Err(_) => registration,
    }
}

fn in_context(registration: Registration, context: PhoneContext) -> Registration
    ensures { result ≡ with_context registration context }
{
    Registration {
        context: Some(context),
        ..registration
    }
}

// ESM messages under the context in use.
fn esm_saying(
    alloc: Global,
    registration: Registration,
    context: PhoneContext,
    octets: &[u8],
) -> Result<Saying, AllocError>
    ensures { IfOk result (λ s. s ≡ esm_saying registration context (decoded_esm octets.now)) }
{
    match decode_esm(octets) {
        Ok(message) => match message.body {
            EsmBody::InformationRequest => {
                let response = information_response(alloc, message.transaction)?;
                let header = SecurityHeader::IntegrityProtected;
                protected_saying(alloc, registration, context, header, &response)
            }
            _ => Ok(Saying::nothing(in_context(registration, context))),
        },
        Err(_) => Ok(Saying::nothing(in_context(registration, context))),
    }
}

// EMM messages under the context in use.
fn mobility_saying(
    alloc: Global,
    imsi: Imsi,
    vectors: &[Vector],
    registration: Registration,
    context: PhoneContext,
    message: &EmmMessage,
) -> Result<Saying, AllocError>
    ensures { IfOk result
        (λ s. s ≡ mobility_saying (record { imsi = imsi; vectors = vectors.now }) registration context (lists message.now)) }
{
    let header = SecurityHeader::IntegrityProtected;
    match message {
        Emm::AttachAccept(m) => {
            let complete = attach_complete(alloc)?;
            let given = with_given_guti(registration, m.guti);
            protected_saying(alloc, given, context, header, &complete)
        }
        Emm::TrackingAreaUpdateAccept(m) => {
            let complete = area_update_complete(alloc)?;
            let given = with_given_guti(registration, m.guti);
            protected_saying(alloc, given, context, header, &complete)
        }
        Emm::NetworkDetach => {
            let accept = detach_accept(alloc)?;
            let saying = protected_saying(alloc, registration, context, header, &accept)?;
            Ok(saying.leaving())
        }
        _ => plain_saying(
            alloc,
            imsi,
            vectors,
            in_context(registration, context),
            message,
        ),
    }
}

// A message that the context in use took.
fn context_saying(
    alloc: Global,
    imsi: Imsi,
    vectors: &[Vector],
    registration: Registration,
    context: PhoneContext,
    octets: &[u8],
) -> Result<Saying, AllocError>
    ensures { IfOk result
        (λ s. s ≡ context_saying (record { imsi = imsi; vectors = vectors.now }) registration (context, octets.now)) }
{
    match decode_emm(octets, Direction::Downlink) {
        Ok(message) => mobility_saying(alloc, imsi, vectors, registration, context, &message),
        Err(_) => esm_saying(alloc, registration, context, octets),
    }
}

// SECURITY MODE COMMAND under a context that it takes into use (TS 24.301 clause 5.4.3).
fn mode_saying(
    alloc: Global,
    registration: Registration,
    context: PhoneContext,
    octets: &[u8],
) -> Result<Saying, AllocError>
    ensures { IfOk result (λ s. s ≡ mode_saying registration context (decoded_emm Direction.Downlink octets.now)) }
{
    match decode_emm(octets, Direction::Downlink) {
        Ok(Emm::SecurityModeCommand(_)) => {
            let complete = security_mode_complete(alloc)?;
            let taken_into_use = Registration {
                challenge: None,
                context: Some(context),
                guti: registration.guti,
            };
            let header = SecurityHeader::NewContextCiphered;
            protected_saying(alloc, taken_into_use, context, header, &complete)
        }
        _ => Ok(Saying::nothing(registration)),
    }
}

// A protected message: under the context in use, or one that takes a context into use.
fn protected_answer(
    alloc: Global,
    imsi: Imsi,
    vectors: &[Vector],
    registration: Registration,
    nas: &[u8],
) -> Result<Saying, AllocError>
    ensures { IfOk result (λ s. s ≡ protected_answer (record { imsi = imsi; vectors = vectors.now }) registration nas.now
        (taken_under registration.context in_use_headers nas.now)) }
{
    if let Some((context, octets)) = taken_under(registration.context, &IN_USE, nas) {
        return context_saying(alloc, imsi, vectors, registration, context, octets);
    }
    let candidate = match registration.challenge {
        Some(challenge) => Some(challenge),
        None => registration.context,
    };
    match taken_under(candidate, &NEW_CONTEXT, nas) {
        Some((context, octets)) => mode_saying(alloc, registration, context, octets),
        None => Ok(Saying::nothing(registration)),
    }
}

/// What a phone of that IMSI and those vectors answers to NAS octets: to a plain message, or to one under its context. Refused for
/// lack of memory alone.
#[tactic(auto, unfolding(crate::specs::Answering::phone_answer))]
pub fn phone_answer(
    alloc: Global,
    imsi: Imsi,
    vectors: &[Vector],
    registration: Registration,
    nas: &[u8],
) -> Result<Saying, AllocError>
    ensures { IfOk result (λ s. s ≡ phone_answer (record { imsi = imsi; vectors = vectors.now }) registration nas.now) }
{
    match decode_emm(nas, Direction::Downlink) {
        Ok(message) => plain_saying(alloc, imsi, vectors, registration, &message),
        Err(_) => protected_answer(alloc, imsi, vectors, registration, nas),
    }
}
