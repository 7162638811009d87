//! The rows of an attach: its request, authentication and security mode, and its acceptance (TS 24.301 clause 5.5.1).

ghost use Rattle.std.specs.Prelude.{◌≡◌, ◌-◌, ◌<◌, ◌^◌, IsSome, OnOk, Some, None, length, Ok, Err};
ghost use Rattle.nas_security.specs.Accepting.{accepted, seen_acceptance};
ghost use Rattle.eps_keys.specs.Hmac.{kenb};
ghost use Rattle.identity_slots.specs.Ids.{id_of_slot, next_counter};
ghost use Rattle.identity_slots.specs.Spending.{HasFrom};
ghost use Rattle.esm_machine.specs.Requests.{requested_lists};
ghost use Rattle.emm_uplink.specs.Attaching.{accept, activating, ask_information, asking, attach, attach_by, attach_grant, attach_refused, authenticated, authenticating, challenge, challenged, detach_answered_plainly, detach_plainly, failure, given_tmsi, in_authenticating, in_security_mode, is_complete, is_plain, is_reject, keyed, keys_of, new_context, no_keys, not_authenticated, not_secured, requesting, response, response_to, secured, secured_by, status_plainly, took};
ghost use Rattle.mme_signalling.specs.Causes.{cause_of_fault};
ghost use Rattle.mme_signalling.specs.Hearing.{heard, heard_lists};
ghost use Rattle.emm_state.specs.Does.{Does};
ghost use Rattle.emm_state.specs.declared.solo.Context.{Context};

use emm_state::{
    Asked, Context, Draft, NasTimer, Phase, Protection, Repeat, Setting, StepStop, ksi_of, or_stop,
};
use eps_keys::{Kasme, Kenb, same_octets};
use esm_machine::Requested;
use identity_slots::{KeptVectors, Tmsi, Vector};
use mme_signalling::{
    EmmCause, Grant, Heard, attach_accept, attach_reject, attach_reject_with,
    authentication_reject, authentication_request, cause_of_fault, detach_accept, emm_status, hear,
    security_mode_command,
};
use mme_types::{Mark, NasOctets, RadioKeys};
use nas_elements::UeCapability;
use nas_messages::{SecurityHeader, codes};
use nas_security::{Eia2, SecurityContext};
use s1ap_elements::{Cause, NasCause, Tai};
use std::alloc::{AllocError, Global};

#[tactic(auto, unfolding(crate::specs::Attaching::is_plain))]
fn is_plain(nas: &[u8]) -> bool
    ensures { result ≡ is_plain nas.now }
{
    match nas.first() {
        Some(first) => *first == codes::EMM_DISCRIMINATOR,
        None => false,
    }
}

fn is_complete(nas: &[u8]) -> bool
    ensures { result ≡ is_complete (heard nas.now) }
{
    matches!(hear(nas), Heard::SecurityModeComplete)
}

fn is_reject(nas: &[u8]) -> bool
    ensures { result ≡ is_reject (heard nas.now) }
{
    matches!(hear(nas), Heard::SecurityModeReject)
}

// The radio keys of a count (TS 33.401 clause A.3): no station was told a next hop yet.
fn keys_of(kasme: &Kasme, count: u32) -> RadioKeys
    ensures { result ≡ keys_of kasme.now count }
{
    RadioKeys {
        kenb: kasme.kenb(count),
        next_hop: None,
        chaining_count: 1,
    }
}

#[tactic(auto, unfolding(crate::specs::Attaching::attach_refused))]
fn attach_refused(draft: &mut Draft, alloc: Global, cause: EmmCause) -> Result<(), AllocError>
    ensures { OnOk result (draft.new ≡ attach_refused cause None draft.old) }
{
    let reject = attach_reject(alloc, cause)?;
    draft.send(alloc, reject.as_slice())?;
    draft.release(alloc, Cause::Nas(NasCause::NormalRelease))?;
    draft.wipe();
    Ok(())
}

#[tactic(auto, unfolding(crate::specs::Attaching::attach_refused))]
fn attach_refused_with(
    draft: &mut Draft,
    alloc: Global,
    cause: EmmCause,
    esm: &[u8],
) -> Result<(), AllocError>
    requires { length esm.now < 2 ^ 16 }
    ensures { OnOk result (draft.new ≡ attach_refused cause (Some esm.now) draft.old) }
{
    let reject = attach_reject_with(alloc, cause, esm)?;
    draft.send(alloc, reject.as_slice())?;
    draft.release(alloc, Cause::Nas(NasCause::NormalRelease))?;
    draft.wipe();
    Ok(())
}

// AUTHENTICATION REQUEST by the vector at the next place.
#[tactic(auto, unfolding(crate::specs::Attaching::challenged))]
fn challenged(draft: &mut Draft, alloc: Global, vector: &Vector) -> Result<(), AllocError>
    requires { draft.old.solo.next_vector < 2 ^ 63 }
    ensures { OnOk result (draft.new ≡ challenged vector.now draft.old) }
{
    let place = draft.solo.next_vector;
    let request = authentication_request(alloc, ksi_of(place), vector.rand, vector.autn)?;
    draft.solo.phase = Phase::Authenticating;
    draft.solo.next_vector = place + 1;
    draft.send(alloc, request.as_slice())?;
    draft.start(
        NasTimer::T3460,
        Repeat::Nas(Protection::Plain, NasOctets::new(request)),
    );
    Ok(())
}

#[tactic(auto, unfolding(crate::specs::Attaching::challenge))]
fn challenge(
    draft: &mut Draft,
    alloc: Global,
    setting: &Setting,
    vectors: &KeptVectors,
) -> Result<(), AllocError>
    requires { HasFrom draft.old.solo.next_vector setting.now.vectors vectors.now }
    ensures { OnOk result (draft.new ≡ challenge setting.now draft.old) }
{
    match vectors.get(draft.solo.next_vector) {
        Some(vector) => challenged(draft, alloc, vector),
        None => attach_refused(draft, alloc, EmmCause::NetworkFailure),
    }
}

#[tactic(auto, unfolding(crate::specs::Attaching::asking))]
fn asking(draft: &mut Draft, combined: bool, capability: UeCapability, tai: Tai)
    ensures { draft.new ≡ asking combined capability tai draft.old }
{
    draft.solo.tai = tai;
    draft.solo.asked = Asked {
        capability,
        combined_attach: combined,
        initial_update: false,
    };
}

/// ATTACH REQUEST on its connection.
#[tactic(auto, unfolding(crate::specs::Attaching::attach, crate::specs::Attaching::attach_by, crate::specs::Attaching::requesting))]
pub(crate) fn attach(
    draft: &mut Draft,
    alloc: Global,
    setting: &Setting,
    vectors: &KeptVectors,
    combined: bool,
    capability: UeCapability,
    esm: &[u8],
    tai: Tai,
) -> Result<(), AllocError>
    requires { HasFrom draft.old.solo.next_vector setting.now.vectors vectors.now }
    ensures { OnOk result (draft.new ≡ attach setting.now combined capability esm.now tai draft.old) }
{
    draft.wipe();
    match draft.solo.bearer.on_request(alloc, esm)? {
        Requested::Unreadable => attach_refused(draft, alloc, EmmCause::InvalidMandatory),
        Requested::Refused(reject) => {
            attach_refused_with(draft, alloc, EmmCause::EsmFailure, reject.as_slice())
        },
        Requested::Taken => {
            if !capability.has_eia2() {
                return attach_refused(draft, alloc, EmmCause::ProtocolError);
            }
            asking(draft, combined, capability, tai);
            challenge(draft, alloc, setting, vectors)
        }
    }
}

#[tactic(auto, unfolding(crate::specs::Attaching::new_context))]
fn new_context(draft: &mut Draft, place: usize, vector: &Vector)
    ensures { draft.new ≡ new_context place vector.now draft.old }
{
    let kasme = Kasme::new(vector.kasme.octets());
    let integrity = Eia2::new(&kasme.nas_integrity_key());
    draft.solo.phase = Phase::SecurityMode;
    draft.solo.context = Some(Context {
        place,
        security: SecurityContext::new(integrity, ksi_of(place), 0, None),
        kasme,
        radio: RadioKeys {
            kenb: Kenb::new([0; 32]),
            next_hop: None,
            chaining_count: 0,
        },
    });
}

#[tactic(auto, unfolding(crate::specs::Attaching::authenticated))]
fn authenticated(
    draft: &mut Draft,
    alloc: Global,
    place: usize,
    vector: &Vector,
) -> Result<(), StepStop>
    ensures { Does result draft.new (authenticated place vector.now draft.old) }
{
    let command = security_mode_command(alloc, ksi_of(place), &draft.solo.asked.capability)?;
    new_context(draft, place, vector);
    draft.protect_and_await(alloc, NasTimer::T3460, SecurityHeader::NewContext, command)
}

#[tactic(auto, unfolding(crate::specs::Attaching::not_authenticated))]
fn not_authenticated(draft: &mut Draft, alloc: Global) -> Result<(), AllocError>
    ensures { OnOk result (draft.new ≡ not_authenticated draft.old) }
{
    let reject = authentication_reject(alloc)?;
    draft.send(alloc, reject.as_slice())?;
    draft.release(alloc, Cause::Nas(NasCause::AuthenticationFailure))?;
    draft.wipe();
    Ok(())
}

#[tactic(auto, unfolding(crate::specs::Attaching::response, crate::specs::Attaching::response_to))]
fn response(
    draft: &mut Draft,
    alloc: Global,
    setting: &Setting,
    vectors: &KeptVectors,
    res: &[u8],
) -> Result<(), StepStop>
    requires { HasFrom (draft.old.solo.next_vector - 1) setting.now.vectors vectors.now }
    ensures { Does result draft.new (response setting.now res.now draft.old) }
{
    let place = draft.solo.next_vector.saturating_sub(1);
    match vectors.get(place) {
        Some(vector) => {
            if same_octets(res, vector.xres.as_slice()) {
                authenticated(draft, alloc, place, vector)
            } else {
                or_stop(not_authenticated(draft, alloc))
            }
        }
        None => Ok(()),
    }
}

#[tactic(auto, unfolding(crate::specs::Attaching::failure))]
fn failure(
    draft: &mut Draft,
    alloc: Global,
    setting: &Setting,
    vectors: &KeptVectors,
    cause: u8,
) -> Result<(), AllocError>
    requires { HasFrom draft.old.solo.next_vector setting.now.vectors vectors.now }
    ensures { OnOk result (draft.new ≡ failure setting.now cause draft.old) }
{
    if cause == EmmCause::SynchFailure.code() {
        challenge(draft, alloc, setting, vectors)
    } else {
        not_authenticated(draft, alloc)
    }
}

// DETACH ACCEPT plain, unless the phone is switched off.
#[tactic(auto, unfolding(crate::specs::Attaching::detach_answered_plainly))]
fn detach_answered_plainly(
    draft: &mut Draft,
    alloc: Global,
    switch_off: bool,
) -> Result<(), AllocError>
    ensures { OnOk result (draft.new ≡ detach_answered_plainly switch_off draft.old) }
{
    if switch_off {
        return Ok(());
    }
    let accept = detach_accept(alloc)?;
    draft.send(alloc, accept.as_slice())
}

/// A DETACH REQUEST that no context can prove.
#[tactic(auto, unfolding(crate::specs::Attaching::detach_plainly))]
pub(crate) fn detach_plainly(
    draft: &mut Draft,
    alloc: Global,
    switch_off: bool,
) -> Result<(), AllocError>
    ensures { OnOk result (draft.new ≡ detach_plainly switch_off draft.old) }
{
    detach_answered_plainly(draft, alloc, switch_off)?;
    draft.release(alloc, Cause::Nas(NasCause::Detach))?;
    draft.wipe();
    Ok(())
}

#[tactic(auto, unfolding(crate::specs::Attaching::status_plainly))]
fn status_plainly(
    draft: &mut Draft,
    alloc: Global,
    cause: Option<EmmCause>,
) -> Result<(), AllocError>
    ensures { OnOk result (draft.new ≡ status_plainly cause draft.old) }
{
    let Some(cause) = cause else {
        return Ok(());
    };
    let status = emm_status(alloc, cause)?;
    draft.send(alloc, status.as_slice())
}

#[tactic(auto, using(identity_slots::specs::SpendingLaws::from_next_place), unfolding(crate::specs::Attaching::authenticating))]
fn authenticating(
    draft: &mut Draft,
    alloc: Global,
    setting: &Setting,
    vectors: &KeptVectors,
    message: &Heard<&[u8]>,
) -> Result<(), StepStop>
    requires { HasFrom (draft.old.solo.next_vector - 1) setting.now.vectors vectors.now }
    ensures { Does result draft.new (authenticating setting.now (heard_lists message.now) draft.old) }
{
    match message {
        Heard::AuthenticationResponse { res } => response(draft, alloc, setting, vectors, res),
        Heard::AuthenticationFailure { cause } => {
            or_stop(failure(draft, alloc, setting, vectors, *cause))
        }
        Heard::DetachRequest { switch_off } => or_stop(detach_plainly(draft, alloc, *switch_off)),
        Heard::Unasked => Ok(()),
        Heard::Unreadable(fault) => or_stop(status_plainly(draft, alloc, cause_of_fault(*fault))),
        Heard::AttachRequest {
            combined: _,
            capability: _,
            esm: _,
        }
        | Heard::TrackingAreaUpdateRequest { combined: _ }
        | Heard::ServiceRequest { octets: _ }
        | Heard::SecurityModeComplete
        | Heard::SecurityModeReject
        | Heard::AttachComplete { esm: _ }
        | Heard::TrackingAreaUpdateComplete
        | Heard::DetachAccept
        | Heard::Other => or_stop(status_plainly(draft, alloc, Some(EmmCause::NotCompatible))),
    }
}

/// NAS while the phone is authenticated: only plain messages are heard.
#[tactic(auto, unfolding(crate::specs::Attaching::in_authenticating))]
pub(crate) fn in_authenticating(
    draft: &mut Draft,
    alloc: Global,
    setting: &Setting,
    vectors: &KeptVectors,
    nas: &[u8],
) -> Result<(), StepStop>
    requires { HasFrom (draft.old.solo.next_vector - 1) setting.now.vectors vectors.now }
    ensures { Does result draft.new (in_authenticating setting.now nas.now draft.old) }
{
    if is_plain(nas) {
        let message = hear(nas);
        authenticating(draft, alloc, setting, vectors, &message)
    } else {
        Ok(())
    }
}

/// The slot's next M-TMSI.
#[tactic(auto, unfolding(crate::specs::Attaching::given_tmsi))]
pub(crate) fn given_tmsi(draft: &mut Draft, setting: &Setting) -> Tmsi
    ensures tmsi { result ≡ id_of_slot setting.now.slot (next_counter draft.old.solo.tmsis) }
    ensures given { draft.new ≡ given_tmsi setting.now draft.old }
{
    let (tmsi, counter) = draft.solo.tmsis.tmsi(setting.slot);
    draft.solo.tmsis = counter;
    draft.solo.tmsi = Some(tmsi);
    tmsi
}

/// ATTACH ACCEPT with the activation of the bearer, in INITIAL CONTEXT SETUP REQUEST.
#[tactic(auto, unfolding(crate::specs::Attaching::accept, crate::specs::Attaching::activating, crate::specs::Attaching::given_tmsi))]
pub(crate) fn accept(
    draft: &mut Draft,
    alloc: Global,
    setting: &Setting,
    kenb: Kenb,
) -> Result<(), StepStop>
    ensures { Does result draft.new (accept setting.now kenb draft.old) }
{
    let network = setting.network.get();
    let esm = draft
        .solo
        .bearer
        .activate(alloc, network.apn.as_slice(), setting.profile.address)?;
    let tmsi = given_tmsi(draft, setting);
    let grant = Grant {
        tmsi,
        tai: draft.solo.tai,
        combined: draft.solo.asked.combined_attach,
    };
    let message = attach_accept(alloc, network, grant, esm.as_slice())?;
    draft.solo.phase = Phase::Accepting;
    draft.set_up_with(alloc, setting, kenb, message.as_slice())?;
    draft.start(
        NasTimer::T3450,
        Repeat::Nas(
            Protection::Under(SecurityHeader::IntegrityProtectedCiphered),
            NasOctets::new(message),
        ),
    );
    Ok(())
}

#[tactic(auto, unfolding(crate::specs::Attaching::ask_information))]
fn ask_information(draft: &mut Draft, alloc: Global) -> Result<(), StepStop>
    ensures { Does result draft.new (ask_information draft.old) }
{
    let request = draft.solo.bearer.information_request(alloc)?;
    draft.solo.phase = Phase::EsmInformation;
    let header = SecurityHeader::IntegrityProtectedCiphered;
    draft.protect_and_await(alloc, NasTimer::T3489, header, request)
}

/// An uplink message was accepted under the count by the context that stands, and the radio keys follow from it; KeNB is returned.
#[tactic(auto, unfolding(crate::specs::Attaching::keyed, crate::specs::Attaching::took))]
pub(crate) fn keyed(draft: &mut Draft, count: u32) -> Kenb
    requires { IsSome draft.old.solo.context }
    ensures kenb { (x : Context) → draft.old.solo.context ≡ Some x → result ≡ kenb x.kasme count }
    ensures keyed { (x : Context) → draft.old.solo.context ≡ Some x → draft.new ≡ keyed x count draft.old }
{
    match &mut draft.solo.context {
        Some(context) => {
            let place = context.place;
            let radio = keys_of(&context.kasme, count);
            let kenb = radio.kenb.copy();
            context.radio = radio;
            draft.accepted = Some(Mark { place, count });
            kenb
        }
        None => unreachable!(),
    }
}

// SECURITY MODE COMPLETE, accepted by the context that stands.
#[tactic(auto, unfolding(crate::specs::Attaching::secured, crate::specs::Attaching::keyed, crate::specs::Attaching::took))]
fn secured(draft: &mut Draft, alloc: Global, setting: &Setting, count: u32) -> Result<(), StepStop>
    requires { IsSome draft.old.solo.context }
    ensures { (x : Context) → draft.old.solo.context ≡ Some x → Does result draft.new (secured setting.now x count draft.old) }
{
    let kenb = keyed(draft, count);
    if draft.solo.bearer.asks_information() {
        ask_information(draft, alloc)
    } else {
        accept(draft, alloc, setting, kenb)
    }
}

#[tactic(auto, unfolding(crate::specs::Attaching::not_secured))]
fn not_secured(draft: &mut Draft, alloc: Global, nas: &[u8]) -> Result<(), AllocError>
    ensures { OnOk result (draft.new ≡ not_secured nas.now draft.old) }
{
    if is_reject(nas) {
        draft.fall(alloc, Cause::Nas(NasCause::Unspecified))
    } else {
        Ok(())
    }
}

/// NAS while security mode is set: under the header of the new context, or a plain refusal.
#[tactic(auto, unfolding(crate::specs::Attaching::in_security_mode, crate::specs::Attaching::secured_by, crate::specs::Attaching::secured, crate::specs::Attaching::keyed, crate::specs::Attaching::took))]
pub(crate) fn in_security_mode(
    draft: &mut Draft,
    alloc: Global,
    setting: &Setting,
    nas: &[u8],
) -> Result<(), StepStop>
    ensures { Does result draft.new (in_security_mode setting.now nas.now draft.old) }
{
    match &mut draft.solo.context {
        None => or_stop(not_secured(draft, alloc, nas)),
        Some(context) => {
            match context.accept(nas, &[SecurityHeader::NewContextCiphered]) {
                Ok((mark, message)) => {
                    draft.accepted = Some(mark);
                    if is_complete(message) {
                        secured(draft, alloc, setting, mark.count)
                    } else {
                        Ok(())
                    }
                }
                Err(_) => or_stop(not_secured(draft, alloc, nas)),
            }
        }
    }
}
