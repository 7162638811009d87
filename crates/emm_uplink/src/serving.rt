//! The rows of a phone that is known: its INITIAL UE MESSAGEs, and its protected messages.

ghost use Rattle.std.specs.Prelude.{◌≡◌, OnOk, Some, None, IsSome};
ghost use Rattle.nas_security.specs.Accepting.{short_accepted};
ghost use Rattle.identity_slots.specs.Spending.{HasFrom};
ghost use Rattle.emm_state.specs.Actions.{mac_of, refuse};
ghost use Rattle.mme_signalling.specs.Messages.{service_reject, update_reject};
ghost use Rattle.emm_state.specs.Does.{Does};
ghost use Rattle.emm_state.specs.Taking.{vectors_spent};
ghost use Rattle.emm_state.specs.declared.solo.Context.{Context};
ghost use Rattle.mme_signalling.specs.Hearing.{heard_lists};
ghost use Rattle.emm_uplink.specs.Serving.{accepted_by_context, active, attach_completed, claim, claimed, detach, detach_answered, detached_by, entered, in_later, information_came, initial, initial_detach, initial_update, reacted, registered, served, served_by, service, status_protected, inner_message, inner_message_by, inner_emm, inner_esm, update, update_completed, update_grant, updated_by, updating, uplink};
ghost use Rattle.mme_types.specs.Events.{entry_lists};

use crate::attaching::{
    accept, attach, detach_plainly, given_tmsi, in_authenticating, in_security_mode, keyed,
};
use emm_state::{Draft, NasTimer, Phase, Setting, StepStop, is_registered, or_stop};
use esm_machine::Reaction;
use identity_slots::{AssociationId, KeptVectors};
use mme_signalling::{
    EmmCause, Grant, Heard, cause_of_fault, detach_accept, emm_status, hear, initial_octets,
    is_esm, service_reject, update_accept, update_reject,
};
use mme_types::Entry;
use nas_messages::SecurityHeader;
use s1ap_elements::{Cause, NasCause, Tai};
use std::alloc::{AllocError, Global};

// The headers of a message under a context in use.
const IN_USE: [SecurityHeader; 2] = [
    SecurityHeader::IntegrityProtected,
    SecurityHeader::IntegrityProtectedCiphered,
];

#[tactic(auto, unfolding(crate::specs::Serving::active))]
fn active(draft: &mut Draft, phase: Phase)
    ensures { draft.new ≡ active phase draft.old }
{
    draft.end_procedure();
    draft.solo.phase = phase;
    draft.solo.reachable = None;
}

fn refuse_service(
    draft: &mut Draft,
    alloc: Global,
    setting: &Setting,
    entry: &Entry<&[u8]>,
    cause: EmmCause,
) -> Result<(), AllocError>
    ensures { OnOk result
        (draft.new ≡ refuse setting.now.slot entry.now.station entry.now.enb_ue_id (service_reject cause) draft.old) }
{
    let reject = service_reject(alloc, cause)?;
    draft.refuse(
        alloc,
        setting.slot,
        entry.station,
        entry.enb_ue_id,
        reject.as_slice(),
    )
}

fn refuse_update(
    draft: &mut Draft,
    alloc: Global,
    setting: &Setting,
    entry: &Entry<&[u8]>,
    cause: EmmCause,
) -> Result<(), AllocError>
    ensures { OnOk result
        (draft.new ≡ refuse setting.now.slot entry.now.station entry.now.enb_ue_id (update_reject cause) draft.old) }
{
    let reject = update_reject(alloc, cause)?;
    draft.refuse(
        alloc,
        setting.slot,
        entry.station,
        entry.enb_ue_id,
        reject.as_slice(),
    )
}

// SERVICE REQUEST, accepted under the count by the context that stands.
#[tactic(auto, unfolding(crate::specs::Serving::served, crate::specs::Attaching::keyed, crate::specs::Attaching::took, crate::specs::Serving::active, emm_state::specs::Actions::ended))]
fn serve(
    draft: &mut Draft,
    alloc: Global,
    setting: &Setting,
    entry: &Entry<&[u8]>,
    count: u32,
) -> Result<(), AllocError>
    requires { IsSome draft.old.solo.context }
    ensures { (x : Context) → draft.old.solo.context ≡ Some x
        → OnOk result (draft.new ≡ served setting.now x (entry_lists entry.now) count draft.old) }
{
    draft.connect(alloc, setting.slot, entry.station, entry.enb_ue_id)?;
    active(draft, Phase::Registered);
    let kenb = keyed(draft, count);
    draft.set_up_alone(alloc, setting, kenb)
}

/// SERVICE REQUEST.
#[tactic(auto, unfolding(crate::specs::Serving::service, crate::specs::Serving::served_by))]
fn service(
    draft: &mut Draft,
    alloc: Global,
    setting: &Setting,
    entry: &Entry<&[u8]>,
    octets: &[u8; 4],
) -> Result<(), AllocError>
    ensures { OnOk result (draft.new ≡ service setting.now (entry_lists entry.now) octets.now draft.old) }
{
    if !is_registered(draft.solo.phase) {
        return refuse_service(draft, alloc, setting, entry, EmmCause::ImplicitlyDetached);
    }
    match &mut draft.solo.context {
        None => refuse_service(draft, alloc, setting, entry, EmmCause::IdentityNotDerived),
        Some(context) => match context.security.accept_short(octets) {
            Ok(count) => serve(draft, alloc, setting, entry, count),
            Err(_) => refuse_service(draft, alloc, setting, entry, EmmCause::IdentityNotDerived),
        },
    }
}

#[tactic(auto, unfolding(crate::specs::Serving::updating))]
fn updating(draft: &mut Draft, tai: Tai, initial: bool)
    ensures { draft.new ≡ updating tai initial draft.old }
{
    active(draft, Phase::Updating);
    draft.solo.tai = tai;
    draft.solo.asked.initial_update = initial;
}

// TRACKING AREA UPDATE ACCEPT with a new M-TMSI.
#[tactic(auto, unfolding(crate::specs::Serving::update, crate::specs::Serving::updating, crate::specs::Serving::active))]
fn update(
    draft: &mut Draft,
    alloc: Global,
    setting: &Setting,
    tai: Tai,
    combined: bool,
    initial: bool,
) -> Result<(), StepStop>
    ensures { Does result draft.new (update setting.now tai combined initial draft.old) }
{
    let tmsi = given_tmsi(draft, setting);
    updating(draft, tai, initial);
    let grant = Grant {
        tmsi,
        tai: draft.solo.tai,
        combined,
    };
    let message = update_accept(alloc, setting.network.get(), grant)?;
    let header = SecurityHeader::IntegrityProtectedCiphered;
    draft.protect_and_await(alloc, NasTimer::T3450, header, message)
}

/// TRACKING AREA UPDATE REQUEST in an INITIAL UE MESSAGE.
#[tactic(auto, unfolding(crate::specs::Serving::initial_update, crate::specs::Serving::updated_by))]
fn initial_update(
    draft: &mut Draft,
    alloc: Global,
    setting: &Setting,
    entry: &Entry<&[u8]>,
    combined: bool,
) -> Result<(), StepStop>
    ensures { Does result draft.new (initial_update setting.now (entry_lists entry.now) combined draft.old) }
{
    if !is_registered(draft.solo.phase) {
        return or_stop(refuse_update(draft, alloc, setting, entry, EmmCause::ImplicitlyDetached));
    }
    let refusal = EmmCause::IdentityNotDerived;
    match &mut draft.solo.context {
        None => or_stop(refuse_update(draft, alloc, setting, entry, refusal)),
        Some(context) => {
            match context.accept(entry.nas, &IN_USE) {
                Ok((mark, _)) => {
                    draft.accepted = Some(mark);
                    draft.connect(alloc, setting.slot, entry.station, entry.enb_ue_id)?;
                    update(draft, alloc, setting, entry.tai, combined, true)
                }
                Err(_) => or_stop(refuse_update(draft, alloc, setting, entry, refusal)),
            }
        }
    }
}

#[tactic(auto, unfolding(crate::specs::Serving::detach_answered))]
fn detach_answered(draft: &mut Draft, alloc: Global, switch_off: bool) -> Result<(), StepStop>
    ensures { Does result draft.new (detach_answered switch_off draft.old) }
{
    if switch_off {
        return Ok(());
    }
    let accept = detach_accept(alloc)?;
    draft.protect(
        alloc,
        SecurityHeader::IntegrityProtectedCiphered,
        accept.as_slice(),
    )
}

// A phone that is proved leaves.
#[tactic(auto, unfolding(crate::specs::Serving::detach))]
fn detach(draft: &mut Draft, alloc: Global, switch_off: bool) -> Result<(), StepStop>
    ensures { Does result draft.new (detach switch_off draft.old) }
{
    detach_answered(draft, alloc, switch_off)?;
    draft.release(alloc, Cause::Nas(NasCause::Detach))?;
    draft.wipe();
    Ok(())
}

/// DETACH REQUEST in an INITIAL UE MESSAGE.
#[tactic(auto, unfolding(crate::specs::Serving::initial_detach, crate::specs::Serving::detached_by))]
fn initial_detach(
    draft: &mut Draft,
    alloc: Global,
    setting: &Setting,
    entry: &Entry<&[u8]>,
    switch_off: bool,
) -> Result<(), StepStop>
    ensures { Does result draft.new (initial_detach setting.now (entry_lists entry.now) switch_off draft.old) }
{
    let (slot, station, enb_ue_id) = (setting.slot, entry.station, entry.enb_ue_id);
    if draft.solo.phase.is(Phase::Deregistered) {
        draft.connect(alloc, slot, station, enb_ue_id)?;
        return or_stop(detach_plainly(draft, alloc, switch_off));
    }
    match &mut draft.solo.context {
        None => or_stop(draft.turn_away(alloc, slot, station, enb_ue_id)),
        Some(context) => {
            match context.accept(entry.nas, &IN_USE) {
                Ok((mark, _)) => {
                    draft.accepted = Some(mark);
                    draft.connect(alloc, slot, station, enb_ue_id)?;
                    detach(draft, alloc, switch_off)
                }
                Err(_) => or_stop(draft.turn_away(alloc, slot, station, enb_ue_id)),
            }
        }
    }
}

#[tactic(auto, using(crate::proofs::Connecting::connect_next), unfolding(crate::specs::Serving::entered))]
fn entered(
    draft: &mut Draft,
    alloc: Global,
    setting: &Setting,
    vectors: &KeptVectors,
    entry: &Entry<&[u8]>,
    message: &Heard<&[u8]>,
) -> Result<(), StepStop>
    requires { HasFrom draft.old.solo.next_vector setting.now.vectors vectors.now }
    ensures { Does result draft.new (entered (heard_lists message.now) setting.now (entry_lists entry.now) draft.old) }
{
    match message {
        Heard::AttachRequest {
            combined,
            capability,
            esm,
        } => {
            draft.connect(alloc, setting.slot, entry.station, entry.enb_ue_id)?;
            or_stop(attach(
                draft,
                alloc,
                setting,
                vectors,
                *combined,
                *capability,
                esm,
                entry.tai,
            ))
        }
        Heard::ServiceRequest { octets } => or_stop(service(draft, alloc, setting, entry, octets)),
        Heard::TrackingAreaUpdateRequest { combined } => initial_update(
            draft, alloc, setting, entry, *combined,
        ),
        Heard::DetachRequest { switch_off } => {
            initial_detach(draft, alloc, setting, entry, *switch_off)
        }
        Heard::AuthenticationResponse { res: _ }
        | Heard::AuthenticationFailure { cause: _ }
        | Heard::SecurityModeComplete
        | Heard::SecurityModeReject
        | Heard::AttachComplete { esm: _ }
        | Heard::TrackingAreaUpdateComplete
        | Heard::DetachAccept
        | Heard::Unasked
        | Heard::Other
        | Heard::Unreadable(_) => Ok(()),
    }
}

/// INITIAL UE MESSAGE.
#[tactic(auto, unfolding(crate::specs::Serving::initial))]
pub fn initial(
    draft: &mut Draft,
    alloc: Global,
    setting: &Setting,
    vectors: &KeptVectors,
    entry: &Entry<&[u8]>,
) -> Result<(), StepStop>
    requires { HasFrom draft.old.solo.next_vector setting.now.vectors vectors.now }
    ensures { Does result draft.new (initial setting.now (entry_lists entry.now) draft.old) }
{
    let message = hear(initial_octets(entry.nas));
    entered(draft, alloc, setting, vectors, entry, &message)
}

#[tactic(auto, using(crate::proofs::Connecting::connect_on_next), unfolding(crate::specs::Serving::claimed))]
fn claimed(
    draft: &mut Draft,
    alloc: Global,
    setting: &Setting,
    vectors: &KeptVectors,
    id: AssociationId,
    entry: &Entry<&[u8]>,
    message: &Heard<&[u8]>,
) -> Result<(), AllocError>
    requires { HasFrom draft.old.solo.next_vector setting.now.vectors vectors.now }
    ensures { OnOk result (draft.new ≡ claimed (heard_lists message.now) setting.now id (entry_lists entry.now) draft.old) }
{
    match message {
        Heard::AttachRequest {
            combined,
            capability,
            esm,
        } => {
            draft.connect_on(alloc, id, entry.station, entry.enb_ue_id)?;
            attach(
                draft,
                alloc,
                setting,
                vectors,
                *combined,
                *capability,
                esm,
                entry.tai,
            )
        }
        Heard::ServiceRequest { octets: _ }
        | Heard::TrackingAreaUpdateRequest { combined: _ }
        | Heard::DetachRequest { switch_off: _ }
        | Heard::AuthenticationResponse { res: _ }
        | Heard::AuthenticationFailure { cause: _ }
        | Heard::SecurityModeComplete
        | Heard::SecurityModeReject
        | Heard::AttachComplete { esm: _ }
        | Heard::TrackingAreaUpdateComplete
        | Heard::DetachAccept
        | Heard::Unasked
        | Heard::Other
        | Heard::Unreadable(_) => Ok(()),
    }
}

/// A stranger's message that is now known to be this subscriber's.
#[tactic(auto, unfolding(crate::specs::Serving::claim))]
pub fn claim(
    draft: &mut Draft,
    alloc: Global,
    setting: &Setting,
    vectors: &KeptVectors,
    id: AssociationId,
    entry: &Entry<&[u8]>,
) -> Result<(), AllocError>
    requires { HasFrom draft.old.solo.next_vector setting.now.vectors vectors.now }
    ensures { OnOk result (draft.new ≡ claim setting.now id (entry_lists entry.now) draft.old) }
{
    let message = hear(initial_octets(entry.nas));
    claimed(draft, alloc, setting, vectors, id, entry, &message)
}

#[tactic(auto, unfolding(crate::specs::Serving::status_protected))]
fn status_protected(
    draft: &mut Draft,
    alloc: Global,
    cause: Option<EmmCause>,
) -> Result<(), StepStop>
    ensures { Does result draft.new (status_protected cause draft.old) }
{
    let Some(cause) = cause else {
        return Ok(());
    };
    let status = emm_status(alloc, cause)?;
    draft.protect(
        alloc,
        SecurityHeader::IntegrityProtectedCiphered,
        status.as_slice(),
    )
}

#[tactic(auto, unfolding(crate::specs::Serving::registered))]
fn registered(draft: &mut Draft)
    ensures { draft.new ≡ registered draft.old }
{
    draft.end_procedure();
    draft.solo.phase = Phase::Registered;
}

#[tactic(auto, unfolding(crate::specs::Serving::attach_completed))]
fn attach_completed(draft: &mut Draft, alloc: Global, esm: &[u8]) -> Result<(), AllocError>
    ensures { OnOk result (draft.new ≡ attach_completed esm.now draft.old) }
{
    if draft.solo.bearer.on_accept(esm) {
        registered(draft);
        Ok(())
    } else {
        draft.fall(alloc, Cause::Nas(NasCause::Unspecified))
    }
}

#[tactic(auto, unfolding(crate::specs::Serving::update_completed))]
fn update_completed(draft: &mut Draft, alloc: Global) -> Result<(), AllocError>
    ensures { OnOk result (draft.new ≡ update_completed draft.old) }
{
    let initial = draft.solo.asked.initial_update;
    registered(draft);
    if initial {
        draft.fall(alloc, Cause::Nas(NasCause::NormalRelease))
    } else {
        Ok(())
    }
}

#[tactic(auto, unfolding(crate::specs::Serving::inner_emm))]
fn inner_emm(
    draft: &mut Draft,
    alloc: Global,
    setting: &Setting,
    tai: Tai,
    message: &Heard<&[u8]>,
) -> Result<(), StepStop>
    ensures { Does result draft.new (inner_emm (heard_lists message.now) setting.now tai draft.old) }
{
    let phase = draft.solo.phase;
    match message {
        Heard::AttachComplete { esm } if phase.is(Phase::Accepting) => {
            or_stop(attach_completed(draft, alloc, esm))
        }
        Heard::TrackingAreaUpdateComplete if phase.is(Phase::Updating) => {
            or_stop(update_completed(draft, alloc))
        }
        Heard::TrackingAreaUpdateRequest { combined } if phase.is(Phase::Registered) => {
            update(draft, alloc, setting, tai, *combined, false)
        }
        Heard::DetachRequest { switch_off } => detach(draft, alloc, *switch_off),
        Heard::DetachAccept if phase.is(Phase::Detaching) => {
            draft.release(alloc, Cause::Nas(NasCause::Detach))?;
            draft.wipe();
            Ok(())
        }
        Heard::Unasked => Ok(()),
        Heard::Unreadable(fault) => status_protected(draft, alloc, cause_of_fault(*fault)),
        Heard::AttachRequest {
            combined: _,
            capability: _,
            esm: _,
        }
        | Heard::ServiceRequest { octets: _ }
        | Heard::AuthenticationResponse { res: _ }
        | Heard::AuthenticationFailure { cause: _ }
        | Heard::SecurityModeComplete
        | Heard::SecurityModeReject
        | Heard::AttachComplete { esm: _ }
        | Heard::TrackingAreaUpdateComplete
        | Heard::TrackingAreaUpdateRequest { combined: _ }
        | Heard::DetachAccept
        | Heard::Other => status_protected(draft, alloc, Some(EmmCause::NotCompatible)),
    }
}

#[tactic(auto, unfolding(crate::specs::Serving::information_came))]
fn information_came(draft: &mut Draft, alloc: Global, setting: &Setting) -> Result<(), StepStop>
    ensures { Does result draft.new (information_came setting.now draft.old) }
{
    let Some(context) = &draft.solo.context else {
        return Ok(());
    };
    let kenb = context.radio.kenb.copy();
    accept(draft, alloc, setting, kenb)
}

#[tactic(auto, unfolding(crate::specs::Serving::inner_esm, crate::specs::Serving::reacted))]
fn inner_esm(
    draft: &mut Draft,
    alloc: Global,
    setting: &Setting,
    octets: &[u8],
) -> Result<(), StepStop>
    ensures { Does result draft.new (inner_esm octets.now setting.now draft.old) }
{
    let waiting = draft.solo.phase.is(Phase::EsmInformation);
    match draft.solo.bearer.on_message(alloc, octets, waiting)? {
        Reaction::Nothing => Ok(()),
        Reaction::Informed => information_came(draft, alloc, setting),
        Reaction::Answer(answer) => draft.protect(
            alloc,
            SecurityHeader::IntegrityProtectedCiphered,
            answer.as_slice(),
        ),
    }
}

#[tactic(auto, unfolding(crate::specs::Serving::inner_message))]
fn inner_message(
    draft: &mut Draft,
    alloc: Global,
    setting: &Setting,
    tai: Tai,
    octets: &[u8],
) -> Result<(), StepStop>
    ensures { Does result draft.new (inner_message octets.now setting.now tai draft.old) }
{
    if is_esm(octets) {
        return inner_esm(draft, alloc, setting, octets);
    }
    let message = hear(octets);
    inner_emm(draft, alloc, setting, tai, &message)
}

#[tactic(auto, unfolding(crate::specs::Serving::in_later, crate::specs::Serving::inner_message_by, crate::specs::Attaching::took))]
fn in_later(
    draft: &mut Draft,
    alloc: Global,
    setting: &Setting,
    tai: Tai,
    nas: &[u8],
) -> Result<(), StepStop>
    ensures { Does result draft.new (in_later setting.now tai nas.now draft.old) }
{
    match &mut draft.solo.context {
        None => Ok(()),
        Some(context) => {
            match context.accept(nas, &IN_USE) {
                Ok((mark, message)) => {
                    draft.accepted = Some(mark);
                    inner_message(draft, alloc, setting, tai, message)
                }
                Err(_) => Ok(()),
            }
        }
    }
}

/// What an UPLINK NAS TRANSPORT of a known phone does, by its phase (TS 24.301 clause 4.4.4.3). Refused where memory is, or where
/// the context's counts are spent.
#[tactic(auto, using(emm_state::specs::TakingLaws::from_challenged), unfolding(crate::specs::Serving::uplink))]
pub fn uplink(
    draft: &mut Draft,
    alloc: Global,
    setting: &Setting,
    vectors: &KeptVectors,
    tai: Tai,
    nas: &[u8],
) -> Result<(), StepStop>
    requires { HasFrom (vectors_spent draft.old.solo) setting.now.vectors vectors.now }
    ensures { Does result draft.new (uplink draft.old.solo.phase setting.now tai nas.now draft.old) }
{
    match draft.solo.phase {
        Phase::Deregistered => Ok(()),
        Phase::Authenticating => in_authenticating(draft, alloc, setting, vectors, nas),
        Phase::SecurityMode => in_security_mode(draft, alloc, setting, nas),
        Phase::EsmInformation
        | Phase::Accepting
        | Phase::Updating
        | Phase::Registered
        | Phase::Detaching => in_later(draft, alloc, setting, tai, nas),
    }
}
