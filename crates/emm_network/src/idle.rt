//! The rows of paging, of countdowns and of a withdrawn subscription.

ghost use Rattle.std.specs.Prelude.{◌≡◌, ◌<◌, IfOk, OnOk, Some, None};
ghost use Rattle.std.specs.Borrow.{Bor};
ghost use Rattle.s1ap_pdus.specs.Pdus.{lists};
ghost use Rattle.emm_state.specs.Does.{Does};
ghost use Rattle.emm_network.specs.Idle.{again, cancelled, covers, data_waits, detach_phone, dropped, emit_each, expired, given_up, listening, listens, lower, lowered, may_page, page, paged, procedure_ticks, reachable_ticks_out, restarted, some_covers, tick};

use emm_state::{
    Countdown, Draft, NasTimer, Phase, Protection, Repeat, Setting, Stations, StepStop, or_stop,
};
use mme_signalling::{network_detach, paging};
use mme_types::{EnbWorld, StationNumber, StationState, is_broadcast};
use nas_messages::SecurityHeader;
use s1ap_elements::{Cause, NasCause, SupportedTa, Tai};
use s1ap_pdus::S1apPdu;
use std::alloc::{AllocError, Global};

fn covers(tai: &Tai, area: &SupportedTa) -> bool
    ensures { result ≡ covers tai.now area.now }
{
    area.tac == tai.tac && is_broadcast(tai.plmn, area.plmns.as_slice())
}

fn some_covers(tai: &Tai, areas: &[SupportedTa]) -> bool
    ensures { result ≡ some_covers tai.now areas.now }
{
    areas.iter().any(|area| covers(tai, area))
}

fn listens(tai: &Tai, state: &StationState) -> bool
    ensures { result ≡ listens tai.now state.now }
{
    match state {
        StationState::Down | StationState::Up => false,
        StationState::Ready(areas) => some_covers(tai, areas.as_slice()),
    }
}

// The stations that broadcast a tracking area, by number.
fn listening(alloc: Global, tai: &Tai, world: &EnbWorld) -> Result<Stations, AllocError>
    ensures { IfOk result (λ es. es ≡ listening tai.now 0 world.now) }
{
    let states = world.as_slice();
    let mut numbers = Vec::new(alloc);
    for number in 0..128u8 {
        if listens(tai, &states[number as usize]) {
            numbers.push(StationNumber::new(number))?;
        }
    }
    Ok(Stations::new(numbers))
}

// The message to each station.
fn emit_each(
    draft: &mut Draft,
    alloc: Global,
    message: &S1apPdu,
    stations: &[StationNumber],
) -> Result<(), AllocError>
    ensures { OnOk result (draft.new ≡ emit_each (lists message.now) stations.now draft.old) }
{
    for station in stations {
        draft.emit_lent(alloc, *station, message, None)?;
    }
    Ok(())
}

// PAGING by the S-TMSI to each station.
#[tactic(auto, unfolding(crate::specs::Idle::page))]
fn page(
    draft: &mut Draft,
    alloc: Global,
    setting: &Setting,
    stations: &Stations,
) -> Result<(), AllocError>
    ensures { OnOk result (draft.new ≡ page setting.now stations.now draft.old) }
{
    let Some(tmsi) = draft.solo.tmsi else {
        return Ok(());
    };
    let message = paging(
        alloc,
        setting.network.get(),
        setting.profile.imsi,
        tmsi,
        draft.solo.tai,
    )?;
    emit_each(draft, alloc, &message, stations.as_slice())
}

fn may_page(draft: &Draft) -> bool
    ensures { result ≡ may_page draft.now }
{
    draft.solo.phase.is(Phase::Registered)
        && draft.solo.connection.is_none()
        && draft.solo.procedure.is_none()
}

/// Downlink data waits.
#[tactic(auto, unfolding(crate::specs::Idle::data_waits, crate::specs::Idle::paged))]
pub fn data_waits(
    draft: &mut Draft,
    alloc: Global,
    setting: &Setting,
    world: &EnbWorld,
) -> Result<(), AllocError>
    ensures { OnOk result (draft.new ≡ data_waits setting.now world.now draft.old) }
{
    if !may_page(draft) {
        return Ok(());
    }
    let stations = listening(alloc, &draft.solo.tai, world)?;
    page(draft, alloc, setting, &stations)?;
    draft.start(NasTimer::T3413, Repeat::Paging(stations));
    Ok(())
}

// One from each countdown.
#[tactic(auto, unfolding(crate::specs::Idle::lowered))]
fn lowered(draft: &mut Draft)
    ensures { draft.new ≡ lowered draft.old }
{
    if let Some(countdown) = draft.solo.procedure {
        draft.solo.procedure = Some(Countdown {
            timer: countdown.timer,
            left: countdown.left.saturating_sub(1),
            repeats: countdown.repeats,
        });
    }
    if let Some(left) = draft.solo.reachable {
        draft.solo.reachable = Some(left.saturating_sub(1));
    }
}

#[tactic(auto, unfolding(crate::specs::Idle::given_up))]
fn given_up(draft: &mut Draft, alloc: Global, timer: NasTimer) -> Result<(), AllocError>
    ensures { OnOk result (draft.new ≡ given_up timer draft.old) }
{
    match timer {
        NasTimer::T3413 => {
            draft.end_procedure();
            Ok(())
        }
        NasTimer::T3422 | NasTimer::T3450 | NasTimer::T3460 | NasTimer::T3489 => {
            draft.fall(alloc, Cause::Nas(NasCause::Unspecified))
        }
    }
}

// What was kept is sent again.
#[tactic(auto, unfolding(crate::specs::Idle::again))]
fn again(
    draft: &mut Draft,
    alloc: Global,
    setting: &Setting,
    repeat: &Repeat,
) -> Result<(), StepStop>
    ensures { Does result draft.new (again repeat.now setting.now draft.old) }
{
    match repeat {
        Repeat::Nas(Protection::Plain, nas) => or_stop(draft.send(alloc, nas.as_slice())),
        Repeat::Nas(Protection::Under(header), nas) => {
            draft.protect(alloc, *header, nas.as_slice())
        }
        Repeat::Paging(stations) => or_stop(page(draft, alloc, setting, stations)),
    }
}

#[tactic(auto, unfolding(crate::specs::Idle::expired, crate::specs::Idle::restarted))]
fn expired(
    draft: &mut Draft,
    alloc: Global,
    setting: &Setting,
    countdown: Countdown,
) -> Result<(), StepStop>
    ensures { Does result draft.new (expired countdown setting.now draft.old) }
{
    if countdown.repeats == 0 {
        return or_stop(given_up(draft, alloc, countdown.timer));
    }
    let repeat = match &draft.solo.repeat {
        Some(repeat) => repeat.copy(alloc)?,
        None => return Ok(()),
    };
    draft.solo.procedure = Some(Countdown {
        timer: countdown.timer,
        left: countdown.timer.ticks(),
        repeats: countdown.repeats - 1,
    });
    again(draft, alloc, setting, &repeat)
}

#[tactic(auto, unfolding(crate::specs::Idle::procedure_ticks))]
fn procedure_ticks(draft: &mut Draft, alloc: Global, setting: &Setting) -> Result<(), StepStop>
    ensures { Does result draft.new (procedure_ticks setting.now draft.old) }
{
    match draft.solo.procedure {
        Some(countdown) if countdown.left == 0 => expired(draft, alloc, setting, countdown),
        Some(_) | None => Ok(()),
    }
}

#[tactic(auto, unfolding(crate::specs::Idle::reachable_ticks_out))]
fn reachable_ticks_out(draft: &mut Draft)
    ensures { draft.new ≡ reachable_ticks_out draft.old }
{
    if let Some(0) = draft.solo.reachable {
        draft.wipe();
    }
}

/// A second has passed.
#[tactic(auto, unfolding(crate::specs::Idle::tick))]
pub fn tick(draft: &mut Draft, alloc: Global, setting: &Setting) -> Result<(), StepStop>
    ensures { Does result draft.new (tick setting.now draft.old) }
{
    lowered(draft);
    procedure_ticks(draft, alloc, setting)?;
    reachable_ticks_out(draft);
    Ok(())
}

// DETACH REQUEST of the network.
#[tactic(auto, unfolding(crate::specs::Idle::detach_phone))]
fn detach_phone(draft: &mut Draft, alloc: Global) -> Result<(), StepStop>
    ensures { Does result draft.new (detach_phone draft.old) }
{
    let request = network_detach(alloc)?;
    draft.solo.phase = Phase::Detaching;
    let header = SecurityHeader::IntegrityProtectedCiphered;
    draft.protect_and_await(alloc, NasTimer::T3422, header, request)
}

fn dropped(draft: &mut Draft, alloc: Global) -> Result<(), AllocError>
    ensures { OnOk result (draft.new ≡ dropped draft.old) }
{
    draft.release(alloc, Cause::Nas(NasCause::Detach))?;
    draft.wipe();
    Ok(())
}

/// The subscription is withdrawn.
#[tactic(auto, unfolding(crate::specs::Idle::cancelled))]
pub fn cancelled(draft: &mut Draft, alloc: Global) -> Result<(), StepStop>
    ensures { Does result draft.new (cancelled draft.old.solo.phase draft.old) }
{
    match draft.solo.phase {
        Phase::Registered => {
            if draft.solo.connection.is_some() {
                detach_phone(draft, alloc)
            } else {
                draft.wipe();
                Ok(())
            }
        }
        Phase::Updating => detach_phone(draft, alloc),
        Phase::Authenticating | Phase::SecurityMode | Phase::EsmInformation | Phase::Accepting =>
            or_stop(dropped(draft, alloc)),
        Phase::Deregistered | Phase::Detaching => Ok(()),
    }
}
