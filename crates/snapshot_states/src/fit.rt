//! Which states a phone's machine can be in.

ghost use Rattle.std.specs.Prelude.{◌≡◌};
ghost use Rattle.laws_subscriber.specs.Clocked.{is_paging, pages};
ghost use Rattle.laws_subscriber.specs.Sound.{has_security_header};
ghost use Rattle.snapshot_states.specs.Fit.{is, is_at_rest, is_awaited, is_clocked, is_counting, is_kept_for, is_paged_at_most, is_plain, is_state, is_under_way, none_runs, fits_challenge};
ghost use Rattle.snapshot_states.specs.Saving.{with_clocks};

use crate::saving::Clocks;
use emm_state::{Countdown, NasTimer, Phase, Protection, Repeat, Solo};
use nas_messages::timers;

// Whether a NAS message begins with a security header, of a type from 1 to 4 (TS 24.301 clause 9.3.1).
#[tactic(auto, unfolding(nas_messages::specs::Protection::header_of))]
fn has_security_header(nas: &[u8]) -> bool
    ensures { result ≡ has_security_header nas.now }
{
    match nas {
        [] => false,
        [first, ..] => first % 16 == 7 && 1 <= first / 16 && first / 16 <= 4,
    }
}

// Whether a message that is sent again without protection has no security header.
fn is_plain(repeat: &Option<Repeat>) -> bool
    ensures { result ≡ is_plain repeat.now }
{
    match repeat {
        Some(Repeat::Nas(Protection::Plain, nas)) => !has_security_header(nas.as_slice()),
        Some(Repeat::Nas(Protection::Under(_), _)) | Some(Repeat::Paging(_)) | None => true,
    }
}

// Whether PAGING is sent again.
fn is_paging(repeat: &Repeat) -> bool
    ensures { result ≡ is_paging repeat.now }
{
    match repeat {
        Repeat::Paging(_) => true,
        Repeat::Nas(_, _) => false,
    }
}

// Whether the timer is that of paging.
fn pages(timer: NasTimer) -> bool
    ensures { result ≡ pages timer }
{
    match timer {
        NasTimer::T3413 => true,
        NasTimer::T3422 | NasTimer::T3450 | NasTimer::T3460 | NasTimer::T3489 => false,
    }
}

// Whether a timer is this one.
fn is(timer: NasTimer, other: NasTimer) -> bool
    ensures { result ≡ is timer other }
{
    timer == other
}

// Whether the timer's message is kept.
fn is_kept_for(timer: NasTimer, repeat: &Option<Repeat>) -> bool
    ensures { result ≡ is_kept_for timer repeat.now }
{
    match repeat {
        Some(again) => if pages(timer) {
            is_paging(again)
        } else {
            !is_paging(again)
        },
        None => false,
    }
}

// Whether the timer's countdown runs.
fn is_counting(timer: NasTimer, procedure: Option<Countdown>, repeat: &Option<Repeat>) -> bool
    ensures { result ≡ is_counting timer procedure repeat.now }
{
    match procedure {
        Some(countdown) => {
            is(timer, countdown.timer)
                && 0 < countdown.left
                && countdown.left <= timer.ticks()
                && countdown.repeats <= timer.repeats()
                && is_kept_for(timer, repeat)
        }
        None => false,
    }
}

// Whether its procedure is under way.
fn is_under_way(timer: NasTimer, solo: &Solo, clocks: Clocks) -> bool
    ensures { result ≡ is_under_way timer (with_clocks clocks solo.now) }
{
    solo.connection.is_some()
        && is_counting(timer, clocks.procedure, &solo.repeat)
        && clocks.reachable.is_none()
}

// Whether no countdown runs.
fn none_runs(solo: &Solo, clocks: Clocks) -> bool
    ensures { result ≡ none_runs (with_clocks clocks solo.now) }
{
    clocks.procedure.is_none() && solo.repeat.is_none() && clocks.reachable.is_none()
}

// Whether no procedure is under way, or the phone is paged.
fn is_paged_at_most(procedure: Option<Countdown>, repeat: &Option<Repeat>) -> bool
    ensures { result ≡ is_paged_at_most procedure repeat.now }
{
    match procedure {
        Some(_) => is_counting(NasTimer::T3413, procedure, repeat),
        None => repeat.is_none(),
    }
}

// Whether the mobile reachable timer runs.
fn is_awaited(reachable: Option<u32>) -> bool
    ensures { result ≡ is_awaited reachable }
{
    match reachable {
        Some(left) => 0 < left && left <= timers::MOBILE_REACHABLE_TICKS,
        None => false,
    }
}

// Whether the countdowns are those of a registered phone.
fn is_at_rest(solo: &Solo, clocks: Clocks) -> bool
    ensures { result ≡ is_at_rest solo.now.connection (with_clocks clocks solo.now) }
{
    match solo.connection {
        Some(_) => none_runs(solo, clocks),
        None => is_paged_at_most(clocks.procedure, &solo.repeat) && is_awaited(clocks.reachable),
    }
}

// Whether the countdowns of its phase run and no others.
fn is_clocked(solo: &Solo, clocks: Clocks) -> bool
    ensures { result ≡ is_clocked solo.now.phase (with_clocks clocks solo.now) }
{
    match solo.phase {
        Phase::Deregistered => solo.connection.is_none() && none_runs(solo, clocks),
        Phase::Authenticating | Phase::SecurityMode => is_under_way(NasTimer::T3460, solo, clocks),
        Phase::EsmInformation => is_under_way(NasTimer::T3489, solo, clocks),
        Phase::Accepting | Phase::Updating => is_under_way(NasTimer::T3450, solo, clocks),
        Phase::Registered => is_at_rest(solo, clocks),
        Phase::Detaching => is_under_way(NasTimer::T3422, solo, clocks),
    }
}

// Whether the first vector that isn't spent is there for a challenge that is out.
fn fits_challenge(phase: Phase, unspent: usize) -> bool
    ensures { result ≡ fits_challenge phase unspent }
{
    match phase {
        Phase::Authenticating => 0 < unspent,
        _ => true,
    }
}

// Whether, with these countdowns, it is a state that a phone's machine can be in which has so many vectors that aren't spent: what
// is sent again and the countdowns that run are those of its phase (TS 24.301 clause 10.2). The context is left aside.
#[tactic(auto, unfolding(crate::specs::Fit::is_state))]
pub(crate) fn is_state(solo: &Solo, clocks: Clocks, unspent: usize) -> bool
    ensures { result ≡ is_state unspent (with_clocks clocks solo.now) }
{
    fits_challenge(solo.phase, unspent) && is_plain(&solo.repeat) && is_clocked(solo, clocks)
}
