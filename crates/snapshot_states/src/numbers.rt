//! Numbers of a snapshot that stand for something else.

ghost use Rattle.std.specs.Prelude.{◌≡◌, ◌<◌, ◌≤◌};
ghost use Rattle.snapshot_states.specs.States.{named_phase, named_timer};

use emm_state::{NasTimer, Phase};
use per_bits::Whole;
use snapshot_formats::{PhaseNumber, TimerNumber};

/// The phase of a number.
#[tactic(auto, unfolding(crate::specs::States::named_phase))]
pub(crate) fn phase_of(number: PhaseNumber) -> Phase
    ensures { result ≡ named_phase number }
{
    match number.get() {
        0 => Phase::Deregistered,
        1 => Phase::Authenticating,
        2 => Phase::SecurityMode,
        3 => Phase::EsmInformation,
        4 => Phase::Accepting,
        5 => Phase::Updating,
        6 => Phase::Registered,
        _ => Phase::Detaching,
    }
}

/// The timer of a number.
#[tactic(auto, unfolding(crate::specs::States::named_timer))]
pub(crate) fn timer_of(number: TimerNumber) -> NasTimer
    ensures { result ≡ named_timer number }
{
    match number.get() {
        0 => NasTimer::T3413,
        1 => NasTimer::T3422,
        2 => NasTimer::T3450,
        3 => NasTimer::T3460,
        _ => NasTimer::T3489,
    }
}

/// The number of a phase.
#[tactic(auto, unfolding(crate::specs::States::named_phase))]
pub(crate) fn phase_number(phase: Phase) -> PhaseNumber
    ensures { named_phase result ≡ phase }
{
    match phase {
        Phase::Deregistered => Whole::new(0),
        Phase::Authenticating => Whole::new(1),
        Phase::SecurityMode => Whole::new(2),
        Phase::EsmInformation => Whole::new(3),
        Phase::Accepting => Whole::new(4),
        Phase::Updating => Whole::new(5),
        Phase::Registered => Whole::new(6),
        Phase::Detaching => Whole::new(7),
    }
}

/// The number of a timer.
#[tactic(auto, unfolding(crate::specs::States::named_timer))]
pub(crate) fn timer_number(timer: NasTimer) -> TimerNumber
    ensures { named_timer result ≡ timer }
{
    match timer {
        NasTimer::T3413 => Whole::new(0),
        NasTimer::T3422 => Whole::new(1),
        NasTimer::T3450 => Whole::new(2),
        NasTimer::T3460 => Whole::new(3),
        NasTimer::T3489 => Whole::new(4),
    }
}
