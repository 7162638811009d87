//! Ticks that end no countdown.

ghost use Rattle.std.specs.Prelude.{◌≡◌};
ghost use Rattle.emm_machine.specs.Ticks.{AreAbove, IsAbove, countdowns, less, procedure_less, solo_aged};
ghost use Rattle.emm_machine.specs.Words.{procedure_left};

use emm_state::{Countdown, Solo};

fn less(left: Option<u32>, ticks: u64) -> Option<u32>
    requires { IsAbove ticks left }
    ensures { result ≡ less ticks left }
{
    match left {
        Some(left) => Some(left - ticks as u32),
        None => None,
    }
}

fn procedure_less(procedure: Option<Countdown>, ticks: u64) -> Option<Countdown>
    requires { IsAbove ticks (procedure_left procedure) }
    ensures { result ≡ procedure_less ticks procedure }
{
    match procedure {
        Some(countdown) => Some(Countdown {
            timer: countdown.timer,
            left: countdown.left - ticks as u32,
            repeats: countdown.repeats,
        }),
        None => None,
    }
}

/// As many ticks less in each countdown that runs, which has more left.
#[tactic(auto, unfolding(crate::specs::Ticks::countdowns, crate::specs::Ticks::solo_aged))]
pub(crate) fn age(solo: &mut Solo, ticks: u64)
    requires { AreAbove ticks (countdowns solo.old) }
    ensures { solo.new ≡ solo_aged ticks solo.old }
{
    solo.procedure = procedure_less(solo.procedure, ticks);
    solo.reachable = less(solo.reachable, ticks);
}
