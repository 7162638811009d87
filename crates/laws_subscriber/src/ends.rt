//! What ends of itself, over runs of one subscriber's machine and of a stranger's. Each law is the contract of a function that does
//! nothing.

ghost use Rattle.emm_machine.specs.Words.{fresh_solo};
ghost use Rattle.laws_subscriber.specs.Clocked.{ClockedRuns, IsClocked, StaysClocked};
ghost use Rattle.laws_subscriber.specs.Silent.{SilentEnds, SilentIsForgotten};
ghost use Rattle.laws_subscriber.specs.Strangers.{ClosedInTime, ClosedWhenDue, StaysTimed, TickTakesOne};
ghost use Rattle.laws_subscriber.specs.Ends.{AllElseEnds, EndsInTime, EndsWhenDue, IdleEnds};

/// Over every run of a subscriber who was never seen, each phase has the countdown of its procedure and no other: T3460 while a
/// phone is challenged or completes the security mode, T3489 while it is asked for ESM information, T3450 while an attach or an
/// update waits to be completed, T3422 while it detaches; registered and idle, the reachable countdown, with T3413 while it is
/// paged. At least one tick and at most the timer's length is left, and at most the timer's number of repeats.
pub fn clocks_are_kept()
    ensures fresh { IsClocked fresh_solo }
    ensures run { StaysClocked }
    ensures running { ClockedRuns }
{}

/// A procedure to which nothing but time comes is over in as many ticks as are due, which are at most 30 (12 if ESM information is
/// asked for, 20 if the phone is paged; `most_ticks`): the phone is then registered or deregistered (TS 24.301 clause 10.2).
pub fn procedures_end()
    ensures due { EndsWhenDue }
    ensures most { EndsInTime }
{}

/// A phone that is registered and idle and to which nothing but time comes is deregistered in 3,480 ticks, and any other in 3,510
/// (`longest_registration`), unless it is registered and connected, which ticks don't change (TS 24.301 clause 5.3.5).
pub fn idle_phones_are_forgotten()
    ensures idle { IdleEnds }
    ensures all { AllElseEnds }
{}

/// Over every list of items in which the phone says nothing, no data comes for it and its subscription stays, a procedure is over
/// within its most ticks, and a phone that wasn't registered and connected is deregistered within 3,510 ticks.
pub fn silent_phones_end()
    ensures procedure { SilentEnds }
    ensures forgotten { SilentIsForgotten }
{}

/// A stranger that is asked for its identity has a tick of T3470 left and no more than its length, and no more repeats than it has,
/// over every run; each tick takes one from what is due, and after 30, if nothing else comes, it is closed (TS 24.301 clause 10.2).
pub fn strangers_are_closed()
    ensures run { StaysTimed }
    ensures tick { TickTakesOne }
    ensures due { ClosedWhenDue }
    ensures most { ClosedInTime }
{}
