//! The countdowns of slots in the queue of deadlines.

ghost use Rattle.std.specs.Prelude.{◌≡◌, ◌+◌, ◌≤◌};
ghost use Rattle.timer_queue.specs.declared.timer.TimerOwner.TheVariants.{Subscriber};
ghost use Rattle.timer_queue.specs.Countdowns.{ticks_left};
ghost use Rattle.mme_tables.specs.Running.{both_retimed, retimed, AreInRange, AreQueued, IsInRange};

use timer_queue::{Kind, TimerOwner, Timers};

// A slot's countdown is as it is to be, where it is known what it was; takes no memory. One that is so already stays in its place,
// and nothing is searched.
#[inline(always)]
fn retime_one(timers: &mut Timers, slot: u32, kind: Kind, before: Option<u64>, left: Option<u64>)
    requires range { IsInRange left }
    requires known { ticks_left (Subscriber slot) kind timers.old.running ≡ before }
    requires room { 1 ≤ timers.old.room }
    ensures clock { timers.new.clock ≡ timers.old.clock }
    ensures running { timers.new.running ≡ retimed slot kind left timers.old.running }
    ensures room { timers.old.room ≤ timers.new.room + 1 }
{
    let owner = TimerOwner::Subscriber(slot);
    if before == left {
        return;
    }
    match left {
        Some(left) if before.is_none() => timers.start_stopped(owner, kind, left),
        Some(left) => timers.start_reserved(owner, kind, left),
        None => timers.stop(owner, kind),
    }
}

/// A slot's countdowns, the procedure's and the reachable one, are as they are to be, where it is known what they were; takes no
/// memory.
pub fn retime(
    timers: &mut Timers,
    slot: u32,
    before: (Option<u64>, Option<u64>),
    left: (Option<u64>, Option<u64>),
)
    requires range { AreInRange left }
    requires known { AreQueued slot before timers.old.running }
    requires room { 2 ≤ timers.old.room }
    ensures clock { timers.new.clock ≡ timers.old.clock }
    ensures running { timers.new.running ≡ both_retimed slot left timers.old.running }
    ensures room { timers.old.room ≤ timers.new.room + 2 }
{
    // (that they stand in order)
    let _ = timers.clock();
    let (procedure, reachable) = left;
    retime_one(timers, slot, Kind::Procedure, before.0, procedure);
    retime_one(timers, slot, Kind::Reachable, before.1, reachable);
}

/// A slot's countdowns are as they are to be, where those that it has are looked up; takes no memory.
pub fn retime_found(timers: &mut Timers, slot: u32, left: (Option<u64>, Option<u64>))
    requires range { AreInRange left }
    requires room { 2 ≤ timers.old.room }
    ensures clock { timers.new.clock ≡ timers.old.clock }
    ensures running { timers.new.running ≡ both_retimed slot left timers.old.running }
    ensures room { timers.old.room ≤ timers.new.room + 2 }
{
    let of_slot = TimerOwner::Subscriber(slot);
    let procedure = timers.left(of_slot, Kind::Procedure);
    retime_one(timers, slot, Kind::Procedure, procedure, left.0);
    let reachable = timers.left(of_slot, Kind::Reachable);
    retime_one(timers, slot, Kind::Reachable, reachable, left.1);
}
