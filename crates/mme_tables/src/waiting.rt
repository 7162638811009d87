//! T3470 of strangers (TS 24.301 clause 5.4.4) in the queue of deadlines.

ghost use Rattle.std.specs.Prelude.{◌≡◌, ◌+◌, ◌≤◌};
ghost use Rattle.mme_tables.specs.Running.{IsInRange};
ghost use Rattle.mme_tables.specs.Waiting.{stranger_owner, wait_changed, wait_of, wait_stopped};

use identity_slots::{AssociationId, number_in, station_in};
use stranger_machine::Stranger;
use timer_queue::{Kind, TimerOwner, Timers};

/// The ticks that T3470 has left, if the stranger waits.
pub fn wait_of(stranger: &Stranger) -> Option<u32>
    ensures { result ≡ wait_of stranger.now }
{
    match stranger {
        Stranger::Waiting {
            kept: _,
            left,
            repeats: _,
        } => Some(*left),
        Stranger::Held(_) => None,
    }
}

// Whose timer T3470 of the stranger with an id is.
fn owner_of(id: AssociationId) -> TimerOwner
    ensures { result ≡ stranger_owner id }
{
    TimerOwner::Stranger {
        station: station_in(id),
        enb_ue_id: number_in(id),
    }
}

/// T3470 of the stranger with an id doesn't run, where it ran before with these ticks left, or didn't run. Takes no memory.
pub fn stop_wait(timers: &mut Timers, id: AssociationId, before: Option<u32>)
    ensures clock { timers.new.clock ≡ timers.old.clock }
    ensures running { timers.new.running ≡ wait_stopped id before timers.old.running }
    ensures room { timers.old.room ≤ timers.new.room }
{
    match before {
        Some(_) => timers.stop(owner_of(id), Kind::Procedure),
        None => {}
    }
}

/// T3470 of the stranger with an id has `left` ticks left, or doesn't run, where it ran before with these, or didn't run. Takes no
/// memory.
pub fn change_wait(timers: &mut Timers, id: AssociationId, before: Option<u32>, left: Option<u32>)
    requires range { IsInRange left }
    requires room { 1 ≤ timers.old.room }
    ensures clock { timers.new.clock ≡ timers.old.clock }
    ensures running { timers.new.running ≡ wait_changed id before left timers.old.running }
    ensures room { timers.old.room ≤ timers.new.room + 1 }
{
    match left {
        Some(left) => timers.start_reserved(owner_of(id), Kind::Procedure, u64::from(left)),
        None => stop_wait(timers, id, before),
    }
}
