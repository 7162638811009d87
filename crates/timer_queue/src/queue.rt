//! Timers as two lists of what runs: a queue in the order of the deadlines, and an index in the order of the timers.

ghost use Rattle.std.specs.Prelude.{◌≡◌, ℕ, ◌+◌, ◌*◌, ◌<◌, ◌≤◌, ◌^◌, ◌↔◌, List, [], IfOk, IsOk, IsErr, OnOk, OnErr, Option, Err, None, false};
ghost use Rattle.timer_queue.specs.declared.queue.TickFault.TheVariants.{ClockSpent, NoMemory};
ghost use Rattle.nas_elements.specs.Timers.{mobile_reachable_ticks};
ghost use Rattle.sorted_list.specs.Ordered.{Rising, Every};
ghost use Rattle.timer_queue.specs.Countdowns.{Countdowns, countdown_rank, ticks_left, started, stopped, due_of, aged};
ghost use Rattle.timer_queue.specs.Queued.{moment, index_rank, leading, later_than, IsQueue, IsDeadlineIndex};

use crate::timer::{Expiry, Kind, Timer, TimerOwner, rank};
use sorted_list::{Keyed, SortedList, paired};
use std::alloc::{AllocError, Global};
use std::marker::Model;

/// The greatest clock, and the one at which a tick is refused.
const LAST_CLOCK: u64 = 0x4000_0000_0000_0000;

/// Why a tick was refused.
#[derive(Clone, Copy, PartialEq, Eq, Debug)]
pub enum TickFault {
    /// The clock is 2^62, and doesn't go on.
    ClockSpent = 1,
    /// A growth was refused.
    NoMemory = 2,
}

/// When a timer ends. In the queue these stand by rising moment.
#[derive(Clone, Copy)]
struct Deadline {
    deadline: u64,
    timer: Timer,
}

/// The key by which the queue is kept in order: by deadline, and of one deadline by timer.
fn moment(entry: &Deadline) -> u128
    ensures { result ≡ moment entry.now }
{
    paired(entry.deadline, rank(entry.timer))
}

impl Keyed for Deadline {
    ghost rank = { moment };

    fn key(&self) -> u128 {
        moment(self)
    }
}

/// A timer that runs, with its deadline. In the index these stand in the order of their timers.
#[derive(Clone, Copy)]
struct RunningTimer {
    timer: Timer,
    deadline: u64,
}

impl Keyed for RunningTimer {
    ghost rank = { index_rank };

    fn key(&self) -> u128 {
        u128::from(rank(self.timer))
    }
}

/// The timers at the front of the queue that are due.
fn due_at(
    alloc: Global,
    queue: &SortedList<Deadline>,
    clock: u64,
) -> Result<Vec<Expiry>, AllocError>
    requires rising { Rising moment queue.now.items }
    requires small { clock < 2 ^ 63 }
    ensures { IfOk result (λ due. due.items ≡ leading clock queue.now.items) }
{
    let mut due = Vec::new(alloc);
    let mut least = 0;
    while let Some(entry) = queue.first_from(least) {
        if entry.deadline > clock {
            break;
        }
        due.push(entry.timer)?;
        least = moment(&entry) + 1;
    }
    Ok(due)
}

/// Whether the first of a queue ends by a clock; where it doesn't, none does, and nothing is searched.
fn is_first_due(queue: &SortedList<Deadline>, clock: u64) -> bool
    ensures { (result ≡ false) ↔ (leading clock queue.now.items ≡ []) }
{
    match queue.first() {
        Some(first) => first.deadline <= clock,
        None => false,
    }
}

/// Takes what is due out of the queue and its index.
fn drop_due(queue: &mut SortedList<Deadline>, index: &mut SortedList<RunningTimer>, clock: u64)
    requires queued { IsQueue queue.old.items }
    requires indexed { IsDeadlineIndex index.old.items queue.old.items }
    ensures queue { queue.new.items ≡ later_than clock queue.old.items }
    ensures queued { IsQueue queue.new.items }
    ensures indexed { IsDeadlineIndex index.new.items queue.new.items }
    ensures room { queue.old.room ≤ queue.new.room }
    ensures places { index.old.room ≤ index.new.room }
{
    while let Some(first) = queue.first() {
        if first.deadline > clock {
            break;
        }
        queue.take_first();
        index.take(u128::from(rank(first.timer)));
    }
}

/// A map of countdowns: `due` and `tick` answer those that a tick ends, in their order, and `is_due` whether there is one. If there
/// is room, `reserve` and `start` aren't refused; `start_reserved`, `start_stopped` (of a timer that doesn't run), `stop` and
/// `pass` never are.
///
/// Contracts see the clock, the running countdowns in the order of their timers (`timers_apart`, `in_owner_order`,
/// `procedure_first`), and for how many more there is room, which a refused `reserve` may leave more of.
#[derive(Drop)]
pub struct Timers {
    clock: u64,
    queue: SortedList<Deadline>,
    index: SortedList<RunningTimer>,
    alloc: Global,
}

impl Model for Timers {
    ghost use Rattle.std.specs.Prelude.{◌≤◌, ◌^◌, min};
    ghost use Rattle.timer_queue.specs.Countdowns.{Countdowns};

    ghost Value = { Countdowns };

    ghost use Rattle.timer_queue.specs.Queued.{running_at, IsQueue, AreLate, IsDeadlineIndex};

    ghost view = { λ t. record {
      clock = t.clock;
      running = running_at t.clock t.queue.items;
      room = min t.queue.room t.index.room;
    } };

    ghost invariant = { λ t. (t.clock ≤ 2 ^ 62) × IsQueue t.queue.items × AreLate t.clock t.queue.items
        × IsDeadlineIndex t.index.items t.queue.items };
}

impl Timers {
    /// No timers, at this clock of at most 2^62.
    pub fn new(alloc: Global, clock: u64) -> Self
        requires { clock ≤ 2 ^ 62 }
        ensures clock { result.clock ≡ clock }
        ensures running { result.running ≡ [] }
    {
        Timers {
            clock,
            queue: SortedList::new(alloc),
            index: SortedList::new(alloc),
            alloc,
        }
    }

    /// The ticks passed, from the clock at the start on. The countdowns stand in the order of their timers, each timer once,
    /// and each has a tick left.
    pub fn clock(&self) -> u64
        ensures clock { result ≡ self.now.clock }
        ensures small { self.now.clock ≤ 2 ^ 62 }
        ensures order { Rising countdown_rank self.now.running }
        ensures above_zero { Every (λ c. 1 ≤ c.ticks) self.now.running }
    {
        self.clock
    }

    /// The ticks that a timer has left, if it runs.
    pub fn left(&self, owner: TimerOwner, kind: Kind) -> Option<u64>
        ensures { result ≡ ticks_left owner kind self.now.running }
    {
        match self.index.find(u128::from(rank(Timer { owner, kind }))) {
            Some(running) => Some(running.deadline - self.clock),
            None => None,
        }
    }

    /// Makes room for `more` further timers. Where there is room enough it isn't refused; where it is the timers are as they were.
    pub fn reserve(&mut self, more: usize) -> Result<(), AllocError>
        ensures clock { self.new.clock ≡ self.old.clock }
        ensures running { self.new.running ≡ self.old.running }
        ensures room { OnOk result (more ≤ self.new.room) }
        ensures kept { self.old.room ≤ self.new.room }
        ensures enough { more ≤ self.old.room → IsOk result }
        ensures short { IsErr result → self.new.room < more }
    {
        self.queue.reserve(more)?;
        self.index.reserve(more)?;
        Ok(())
    }

    /// Starts a timer of 1 to MOBILE_REACHABLE_TICKS, in place of one that runs. Where there is room it isn't refused; where it is
    /// the timers and the room are as they were.
    pub fn start(&mut self, owner: TimerOwner, kind: Kind, ticks: u64) -> Result<(), AllocError>
        requires { (1 ≤ ticks) × (ticks ≤ mobile_reachable_ticks) }
        ensures clock { self.new.clock ≡ self.old.clock }
        ensures running { OnOk result (self.new.running ≡ started owner kind ticks self.old.running) }
        ensures err { OnErr result (self.new.running ≡ self.old.running) }
        ensures room { self.old.room ≤ self.new.room + 1 }
        ensures enough { 1 ≤ self.old.room → IsOk result }
        ensures refused { OnErr result (self.new ≡ self.old) }
    {
        self.reserve(1)?;
        self.start_reserved(owner, kind, ticks);
        Ok(())
    }

    /// Starts a timer of 1 to MOBILE_REACHABLE_TICKS, in place of one that runs, where there is room. Takes no memory.
    pub fn start_reserved(&mut self, owner: TimerOwner, kind: Kind, ticks: u64)
        requires ticks { (1 ≤ ticks) × (ticks ≤ mobile_reachable_ticks) }
        requires room { 0 < self.old.room }
        ensures clock { self.new.clock ≡ self.old.clock }
        ensures running { self.new.running ≡ started owner kind ticks self.old.running }
        ensures room { self.old.room ≤ self.new.room + 1 }
    {
        // (that they stand in order)
        let _ = self.clock();
        self.stop(owner, kind);
        self.start_stopped(owner, kind, ticks);
    }

    /// Starts a timer of 1 to MOBILE_REACHABLE_TICKS that doesn't run, where there is room. Takes no memory.
    pub fn start_stopped(&mut self, owner: TimerOwner, kind: Kind, ticks: u64)
        requires ticks { (1 ≤ ticks) × (ticks ≤ mobile_reachable_ticks) }
        requires off { ticks_left owner kind self.old.running ≡ None }
        requires room { 0 < self.old.room }
        ensures clock { self.new.clock ≡ self.old.clock }
        ensures running { self.new.running ≡ started owner kind ticks self.old.running }
        ensures room { self.old.room ≤ self.new.room + 1 }
    {
        let deadline = self.clock + ticks;
        let timer = Timer { owner, kind };
        self.queue.insert_reserved(Deadline { deadline, timer });
        self.index.insert_reserved(RunningTimer { timer, deadline });
    }

    /// Ends a timer without an expiry, if it runs. Takes no memory.
    pub fn stop(&mut self, owner: TimerOwner, kind: Kind)
        ensures clock { self.new.clock ≡ self.old.clock }
        ensures running { self.new.running ≡ stopped owner kind self.old.running }
        ensures room { self.old.room ≤ self.new.room }
    {
        let timer = Timer { owner, kind };
        if let Some(running) = self.index.take(u128::from(rank(timer))) {
            let deadline = running.deadline;
            self.queue.take(moment(&Deadline { deadline, timer }));
        }
    }

    /// Whether the next tick ends a timer. Only the front of the queue is looked at; takes no memory.
    pub fn is_due(&self) -> bool
        ensures { (result ≡ false) ↔ (due_of self.now.running ≡ []) }
    {
        is_first_due(&self.queue, self.clock + 1)
    }

    /// The timers that the next tick ends, in order: strangers by station and eNB UE id, then subscribers by slot, and of one
    /// owner the procedure first. Only the front of the queue is looked at.
    pub fn due(&self) -> Result<Vec<Expiry>, AllocError>
        ensures { IfOk result (λ due. due.items ≡ due_of self.now.running) }
    {
        let next = self.clock + 1;
        if !is_first_due(&self.queue, next) {
            return Ok(Vec::new(self.alloc));
        }
        due_at(self.alloc, &self.queue, next)
    }

    /// One tick, without telling what it ends. Takes no memory.
    pub fn pass(&mut self)
        requires { self.old.clock < 2 ^ 62 }
        ensures clock { self.new.clock ≡ self.old.clock + 1 }
        ensures running { self.new.running ≡ aged self.old.running }
        ensures room { self.old.room ≤ self.new.room }
    {
        let next = self.clock + 1;
        drop_due(&mut self.queue, &mut self.index, next);
        self.clock = next;
    }

    /// One tick, and the timers that it ends, in order. ClockSpent at the clock 2^62; else NoMemory where room for the answer
    /// was refused. A refused tick leaves the clock and the timers as they were.
    pub fn tick(&mut self) -> Result<Vec<Expiry>, TickFault>
        ensures due { IfOk result (λ due. due.items ≡ due_of self.old.running) }
        ensures clock { OnOk result (self.new.clock ≡ self.old.clock + 1) }
        ensures running { OnOk result (self.new.running ≡ aged self.old.running) }
        ensures spent { (result ≡ Err ClockSpent) ↔ (2 ^ 62 ≤ self.old.clock) }
        ensures err { OnErr result (self.new ≡ self.old) }
        ensures room { self.old.room ≤ self.new.room }
    {
        if self.clock >= LAST_CLOCK {
            return Err(TickFault::ClockSpent);
        }
        let Ok(due) = self.due() else {
            return Err(TickFault::NoMemory);
        };
        self.pass();
        Ok(due)
    }

    /// Equal timers: the same clock and the same countdowns.
    pub fn copy(&self) -> Result<Timers, AllocError>
        ensures clock { IfOk result (λ copy. copy.clock ≡ self.now.clock) }
        ensures running { IfOk result (λ copy. copy.running ≡ self.now.running) }
    {
        Ok(Timers {
            clock: self.clock,
            queue: self.queue.copy()?,
            index: self.index.copy()?,
            alloc: self.alloc,
        })
    }
}
