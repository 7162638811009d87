//! Ticks.

ghost use Rattle.std.specs.Prelude.{◌≡◌, ◌≤◌, ◌^◌, ◌<◌, IfOk};
ghost use Rattle.c_session.specs.Arguments.{ticks_of};
ghost use Rattle.c_session.specs.Sessions.{Runs, ticking, ticks, world_in};

use crate::refusal::Refusal;
use crate::replies::Replies;
use crate::session::Session;
use mme_core::Event;
use std::alloc::{AllocError, Global};
use trace_progress::Progress;

/// How many ticks there are at once, at most.
const MOST_TICKS: u32 = 1_000_000;

/// That many ticks, one after another.
fn ticks(alloc: Global, count: u32) -> Result<Vec<Event<'static>>, AllocError>
    ensures { IfOk result (λ events. events.items ≡ ticks count) }
{
    let mut events = Vec::with_capacity(alloc, count as usize)?;
    for _tick in 0..count {
        events.push_reserved(Event::Tick);
    }
    Ok(events)
}

fn ticks_of(count: u32) -> Result<u32, Refusal>
    ensures { result ≡ ticks_of count }
{
    if count < 1 || count > MOST_TICKS {
        return Err(Refusal::BadNumber);
    }
    Ok(count)
}

impl Session {
    /// That many seconds pass, each with its reply. BadNumber below 1 and above 1,000,000, then NoMme, then NoMemory where there is
    /// no room for the replies.
    pub fn tick(&mut self, alloc: Global, count: u32) -> Result<(), Refusal>
        ensures { Runs (ticking self.old count) count self.old result self.new }
    {
        let count = ticks_of(count)?;
        self.pass(alloc, count)
    }

    /// That many seconds pass, each with its reply. NoMme, then NoMemory.
    pub(crate) fn pass(&mut self, alloc: Global, count: u32) -> Result<(), Refusal>
        ensures { Runs (world_in self.old.progress) count self.old result self.new }
    {
        let Progress::Running(mme) = &mut self.progress else {
            return Err(Refusal::NoMme);
        };
        let Ok(events) = ticks(alloc, count) else {
            return Err(Refusal::NoMemory);
        };
        match mme.run(events.as_slice()) {
            Ok(replies) => {
                self.replies.give_way(Replies::each(replies));
                Ok(())
            }
            Err(_) => Err(Refusal::NoMemory),
        }
    }
}
