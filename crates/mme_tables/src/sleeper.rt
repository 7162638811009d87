//! A stranger as it was when it was last touched.

ghost use Rattle.std.specs.Prelude.{◌≡◌, ◌≤◌};
ghost use Rattle.mme_tables.specs.Waiting.{wait_of};
ghost use Rattle.mme_tables.specs.Ended.{sleeper_ticked, stays_ticked, IsEnding};
ghost use Rattle.mme_tables.specs.StrangerRows.{awakened, sleeper_now, IsSleeping};

use identity_slots::AssociationId;
use stranger_machine::{Notice, Stranger};

/// A stranger that isn't closed, as it was when the clock was `touched`.
#[derive(Drop)]
pub(crate) struct Sleeper {
    pub(crate) stranger: Stranger,
    pub(crate) touched: u64,
}

impl Sleeper {
    /// It is as it is now; takes no memory.
    pub(crate) fn wake(&mut self, clock: u64)
        requires { IsSleeping clock self.old }
        ensures { self.new ≡ awakened clock self.old }
    {
        self.stranger.pass_ticks(clock - self.touched);
        self.touched = clock;
    }

    /// The ticks that its T3470 has left now, if it waits.
    pub(crate) fn left(&self, clock: u64) -> Option<u32>
        requires { self.now.touched ≤ clock }
        ensures { result ≡ wait_of (sleeper_now clock self.now) }
    {
        match &self.stranger {
            Stranger::Waiting {
                kept: _,
                left,
                repeats: _,
            } => {
                let slept = clock - self.touched;
                Some(u64::from(*left).saturating_sub(slept) as u32)
            }
            Stranger::Held(_) => None,
        }
    }

    /// It takes the tick at the clock `next`, which ends its T3470, and answers whether that leaves it open.
    pub(crate) fn end(&mut self, id: AssociationId, next: u64) -> bool
        requires { IsEnding next self.old }
        ensures open { result ≡ stays_ticked id next self.old }
        ensures after { self.new ≡ sleeper_ticked id next self.old }
    {
        self.wake(next - 1);
        let is_open = self.stranger.stays_open(id, &Notice::Tick);
        self.stranger.pass(&Notice::Tick);
        self.touched = next;
        is_open
    }
}
