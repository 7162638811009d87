//! A subscriber that is lent.

ghost use Rattle.std.specs.Prelude.{◌≡◌, ◌-◌};
ghost use Rattle.mme_owners.specs.Lent.{lent_now};

use emm_machine::Subscriber;
use emm_state::Countdown;

/// A subscriber, lent as it was before some ticks that ended no countdown of it; but for its countdowns it is so now.
#[derive(Clone, Copy)]
pub struct LentSubscriber<'a> {
    pub subscriber: &'a Subscriber,
    /// How many ticks they were.
    pub slept: u64,
}

// What is left of as many ticks, some ticks later.
fn less(left: u32, ticks: u64) -> u32
    ensures { result ≡ left - ticks }
{
    u64::from(left).saturating_sub(ticks) as u32
}

impl LentSubscriber<'_> {
    /// The countdown of a procedure that runs, as it is now.
    #[tactic(auto, unfolding(emm_machine::specs::Ticks::solo_aged))]
    pub fn procedure(&self) -> Option<Countdown>
        ensures { result ≡ (lent_now self.now).solo.procedure }
    {
        let countdown = self.subscriber.solo().procedure?;
        Some(Countdown {
            timer: countdown.timer,
            left: less(countdown.left, self.slept),
            repeats: countdown.repeats,
        })
    }

    /// The ticks left, as they are now, until a phone that is idle is taken to be gone.
    #[tactic(auto, unfolding(emm_machine::specs::Ticks::solo_aged))]
    pub fn reachable(&self) -> Option<u32>
        ensures { result ≡ (lent_now self.now).solo.reachable }
    {
        let left = self.subscriber.solo().reachable?;
        Some(less(left, self.slept))
    }
}
