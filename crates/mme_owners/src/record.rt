//! Subscribers as they were when they were last touched.

ghost use Rattle.std.specs.Prelude.{◌≡◌, ◌≢◌, ◌↔◌, Err, IfErr, OnErr, OnOk, true};
ghost use Rattle.identity_slots.specs.declared.provision.ProvisionFault.TheVariants.{Full, NoMemory};
ghost use Rattle.emm_state.specs.Taking.{IsOnward};
ghost use Rattle.emm_machine.specs.Forgetting.{left_for};
ghost use Rattle.emm_machine.specs.Given.{is_stocked};
ghost use Rattle.emm_machine.specs.Ticks.{countdowns};
ghost use Rattle.mme_owners.specs.Records.{given_now, renewed, view_at, woken, IsFresh};

use emm_machine::Subscriber;
use emm_state::Draft;
use identity_slots::{ProvisionFault, Vector};
use std::alloc::Global;

/// A subscriber as it was when the clock was `touched`.
#[derive(Drop)]
pub(crate) struct Record {
    pub subscriber: Subscriber,
    pub touched: u64,
}

impl Record {
    /// The subscriber is as it is now; takes no memory.
    pub fn wake(&mut self, clock: u64)
        requires { IsFresh clock self.old }
        ensures { self.new ≡ woken clock self.old }
    {
        self.subscriber.pass(clock - self.touched);
        self.touched = clock;
    }

    /// The subscriber is as it is now, and has one vector more. Full where it takes none, then NoMemory where room was refused;
    /// then it is only as it is now.
    pub fn give(&mut self, now: u64, alloc: Global, vector: Vector) -> Result<(), ProvisionFault>
        requires { IsFresh now self.old }
        ensures full { (result ≡ Err Full) ↔ (is_stocked (view_at now self.old) ≡ true) }
        ensures fault { IfErr result (λ fault. fault ≢ NoMemory → fault ≡ Full) }
        ensures given { OnOk result (self.new ≡ given_now now vector self.old) }
        ensures err { OnErr result (self.new ≡ woken now self.old) }
    {
        self.wake(now);
        self.subscriber.give(alloc, vector)
    }

    /// The state is that of this step now; answers the box of the one before, with its state, but for a context that has ended.
    /// Takes no memory.
    pub fn renew(&mut self, clock: u64, draft: Box<Draft>) -> Box<Draft>
        requires { IsOnward self.old.subscriber.solo draft.value.solo }
        ensures state { self.new ≡ renewed clock draft.value.solo self.old }
        ensures spare { result.value.solo ≡ left_for draft.value.solo self.old.subscriber.solo }
    {
        self.touched = clock;
        self.subscriber.settle(draft)
    }

    /// The state is that of this step now; answers the countdowns that it had until now, and the box of the step before, with the
    /// state as it was until now, but for a context that has ended. Takes no memory.
    pub fn replace(
        &mut self,
        clock: u64,
        draft: Box<Draft>,
    ) -> ((Option<u64>, Option<u64>), Box<Draft>)
        requires fresh { IsFresh clock self.old }
        requires onward { IsOnward (view_at clock self.old).solo draft.value.solo }
        ensures state { self.new ≡ renewed clock draft.value.solo self.old }
        ensures before { result.0 ≡ countdowns (view_at clock self.old).solo }
        ensures spare { result.1.value.solo ≡ left_for draft.value.solo (view_at clock self.old).solo }
    {
        self.wake(clock);
        let before = self.subscriber.countdowns();
        let spare = self.renew(clock, draft);
        (before, spare)
    }
}
