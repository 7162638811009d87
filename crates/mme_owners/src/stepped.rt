//! A state that was prepared.

ghost use Rattle.std.specs.Prelude.{◌≡◌};
ghost use Rattle.emm_machine.specs.Ticks.{countdowns};

use emm_state::{Draft, Solo};
use identity_slots::Slot;
use std::marker::Model;

/// The state of a subscriber after an event, which is not its own yet; a contract sees its slot and the state.
#[derive(Drop)]
pub struct Stepped {
    slot: Slot,
    draft: Box<Draft>,
}

impl Model for Stepped {
    ghost use Rattle.mme_owners.specs.SteppedView.{SteppedView};

    ghost Value = { SteppedView };

    ghost view = { λ s. record { slot = s.slot; solo = s.draft.value.solo } };
}

impl Stepped {
    /// The state of a slot after a step that was prepared.
    pub fn new(slot: Slot, draft: Box<Draft>) -> Stepped
        ensures { result ≡ record { slot = slot; solo = draft.value.solo } }
    {
        Stepped { slot, draft }
    }

    /// The slot.
    pub fn slot(&self) -> Slot
        ensures { result ≡ self.now.slot }
    {
        self.slot
    }

    /// The ticks left of a procedure, and until a phone that is idle is taken to be gone.
    #[tactic(auto, unfolding(emm_machine::specs::Ticks::countdowns))]
    pub fn countdowns(&self) -> (Option<u64>, Option<u64>)
        ensures { result ≡ countdowns self.now.solo }
    {
        let procedure = match self.draft.solo.procedure {
            Some(countdown) => Some(u64::from(countdown.left)),
            None => None,
        };
        let reachable = match self.draft.solo.reachable {
            Some(left) => Some(u64::from(left)),
            None => None,
        };
        (procedure, reachable)
    }

    /// The state.
    pub fn solo(&self) -> &Solo
        ensures { result.now ≡ self.now.solo }
    {
        &self.draft.solo
    }

    /// The step that was prepared.
    pub(crate) fn into_draft(self) -> Box<Draft>
        ensures { result.value.solo ≡ self.solo }
    {
        self.draft
    }
}
