//! A step under way.

ghost use Rattle.std.specs.Prelude.{◌≡◌, IfErr, IfOk, IsErr, IsOk, OnErr, OnOk};
ghost use Rattle.emm_state.specs.declared.draft.StepStop.TheVariants.{NoMemory};
ghost use Rattle.emm_state.specs.Actions.{untouched};

use crate::solo::{Repeat, Solo};
use mme_types::{Answers, Mark, NasOctets};
use std::alloc::{AllocError, Global};

/// A step under way. Each action is as defined, or says instead that the downlink counts are spent; one that protects a message
/// (`protect`, `protect_and_await`, `set_up_with`) says so whatever memory there is.
///
/// It has the state so far, what is sent so far, what an uplink message was accepted under, and whether a message had no written
/// form, and so isn't sent.
#[derive(Drop)]
pub struct Draft {
    pub solo: Solo,
    pub sent: Answers,
    pub accepted: Option<Mark>,
    pub unwritten: bool,
}

impl Draft {
    /// A step from a state that is given, of which nothing is done yet, in a box.
    pub fn of(alloc: Global, solo: Solo) -> Result<Box<Draft>, AllocError>
        ensures { IfOk result (λ d. d.value ≡ untouched solo) }
    {
        Ok(Box::new(
            alloc,
            Draft {
                solo,
                sent: Answers::new(alloc),
                accepted: None,
                unwritten: false,
            },
        )?)
    }

    /// A step from a copy of a state, of which nothing is done yet: in the spare box, where there is one, else in a new one.
    pub fn from_state(
        alloc: Global,
        spare: Option<Box<Draft>>,
        solo: &Solo,
    ) -> Result<Box<Draft>, AllocError>
        ensures { IfOk result (λ d. d.value ≡ untouched solo.now) }
    {
        let repeat = solo.repeat_copy(alloc)?;
        match spare {
            Some(mut draft) => {
                draft.begin(solo, repeat);
                Ok(draft)
            }
            None => Draft::from_nothing(alloc, solo, repeat),
        }
    }

    // A step from the same state with this to be sent again, in a new box. It is out of line, so that a step in the spare box
    // doesn't clear its locals.
    #[inline(never)]
    fn from_nothing(
        alloc: Global,
        solo: &Solo,
        repeat: Option<Repeat>,
    ) -> Result<Box<Draft>, AllocError>
        ensures { IfOk result (λ d. d.value ≡ untouched (record solo.now { repeat = repeat })) }
    {
        Draft::of(alloc, solo.with_repeat(repeat))
    }

    // a step from the same state with this to be sent again, where another step stood, whose room for what is sent stays
    fn begin(&mut self, solo: &Solo, repeat: Option<Repeat>)
        ensures { self.new ≡ untouched (record solo.now { repeat = repeat }) }
    {
        self.solo.begin(solo, repeat);
        self.sent.clear();
        self.accepted = None;
        self.unwritten = false;
    }
}

/// Why an action stopped: the downlink counts are spent, or memory was refused.
#[derive(Clone, Copy)]
pub enum StepStop {
    Spent,
    NoMemory,
}

impl From<AllocError> for StepStop {
    ghost from_gives = { λ _ e. e ≡ NoMemory };

    ghost use Rattle.std.specs.Prelude.{◌≡◌};
    ghost use Rattle.emm_state.specs.declared.draft.StepStop.TheVariants.{NoMemory};

    fn from(_e: AllocError) -> StepStop {
        StepStop::NoMemory
    }
}

/// What was done, or that it stopped since memory was refused.
pub fn or_stop(done: Result<(), AllocError>) -> Result<(), StepStop>
    ensures ok { OnOk result (IsOk done) }
    ensures err { OnErr result (IsErr done) }
    ensures memory { IfErr result (λ stop. stop ≡ NoMemory) }
{
    match done {
        Ok(()) => Ok(()),
        Err(_) => Err(StepStop::NoMemory),
    }
}

/// A protected NAS message, and what it is protected under.
#[derive(Drop)]
pub struct Sealed {
    pub form: NasOctets,
    pub under: Option<Mark>,
}
