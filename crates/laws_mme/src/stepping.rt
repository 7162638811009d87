//! What a caller sees of one event, and of one thing that an MME is given.

ghost use Rattle.std.specs.Prelude.{◌≡◌, ◌<◌, length, Err, IfSome, OnErr};
ghost use Rattle.mme_core.specs.World.{event_fault};
ghost use Rattle.laws_mme.specs.ActByAct.{IsAdding, IsGiving};
ghost use Rattle.laws_mme.specs.EventByEvent.{IsStep};

use identity_slots::{Profile, ProvisionFault, Slot, Vector};
use mme_core::{Event, Mme, Outs, StepFault};

/// What a caller has seen of one `Mme::step` is a step (`IsStep`), of which `steps_are_a_run` speaks.
pub fn step_once(mme: &mut Mme, event: &Event<'_>) -> Result<Outs, StepFault>
    ensures step { IsStep mme.old event.now result mme.new }
    ensures fault { IfSome (event_fault mme.old.sight event.now) (λ fault. result ≡ Err fault) }
    ensures err { OnErr result (mme.new ≡ mme.old) }
{
    mme.step(event)
}

/// What a caller has seen of one `Mme::add` is a step of those of which `steps_are_acts` speaks.
pub fn add_once(mme: &mut Mme, profile: Profile) -> Result<Slot, ProvisionFault>
    ensures { IsAdding mme.old profile result mme.new }
{
    mme.add(profile)
}

/// What a caller has seen of one `Mme::give` is such a step, too.
pub fn give_once(mme: &mut Mme, slot: Slot, vector: Vector) -> Result<(), ProvisionFault>
    requires { slot < length mme.old.sight.profiles }
    ensures { IsGiving mme.old slot vector result mme.new }
{
    mme.give(slot, vector)
}
