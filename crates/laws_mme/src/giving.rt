//! An MME that is given subscribers and vectors while it runs: what each owner is told and becomes over a list of acts, which are
//! events and what the MME is given between them. Each law is the contract of a function that does nothing.

ghost use Rattle.mme_core.specs.Apart.{AddedStaysApart, GivenStaysApart};
ghost use Rattle.mme_core.specs.Kept.{AddedStaysKept, GivenStaysKept};
ghost use Rattle.laws_mme.specs.ActByAct.{StepsAreActs};
ghost use Rattle.laws_mme.specs.Acts.{ActsJoin, ActsKeep, ActsStayApart, EventsAreActs};
ghost use Rattle.laws_mme.specs.ActsAlone.{RepliesToActsAreInOrder, SlotGoesAloneOverActs, SlotGoesThroughStatesOverActs, SlotIsToldOverActs, StationGoesAloneOverActs, StationIsToldOverActs, StrangerGoesAloneOverActs, StrangerIsToldOverActs};
ghost use Rattle.laws_mme.specs.Early.{BegunEarlyIsGivenLate, GivenBeforeIsGivenAfter, GivenEarlyIsGivenLate};
ghost use Rattle.laws_mme.specs.Looks.{RunsLookAtTwo, StepsLookAtTwo, VectorsMayComeLate};

use emm_machine::in_use_is_kept;
use laws_subscriber::{clocks_are_kept, soundness_is_kept};
use mme_core::{ids_are_apart, one_output, slots_end, worlds_are_kept};

/// A step of a subscriber's machine looks at two vectors at most: the next one, if the item may have the phone challenged, and that
/// of an open challenge. Another list that is the same there changes nothing, nor over a run.
pub fn steps_look_at_two()
    ensures step { StepsLookAtTwo }
    ensures run { RunsLookAtTwo }
{}

/// Further vectors at the end of a machine's list change nothing over a list of items, unless one was asked for when none was left.
pub fn vectors_may_come_late()
    ensures { VectorsMayComeLate }
{
    soundness_is_kept();
}

/// What always holds of an MME (`IsKept`) holds where it is given a vector or a subscriber more, and so over every list of acts.
pub fn what_is_given_stays_kept()
    ensures given { GivenStaysKept }
    ensures added { AddedStaysKept }
    ensures acts { ActsKeep }
{
    worlds_are_kept();
}

/// And over every list of acts no two phones share an association's id (`AreApart`).
pub fn ids_stay_apart_over_acts()
    ensures given { GivenStaysApart }
    ensures added { AddedStaysApart }
    ensures acts { ActsStayApart }
{
    ids_are_apart();
    what_is_given_stays_kept();
}

/// A list of events is one of acts, and a list of acts goes on from where the one before it leads: so `laws_mme::runs` holds
/// between one gift and the next.
pub fn acts_join()
    ensures events { EventsAreActs }
    ensures join { ActsJoin }
{}

/// What `slots_run_alone` says of events holds of acts, over the items, the vectors and the profile that they have for the slot,
/// whatever others are given; a slot that isn't provisioned yet is told nothing.
pub fn slots_act_alone()
    ensures told { SlotIsToldOverActs }
    ensures states { SlotGoesThroughStatesOverActs }
    ensures state { SlotGoesAloneOverActs }
{
    one_output();
    slots_end();
    what_is_given_stays_kept();
}

/// What `strangers_run_alone` says of events holds of acts, by who is provisioned at each.
pub fn strangers_act_alone()
    ensures told { StrangerIsToldOverActs }
    ensures state { StrangerGoesAloneOverActs }
{
    one_output();
    what_is_given_stays_kept();
}

/// What `stations_run_alone` says of events holds of acts.
pub fn stations_act_alone()
    ensures told { StationIsToldOverActs }
    ensures state { StationGoesAloneOverActs }
{
    one_output();
    what_is_given_stays_kept();
}

/// Each reply to a list of acts stands in the order of its owners.
pub fn replies_to_acts_are_in_order()
    ensures { RepliesToActsAreInOrder }
{
    one_output();
    what_is_given_stays_kept();
}

/// Given a vector before an event or after it, an MME answers the same and is the same, unless the event asks for a vector of that
/// slot when none is left.
pub fn given_before_is_given_after()
    ensures { GivenBeforeIsGivenAfter }
{}

/// If a list of acts adds nobody, refuses no vector and leaves nobody without one, its events are answered, and the MME ends, as if
/// it had had all vectors from the start. So laws of runs from the beginning hold where vectors come later.
pub fn given_early_is_given_late()
    ensures acts { GivenEarlyIsGivenLate }
    ensures from_start { BegunEarlyIsGivenLate }
{
    worlds_are_kept();
    what_is_given_stays_kept();
}

/// A caller that takes one act after another has seen a list of them, as `steps_are_a_run` says of events.
pub fn steps_are_acts()
    ensures { StepsAreActs }
{}
