//! What each owner is told and becomes over a list of events, from any MME: so for a caller who takes event by event. Each law is
//! the contract of a function that does nothing.

ghost use Rattle.laws_mme.specs.OwnersAlone.{NobodyIsTold, RepliesAreInOrder, SlotGoesThroughStates, SlotIsTold, StationGoesAlone, StationIsTold, StrangerGoesAlone, StrangerIsTold};
ghost use Rattle.laws_mme.specs.Guards.{RunEnds, RunIsFresh, RunIsGuarded};
ghost use Rattle.laws_mme.specs.Joined.{RepliesJoin, WorldsJoin};
ghost use Rattle.laws_mme.specs.Same.{SameStationFromMme, SameStrangerFromMme, SameToStation, SameToStranger};
ghost use Rattle.laws_mme.specs.EventByEvent.{StepsAreARun};

use emm_machine::{accepted_counts_are_fresh, sent_counts_are_fresh, vector_makes_one_context};
use laws_subscriber::{
    clocks_are_kept, keys_go_to_the_proved, protected_forms_are_marked, registered_by_proof,
    silent_phones_end, soundness_is_kept, unproved_leaves,
};
use mme_core::{one_output, slots_end};

/// At each event of a list a slot is told what its one machine sends at the item that the event has for it, and is in that
/// machine's states after it; a slot that isn't provisioned is told nothing.
pub fn slots_run_alone()
    ensures told { SlotIsTold }
    ensures states { SlotGoesThroughStates }
    ensures absent { NobodyIsTold }
{
    one_output();
    slots_end();
}

/// At each event of a list a stranger is told what its one machine sends, and after the list it is as that machine is.
pub fn strangers_run_alone()
    ensures told { StrangerIsTold }
    ensures state { StrangerGoesAlone }
{
    one_output();
}

/// At each event of a list a station is told what its own events lead to, and after the list it is as they left it.
pub fn stations_run_alone()
    ensures told { StationIsTold }
    ensures state { StationGoesAlone }
{
    one_output();
}

/// Each reply to a list of events stands in the order of its owners.
pub fn replies_are_in_order()
    ensures { RepliesAreInOrder }
{
    one_output();
}

/// Over a list of events no NAS COUNT is used twice with one vector of a slot, sent or accepted, and no vector becomes a context
/// twice.
pub fn runs_are_fresh()
    ensures { RunIsFresh }
{
    sent_counts_are_fresh();
    accepted_counts_are_fresh();
    vector_makes_one_context();
}

/// Over a list of events whoever is let in has proved that it has the key, radio keys go to the proved alone, and what has no
/// correct MAC leaves a registered phone registered, as `laws_subscriber::admission` says.
pub fn runs_are_guarded()
    ensures { RunIsGuarded }
{
    soundness_is_kept();
    protected_forms_are_marked();
    registered_by_proof();
    keys_go_to_the_proved();
    unproved_leaves();
}

/// Over a list of events the countdown of a phone's phase runs and no other, and where the phone is silent its procedure ends, as
/// `laws_subscriber::ends` says.
pub fn runs_end()
    ensures { RunEnds }
{
    clocks_are_kept();
    silent_phones_end();
}

/// A list of events followed by another has the replies to both, and leaves the MME that the second one leaves.
pub fn runs_join()
    ensures replies { RepliesJoin }
    ensures worlds { WorldsJoin }
{}

/// Two lists of events with the same inputs for a stranger, apart from those that are nothing, tell it the same messages in the
/// same order and leave it the same, if the same subscribers are provisioned.
pub fn same_to_stranger()
    ensures machine { SameToStranger }
    ensures mme { SameStrangerFromMme }
{
    one_output();
}

/// And so two lists with the same events of a station tell it the same and leave it in the same state, if network, provisioning and
/// the station's state are the same.
pub fn same_to_station()
    ensures machine { SameToStation }
    ensures mme { SameStationFromMme }
{
    one_output();
}

/// A caller that takes one event after another has seen a run: its answers, lack of memory left out, are the replies to the events
/// at which they stand, and the MME is the one after them.
pub fn steps_are_a_run()
    ensures { StepsAreARun }
{}
