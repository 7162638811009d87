//! What is fresh, who is let in and what ends of each slot over a list of acts, whoever is added and whatever is given meanwhile:
//! the laws of `runs`, over the acts of a slot. Each law is the contract of a function that does nothing.

ghost use Rattle.laws_mme.specs.EndingActs.{ActsEnd, AllEndsAfterActs};
ghost use Rattle.laws_mme.specs.GuardedActs.{ActsAreGuarded, EverybodyHasProved};
ghost use Rattle.laws_mme.specs.KeysOverActs.{ActsHandOutFreshKeys};
ghost use Rattle.laws_mme.specs.Late.{GoesOnOrRanOut};
ghost use Rattle.laws_mme.specs.OverActs.{ActsAreFresh};

use crate::ends::everything_ends;
use crate::giving::{slots_act_alone, what_is_given_stays_kept};
use emm_machine::{
    accepted_counts_are_fresh, in_use_is_kept, sent_counts_are_fresh, vector_makes_one_context,
};
use laws_subscriber::{
    clocks_are_kept, keys_go_to_the_proved, protected_forms_are_marked, registered_by_proof,
    silent_phones_end, soundness_is_kept, unproved_leaves,
};
use mme_core::{one_output, slots_end, worlds_are_kept};
use nas_security::accepted_is_fresh;
use s1ap_pdus::what_is_encoded;

/// A step with further vectors at the end of its list is the same, or it asked for one when none was left, and then it leaves the
/// phone deregistered.
pub fn goes_on_or_ran_out()
    ensures { GoesOnOrRanOut }
{}

/// Over a list of acts no NAS COUNT is used twice with one vector of a slot, sent or accepted, and no vector becomes a context
/// twice.
pub fn acts_are_fresh()
    ensures { ActsAreFresh }
{
    in_use_is_kept();
    soundness_is_kept();
    clocks_are_kept();
    sent_counts_are_fresh();
    accepted_counts_are_fresh();
    vector_makes_one_context();
    protected_forms_are_marked();
}

/// Over a list of acts whoever is let in has proved that it has the key, radio keys go to the proved alone, and what has no correct
/// MAC leaves a registered phone registered, as `runs_are_guarded` says of events. So from the beginning on everybody who is let in
/// has proved it.
pub fn acts_are_guarded()
    ensures acts { ActsAreGuarded }
    ensures from_start { EverybodyHasProved }
{
    in_use_is_kept();
    soundness_is_kept();
    clocks_are_kept();
    protected_forms_are_marked();
    registered_by_proof();
    keys_go_to_the_proved();
    unproved_leaves();
    slots_act_alone();
    worlds_are_kept();
}

/// Over a list of acts the countdown of a phone's phase runs and no other, and where the phone is silent its procedure ends, as
/// `runs_end` says of events. After a list of acts, in 30 ticks in a row, everything ends as `everything_ends` says.
pub fn acts_end()
    ensures acts { ActsEnd }
    ensures all { AllEndsAfterActs }
{
    in_use_is_kept();
    soundness_is_kept();
    clocks_are_kept();
    silent_phones_end();
    everything_ends();
    what_is_given_stays_kept();
}

/// Over a list of acts from the beginning of an MME on the radio keys that it hands out for each subscriber are fresh, as
/// `keys_are_fresh` says.
pub fn acts_hand_out_fresh_keys()
    ensures { ActsHandOutFreshKeys }
{
    accepted_is_fresh();
    what_is_encoded();
    one_output();
    slots_end();
    what_is_given_stays_kept();
    slots_act_alone();
    worlds_are_kept();
}
