//! What holds of an MME, whoever sends: of each step of one subscriber's machine and of its runs, and over every list of events
//! of the whole MME. Each module is a subject.
//!
//! No code: definitions, laws of them, and three walks that are there for their contracts: one event by `Mme::step`, one subscriber
//! by `Mme::add`, one vector by `Mme::give`.
#![tactic(auto)]

mod acting;
mod ends;
mod forgetting;
mod fresh_keys;
mod giving;
mod identities;
mod ids;
mod keys;
mod lasting;
mod restarting;
mod runs;
mod stepping;
mod steps;
mod tables;

pub use acting::{
    acts_are_fresh, acts_are_guarded, acts_end, acts_hand_out_fresh_keys, goes_on_or_ran_out,
};
pub use ends::{everything_ends, silent_slots_end};
pub use forgetting::{nobody_sees_what_is_kept, nothing_is_kept};
pub use fresh_keys::{an_mme_hands_out_fresh_keys, kenb_is_of_its_message, keys_are_fresh};
pub use giving::{
    acts_join, given_before_is_given_after, given_early_is_given_late, ids_stay_apart_over_acts,
    replies_to_acts_are_in_order, slots_act_alone, stations_act_alone, steps_are_acts,
    steps_look_at_two, strangers_act_alone, vectors_may_come_late, what_is_given_stays_kept,
};
pub use identities::{addresses_are_apart, tmsis_are_apart, tmsis_come_again};
pub use ids::{
    associations_stay_a_map, ids_of_an_mme_are_apart, messages_reach_their_phone,
    no_two_ever_share_an_id,
};
pub use keys::{capabilities_are_replayed, nothing_plain_to_the_registered};
pub use lasting::{procedures_last, strangers_wait};
pub use restarting::{nobody_can_tell, what_is_remembered_stays_kept};
pub use runs::{
    replies_are_in_order, runs_are_fresh, runs_are_guarded, runs_end, runs_join, same_to_station,
    same_to_stranger, slots_run_alone, stations_run_alone, steps_are_a_run, strangers_run_alone,
};
pub use stepping::{add_once, give_once, step_once};
pub use steps::{connections_stay, vectors_are_spent_so, work_is_bounded};
pub use tables::{
    quiet_notice, quiet_tick, station_silent, still_stays, strangers_turn, tick_is_of_all,
    ticks_are_aged, touched_is_of_all,
};
