//! What an MME sends, to which stations, and what it takes for nothing, over every run and whatever stations send: each message
//! has a written form, and so is sent (X.691 clause 11.9). Each module is a subject; of the written form those are `sizes` (how
//! long a message is), `messages` (what the machines build), `subscriber` and `answers` (what one subscriber's machine sends, and
//! what answers stations and strangers), `provisioned` and `ranges` (what an MME is given, and all of it over runs).
//!
//! No code: definitions, laws of them, and a walk over what an MME is given that is there for its contract alone.
#![tactic(auto)]

mod answers;
mod messages;
mod paging;
mod provisioned;
mod ranges;
mod sending;
mod sizes;
mod stations;
mod subscriber;

pub use answers::{stations_are_answered, strangers_are_answered, what_stations_tell_is_in_range};
pub use messages::{
    esm_messages_are_brief, keys_and_forms_are_octets, nas_messages_are_brief,
    phone_messages_are_written,
};
pub use paging::{
    all_who_listen_are_asked, phones_are_paged_where_they_are, tracking_areas_come_so,
};
pub use provisioned::provisioned_is_in_range;
pub use ranges::{challenges_are_sent, runs_are_in_range, steps_are_in_range, strangers_are_told};
pub use sending::{
    a_phone_keeps_little, an_event_sends_few, each_goes_on_its_association,
    everything_is_of_an_mme, keys_are_overwritten, nas_is_of_a_network,
};
pub use sizes::{short_messages_are_written, short_values_are_writable};
pub use stations::{
    everybody_is_placed, garbage_reaches_nobody, only_ready_stations_are_spoken_to,
    stations_are_left_empty,
};
pub use subscriber::{
    actions_send_whole, every_message_is_sent, proved_were_challenged, ranges_are_kept,
    rows_send_whole,
};
