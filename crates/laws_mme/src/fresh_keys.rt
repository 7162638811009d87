//! Each radio key is handed out once, to the station of the phone's connection: over every run of a subscriber's machine, and of
//! the MME. Each law is the contract of a function that does nothing.

ghost use Rattle.laws_mme.specs.Handed.{KeysAreFresh};
ghost use Rattle.laws_mme.specs.KeysOfMessage.{KenbsAreOfTheirMessages};
ghost use Rattle.laws_mme.specs.KeysOfMme.{MmeKeysAreFresh};

use crate::runs::slots_run_alone;
use mme_core::{slots_end, worlds_are_kept};
use nas_security::accepted_is_fresh;
use s1ap_pdus::what_is_encoded;

/// Over every run of a subscriber who was never seen, each INITIAL CONTEXT SETUP REQUEST and each PATH SWITCH REQUEST ACKNOWLEDGE
/// goes to the station of the phone's connection after the step, with its ids, and has a key of one of the slot's vectors: the
/// former KeNB of an uplink NAS COUNT, the latter a hop of the chain after it, the second or a later one, with its number modulo 8.
/// In the order in which they are sent the vectors' places rise, for one vector the counts, for one count the hops, KeNB first: so
/// no KeNB and no next hop is handed out twice (TS 33.401 clauses 7.2.8.1, 7.2.8.4.2, A.3, A.4).
pub fn keys_are_fresh()
    ensures { KeysAreFresh }
{
    accepted_is_fresh();
    what_is_encoded();
}

/// At every step of every run, a KeNB that is sent is of the vector and the count under which the step accepted a message or, if
/// the phone was asked for ESM information, that of the context before the step (TS 33.401 clauses 7.2.8.1, A.3).
pub fn kenb_is_of_its_message()
    ensures { KenbsAreOfTheirMessages }
{
    accepted_is_fresh();
    what_is_encoded();
}

/// The same holds for each subscriber of an MME, which sends radio keys to nobody else (`everything_is_of_an_mme`).
pub fn an_mme_hands_out_fresh_keys()
    ensures { MmeKeysAreFresh }
{
    keys_are_fresh();
    slots_run_alone();
    slots_end();
    worlds_are_kept();
}
