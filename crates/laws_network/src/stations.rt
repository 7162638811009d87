//! What an MME does to stations and through them, over every run: what it takes for nothing, where phones are, and to whom it
//! speaks. Each law is the contract of a function that does nothing.

ghost use Rattle.laws_network.specs.Garbage.{GarbageIsAsNothing, GarbageReachesNobody};
ghost use Rattle.laws_network.specs.Placed.{BeginsPlaced, StaysPlaced};
ghost use Rattle.laws_network.specs.Spoken.{LeavesEmpty, SpeaksToTheReady};

use crate::answers::what_stations_tell_is_in_range;
use s1ap_pdus::decoded_exactly;

/// Octets that spell no S1AP message of the profile don't change the MME, and at most one message is sent for them, to their
/// station. Wherever they stand in a list of events, the MME after it and the replies to all other events are as without them
/// (TS 36.413 clause 10).
pub fn garbage_reaches_nobody()
    ensures event { GarbageReachesNobody }
    ensures run { GarbageIsAsNothing }
{
    decoded_exactly();
}

/// Over every run each connection, and each stranger that waits or is held, is at a station that is set up, and paging is repeated
/// only at stations that are set up and broadcast the tracking area in which the phone was accepted, once at each (TS 36.413
/// clauses 8.5, 8.7.3).
pub fn everybody_is_placed()
    ensures begins { BeginsPlaced }
    ensures stays { StaysPlaced }
{
    what_stations_tell_is_in_range();
}

/// What is sent for subscribers and strangers goes to stations that are set up before and after the event, and what is sent for
/// a station goes to it while it is connected.
pub fn only_ready_stations_are_spoken_to()
    ensures { SpeaksToTheReady }
{
    what_stations_tell_is_in_range();
}

/// After a station was lost, has sent S1 SETUP REQUEST or has reset the whole interface, nobody is connected or paged there, and no
/// stranger waits or is held there (TS 36.413 clauses 8.7.1, 8.7.3).
pub fn stations_are_left_empty()
    ensures { LeavesEmpty }
{}
