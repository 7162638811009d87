//! What answers stations and strangers has a written form, and what stations tell is in range. Each law is the contract of a
//! function that does nothing.

ghost use Rattle.laws_network.specs.Answered.{FaultIsAnswered, IdentityAskedIsSent, IncompatibleIsAnswered, PartResetIsAnswered, RefusedIsSent, ReleasedIsSent, ResetIsAnswered, SetupIsAnswered, UnknownIsAnswered};
ghost use Rattle.laws_network.specs.Received.{EntriesAreInRange, MessagesAreInRange, ResetsAreInRange};

use crate::messages::phone_messages_are_written;
use crate::sizes::short_messages_are_written;
use laws_codecs::decoded_is_in_range;

/// An S1 SETUP REQUEST, a RESET at a station that is set up (one of a part with all its items in their order), octets with a fault
/// that has a cause, a message out of place and one with the id of nobody are each answered: the answer has a written form
/// (TS 36.413 clauses 8.7, 10).
pub fn stations_are_answered()
    ensures setup { SetupIsAnswered }
    ensures reset { ResetIsAnswered }
    ensures part_reset { PartResetIsAnswered }
    ensures fault { FaultIsAnswered }
    ensures incompatible { IncompatibleIsAnswered }
    ensures unknown { UnknownIsAnswered }
{
    phone_messages_are_written();
    short_messages_are_written();
    decoded_is_in_range();
}

/// What a stranger is told is sent: the release of its association, a NAS message before it, and what asks for its identity.
pub fn strangers_are_answered()
    ensures released { ReleasedIsSent }
    ensures refused { RefusedIsSent }
    ensures asked { IdentityAskedIsSent }
{
    phone_messages_are_written();
}

/// What stations tell of phones is in range, as the laws of one subscriber's machine require: each decoded INITIAL UE MESSAGE and
/// message with an MME UE S1AP ID, and the ids in a RESET's list (TS 36.413 clause 9.1).
pub fn what_stations_tell_is_in_range()
    ensures entries { EntriesAreInRange }
    ensures messages { MessagesAreInRange }
    ensures resets { ResetsAreInRange }
{
    decoded_is_in_range();
}
