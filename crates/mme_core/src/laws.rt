//! Laws of the definitions: each is the contract of a function that does nothing.

ghost use Rattle.mme_core.specs.Apart.{AddedStaysApart, EventsGoMade, GivenStaysApart, IdsBeginApart, IdsStayApart};
ghost use Rattle.mme_core.specs.Kept.{AddedStaysKept, BeginsKept, GivenStaysKept, StaysKept};
ghost use Rattle.mme_core.specs.Laws.{Exchanges, GoesAlone, NamedById, NamedByIdentity, NamedByImsi, OneOutput, RepliesSo, SameFromMme, SameToSlot};

use emm_machine::in_use_is_kept;
use laws_apart::{ids_stay_apart, octets_go_made};
use laws_subscriber::{clocks_are_kept, soundness_is_kept, strangers_are_closed};

/// Two lists of events with the same items for a slot, apart from those that are nothing, tell it the same messages in the same
/// order and leave it in the same state; configurations, stations and strangers may differ.
pub fn same_to_slot()
    ensures machine { SameToSlot }
    ensures mme { SameFromMme }
{}

/// After a list of events each subscriber is in the state of its one machine over what the list has for its slot, whatever else the
/// list holds.
pub fn slots_end()
    ensures { GoesAlone }
{}

/// What always holds of an MME (`IsKept`): it begins so, and every run keeps it so, and so does a vector or a subscriber more.
pub fn worlds_are_kept()
    ensures begins { BeginsKept }
    ensures stays { StaysKept }
    ensures given { GivenStaysKept }
    ensures added { AddedStaysKept }
{
    in_use_is_kept();
    soundness_is_kept();
    clocks_are_kept();
    strangers_are_closed();
}

/// No two phones share an association's id (`AreApart`): an MME begins so, and every run keeps it so, and so does a vector or a
/// subscriber more, since a stranger that begins has the id that is made of its station and number (TS 36.413 clause 9.2.3.3).
pub fn ids_are_apart()
    ensures begins { IdsBeginApart }
    ensures stays { IdsStayApart }
    ensures given { GivenStaysApart }
    ensures added { AddedStaysApart }
    ensures goes { EventsGoMade }
{
    ids_stay_apart();
    octets_go_made();
}

/// Data and the end of a subscription name the slot of their IMSI; from a station that is set up, an INITIAL UE MESSAGE names that
/// of its identity, and a message with an id that of the id.
pub fn names_slot()
    ensures imsi { NamedByImsi }
    ensures identity { NamedByIdentity }
    ensures id { NamedById }
{}

/// Two events in a row that name different slots may change places: each has the same reply in either order, and the MME is the
/// same after both.
pub fn exchanges()
    ensures { Exchanges }
{}

/// The messages of all owners' machines at an event, in the order of owners, are a single list, which is the reply to an event that
/// isn't refused.
pub fn one_output()
    ensures reply { RepliesSo }
    ensures one { OneOutput }
{}
