//! What ends of itself in an MME, where phones fall silent. Each law is the contract of a function that does nothing.

ghost use Rattle.laws_mme.specs.EndingWorlds.{AllAreForgotten, AllEndsInTime, EveryRunEnds, SilentSlotEnds, SilentSlotIsForgotten, TicksReachEveryone};

use laws_subscriber::{
    idle_phones_are_forgotten, procedures_end, silent_phones_end, strangers_are_closed,
};
use mme_core::{slots_end, worlds_are_kept};

/// Ticks reach every subscriber. After 30 in a row (`longest_procedure`), whatever an MME heard before, no procedure is under way,
/// nobody is paged and no stranger waits; after 3,510 (`longest_registration`) each phone is deregistered, unless it was registered
/// and connected.
pub fn everything_ends()
    ensures reach { TicksReachEveryone }
    ensures all { AllEndsInTime }
    ensures from_start { EveryRunEnds }
    ensures forgotten { AllAreForgotten }
{
    worlds_are_kept();
    procedures_end();
    idle_phones_are_forgotten();
    strangers_are_closed();
}

/// A phone that says nothing over a list of events, for which no data comes and whose subscription stays, is in no procedure once
/// 30 of the events were ticks, whatever the others are; and deregistered once 3,510 were, unless it was registered and connected.
pub fn silent_slots_end()
    ensures procedure { SilentSlotEnds }
    ensures forgotten { SilentSlotIsForgotten }
{
    slots_end();
    silent_phones_end();
}
