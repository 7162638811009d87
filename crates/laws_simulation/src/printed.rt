//! The printed text of a trace, owner by owner, and so the comments in what a simulation prints. Each law is the contract of a
//! function that does nothing.

ghost use Rattle.laws_simulation.specs.Comments.{CommentsArePlayed, NobodyIsSimulated, NothingIsSimulated, SlotIsSimulated, StationIsSimulated, StrangerIsSimulated};
ghost use Rattle.laws_simulation.specs.OwnLines.{NobodyIsPrinted, NobodyIsPrintedFrom, NothingIsPrinted, RunBeginsFresh, SameSlotIsPrinted, SameStationIsPrinted, SameStrangerIsPrinted, SlotIsPrinted, SlotIsPrintedFrom, StationIsPrinted, StationIsPrintedFrom, StrangerIsPrinted, StrangerIsPrintedFrom};

use laws_mme::{
    same_to_station, same_to_stranger, slots_run_alone, stations_run_alone, strangers_run_alone,
};
use laws_network::{everybody_is_placed, what_stations_tell_is_in_range};
use mme_core::{ids_are_apart, same_to_slot, worlds_are_kept};

/// The MME of a trace is one as `Mme::new` makes it, at the first event or question, with a slot for each who is provisioned; so
/// what holds for every such MME holds for it.
pub fn runs_begin_fresh()
    ensures { RunBeginsFresh }
{}

/// A trace of which no line comes to an MME prints nothing.
pub fn no_run_prints_nothing()
    ensures { NothingIsPrinted }
{}

/// In what a trace prints, the lines of `sN` are what slot N's one machine sends over its projection of the trace, each with its
/// station and its octets, in order; a slot that isn't provisioned has none. The same holds of lines that any MME is given.
pub fn slots_are_printed()
    ensures trace { SlotIsPrinted }
    ensures absent { NobodyIsPrinted }
    ensures mme { SlotIsPrintedFrom }
    ensures mme_absent { NobodyIsPrintedFrom }
{
    slots_run_alone();
    ids_are_apart();
}

/// The lines of `xE.B` are those of the machine of the stranger with the number B at station E, over what the trace has for it.
pub fn strangers_are_printed()
    ensures trace { StrangerIsPrinted }
    ensures mme { StrangerIsPrintedFrom }
{
    strangers_run_alone();
    worlds_are_kept();
    ids_are_apart();
    everybody_is_placed();
    what_stations_tell_is_in_range();
}

/// The lines of `eE` are those that station E's own events lead to.
pub fn stations_are_printed()
    ensures trace { StationIsPrinted }
    ensures mme { StationIsPrintedFrom }
{
    stations_run_alone();
    ids_are_apart();
}

/// Two traces with the same items for a slot, apart from those that are nothing, print the same lines for it; so for a stranger, if
/// the same subscribers are provisioned, and for a station, if network and provisioning are the same.
pub fn same_is_printed_alike()
    ensures slot { SameSlotIsPrinted }
    ensures stranger { SameStrangerIsPrinted }
    ensures station { SameStationIsPrinted }
{
    slots_are_printed();
    same_to_slot();
    strangers_are_printed();
    same_to_stranger();
    stations_are_printed();
    same_to_station();
}

/// In what a simulation prints, up to the end of its script or to a line that has a fault, the lines that begin with `# out` and an
/// owner's name are, after `# `, those that are printed for that owner if the output is played; so they are those of its own
/// machine. If no line comes to an MME, there are none.
pub fn simulations_are_printed()
    ensures played { CommentsArePlayed }
    ensures nothing { NothingIsSimulated }
    ensures slot { SlotIsSimulated }
    ensures absent { NobodyIsSimulated }
    ensures station { StationIsSimulated }
    ensures stranger { StrangerIsSimulated }
{
    no_run_prints_nothing();
    slots_are_printed();
    stations_are_printed();
    strangers_are_printed();
}
