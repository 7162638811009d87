//! Whom an item or a tick leaves as they are, so that a look at those whom it reaches is a look at all. Each law is the contract of
//! a function that does nothing.

ghost use Rattle.laws_mme.specs.StrangerTables.{AllTurn, OneTurns, QuietNotice, StationSilent, StrangerTicksAreAged};
ghost use Rattle.laws_mme.specs.SubscriberTables.{AllSendAsDue, AllSendAsTouched, QuietTick, StillStays, TickIsOfAll, TicksAreAged, TouchedIsOfAll, UndueSendNothing};

/// An item for which `still` holds changes nothing in a subscriber's state, and sends nothing.
pub fn still_stays()
    ensures { StillStays }
{}

/// Where each countdown that runs has more than one tick left, a tick sends and accepts nothing, and counts each down.
pub fn quiet_tick()
    ensures { QuietTick }
{}

/// Where each countdown that runs has more than N ticks left, N ticks count each down by N and leave all else; and so a stranger's
/// T3470, where they don't end it.
pub fn ticks_are_aged()
    ensures subscriber { TicksAreAged }
    ensures stranger { StrangerTicksAreAged }
{}

/// Where those who are due were prepared for a tick, each subscriber is as after it; who isn't due sends nothing at it, and so what
/// they send is all that is sent.
pub fn tick_is_of_all()
    ensures states { TickIsOfAll }
    ensures silent { UndueSendNothing }
    ensures sent { AllSendAsDue }
{}

/// Where those whom an item touches were prepared for it, each subscriber is as after it, and what they send is all that is sent.
pub fn touched_is_of_all()
    ensures states { TouchedIsOfAll }
    ensures sent { AllSendAsTouched }
{}

/// A tick that doesn't end T3470 leaves a stranger a tick less, and nothing is sent.
pub fn quiet_notice()
    ensures { QuietNotice }
{}

/// At what happens to a station nothing is sent to strangers.
pub fn station_silent()
    ensures { StationSilent }
{}

/// Where the ids rise and one stranger takes an input, each goes as its own machine, the others with nothing; and so at a notice to
/// all.
pub fn strangers_turn()
    ensures one { OneTurns }
    ensures all { AllTurn }
{}
