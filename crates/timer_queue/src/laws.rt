//! Laws of the order of timers.

ghost use Rattle.timer_queue.specs.Rank.{InOwnerOrder, ProcedureFirst, TimersApart};

/// No two timers have one place in the order, so a list in this order has each timer once.
pub fn timers_apart()
    ensures { TimersApart }
{}

/// The timers of an owner stand before those of each owner of a higher rank.
pub fn in_owner_order()
    ensures { InOwnerOrder }
{}

/// Of one owner the procedure's timer stands first.
pub fn procedure_first()
    ensures { ProcedureFirst }
{}
