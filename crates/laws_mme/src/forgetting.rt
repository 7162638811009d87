//! What is kept of a phone that left, and that nobody can see it, over every run of the MME. Each law is the contract of a function
//! that does nothing.

ghost use Rattle.laws_mme.specs.Left.{EverybodyHasLeft, WhoIsDeregisteredHasLeft};
ghost use Rattle.laws_mme.specs.Unseen.{NobodySees};

use laws_subscriber::{clocks_are_kept, soundness_is_kept};

/// Of a deregistered phone nothing is kept but how many ids its slot gave, the place of the next vector, and the tracking area and
/// the capability of its last ATTACH REQUEST: no keys and counts, no M-TMSI, no bearer, no connection, nothing to be sent again and
/// no countdown. So it is over every run of one subscriber, and of an MME (TS 24.301 clauses 5.3.5, 5.5.1.2.5, 5.5.2).
pub fn nothing_is_kept()
    ensures one { WhoIsDeregisteredHasLeft }
    ensures all { EverybodyHasLeft }
{
    soundness_is_kept();
    clocks_are_kept();
}

/// And nobody sees that tracking area and that capability: two phones that left, whose slots gave as many ids and whose next
/// vectors have the same place, are sent the same over every list of items, and are in the same states after it.
pub fn nobody_sees_what_is_kept()
    ensures { NobodySees }
{}
