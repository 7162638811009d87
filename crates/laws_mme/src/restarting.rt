//! An MME that is saved and restored: it goes on as what is remembered of it, which is all but the vectors that are spent. Each law is
//! the contract of a function that does nothing.

ghost use Rattle.laws_mme.specs.Restarts.{NobodyCanTell, RememberedStaysApart, RememberedStaysKept, RemembersOnce, RestartsAreUnseen, StatesAreRemembered};

use crate::giving::steps_look_at_two;
use emm_machine::in_use_is_kept;

/// Nobody can tell an MME from what is remembered of it: each act is answered the same, and the same is remembered afterwards, over
/// every list of acts with restarts anywhere between them. No phone is sent a different octet, and so no NAS COUNT is used twice
/// under one key.
pub fn nobody_can_tell()
    ensures acts { NobodyCanTell }
    ensures restarts { RestartsAreUnseen }
{
    steps_look_at_two();
    in_use_is_kept();
}

/// What is remembered of an MME has each slot in its state, has no more to forget, and is as an MME always is.
pub fn what_is_remembered_stays_kept()
    ensures states { StatesAreRemembered }
    ensures once { RemembersOnce }
    ensures kept { RememberedStaysKept }
    ensures apart { RememberedStaysApart }
{}
