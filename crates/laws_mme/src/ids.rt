//! No two phones share an association's id, over every run of the MME. Each law is the contract of a function that does nothing.

ghost use Rattle.mme_core.specs.Apart.{IdsStayApart};
ghost use Rattle.laws_mme.specs.ApartInMme.{ItemsClaimMade, MmeBeginsApart, NoTwoShareInMme, NoneHasWaitingInMme, RunsApart};
ghost use Rattle.laws_mme.specs.AssociationsInMme.{EachIdOnceInMme, EachIdOnceInRuns, FoundExactlyInMme};
ghost use Rattle.laws_mme.specs.Reached.{MessagesReach};

use laws_apart::strangers_have_made_ids;

/// Over every run of an MME the ids of connections are as `ids_stay_apart` says, and each stranger that a slot's items claim has
/// the id that is made of its station and number.
pub fn ids_of_an_mme_are_apart()
    ensures begins { MmeBeginsApart }
    ensures stays { IdsStayApart }
    ensures claims { ItemsClaimMade }
{
    mme_core::ids_are_apart();
    strangers_have_made_ids();
}

/// So no two subscribers ever have one id, and none has that of a stranger that waits (TS 36.413 clause 9.2.3.3).
pub fn no_two_ever_share_an_id()
    ensures two { NoTwoShareInMme }
    ensures waiting { NoneHasWaitingInMme }
    ensures runs { RunsApart }
{
    mme_core::ids_are_apart();
    laws_apart::no_two_share_an_id();
}

/// Over every run of an MME its associations are as `associations_are_a_map` says.
pub fn associations_stay_a_map()
    ensures once { EachIdOnceInMme }
    ensures runs { EachIdOnceInRuns }
    ensures found { FoundExactlyInMme }
{
    mme_core::ids_are_apart();
    laws_apart::associations_are_a_map();
}

/// So what a station that is set up sends with the id of a phone's connection reaches that phone's subscriber, and no other.
pub fn messages_reach_their_phone()
    ensures { MessagesReach }
{}
