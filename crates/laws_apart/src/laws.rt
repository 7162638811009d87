//! The laws: each is the contract of a function that does nothing.

ghost use Rattle.laws_apart.specs.Alone.{IdsAreMade, IdsStayMade};
ghost use Rattle.laws_apart.specs.Goes.{ItemClaimsMade, OctetsGoMade, WaitsStayMade};
ghost use Rattle.laws_apart.specs.Apart.{BeginsApart, NoTwoShare, NoneHasWaiting, StaysApart};
ghost use Rattle.laws_apart.specs.Associations.{EachIdOnce, FoundExactly};

use laws_codecs::decoded_is_in_range;
use laws_subscriber::connections_come_so;

/// A connection's id is the slot's own, or made of the station and the number where it is, as a stranger's; so it stays over every
/// list of items in which each claimed stranger has such an id.
pub fn ids_are_made()
    ensures own { IdsAreMade }
    ensures run { IdsStayMade }
{
    connections_come_so();
}

/// Whatever octets a station sends, a stranger that begins has the id that is made of its station and number, and nobody is claimed
/// but by a stranger.
pub fn octets_go_made()
    ensures { OctetsGoMade }
{
    decoded_is_in_range();
}

/// A stranger that waits, or is claimed, has the id that is made of its station and number.
pub fn strangers_have_made_ids()
    ensures waits { WaitsStayMade }
    ensures claims { ItemClaimsMade }
{}

/// Each connection's id is its slot's own, or that of a stranger whom this slot holds, at the station and number that it is made
/// of: so it is where nobody is connected, and so it stays at each event.
pub fn ids_stay_apart()
    ensures begins { BeginsApart }
    ensures stays { StaysApart }
{
    connections_come_so();
}

/// No two subscribers have one id, and none has that of a stranger that waits (TS 36.413 clause 9.2.3.3).
pub fn no_two_share_an_id()
    ensures two { NoTwoShare }
    ensures waiting { NoneHasWaiting }
{}

/// The associations of an MME, its subscribers' and the waiting strangers', are a map by id: each id stands once, and alone says
/// whose an association is, and where.
pub fn associations_are_a_map()
    ensures once { EachIdOnce }
    ensures found { FoundExactly }
{}
