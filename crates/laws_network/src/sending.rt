//! How much an MME sends for each event, as what it is read, and how much it keeps for a phone, over every run. Each law is the
//! contract of a function that does nothing.

ghost use Rattle.laws_network.specs.Associated.{AllAreAssociated};
ghost use Rattle.laws_network.specs.Few.{EventsSendFew};
ghost use Rattle.laws_network.specs.Kept.{PhonesKeepLittle};
ghost use Rattle.laws_network.specs.Kinds.{EverythingIsOfAnMme};
ghost use Rattle.laws_network.specs.Overwritten.{KeysAreOverwritten};
ghost use Rattle.laws_network.specs.Said.{SaysOfNetwork};

use crate::ranges::runs_are_in_range;
use crate::stations::everybody_is_placed;
use laws_mme::work_is_bounded;
use s1ap_pdus::what_is_encoded;

/// Each message is read as one that an MME sends for its owner: S1 SETUP RESPONSE and FAILURE and RESET ACKNOWLEDGE for a station
/// alone, radio keys and PAGING for a subscriber alone (TS 36.413 clause 8).
pub fn everything_is_of_an_mme()
    ensures { EverythingIsOfAnMme }
{
    what_is_encoded();
}

/// Each NAS message for a subscriber is the written form of one that a network sends, plain or in its protected form, at every step
/// of every run (TS 24.301 clauses 8.2, 8.3, 9.1).
pub fn nas_is_of_a_network()
    ensures { SaysOfNetwork }
{
    what_is_encoded();
}

/// What is sent for a subscriber at a step has the ids of the phone's connection and goes to its station, as it was before the step
/// or as the item makes it. The exceptions: the answer to a refused request, which goes back on the slot's next id; ERROR
/// INDICATION and PATH SWITCH REQUEST FAILURE, which go to where the item came from; and PAGING (TS 36.413 clauses 9.2.3.3,
/// 9.2.3.4).
pub fn each_goes_on_its_association()
    ensures { AllAreAssociated }
{
    what_is_encoded();
}

/// A message of a station makes an MME send at most three; a tick one for each stranger, and for each subscriber one, or one to
/// each station where its phone was paged; waiting data one to each station; a withdrawn subscription one; a station that comes or
/// goes none.
pub fn an_event_sends_few()
    ensures { EventsSendFew }
{
    what_is_encoded();
    work_is_bounded();
}

/// What an MME keeps for a phone to be sent again has at most 1,000 octets, or is a list of at most 128 stations, over every run.
pub fn a_phone_keeps_little()
    ensures { PhonesKeepLittle }
{
    everybody_is_placed();
    runs_are_in_range();
}

/// A message with an element that holds a key, KeNB or NH, is left as zeros once it is forgotten (`SentOctets::forget`).
pub fn keys_are_overwritten()
    ensures { KeysAreOverwritten }
{}
