//! What one step of a subscriber's machine can do, whoever sends. Each law is the contract of a function that does nothing.

ghost use Rattle.laws_mme.specs.Challenges.{AttachSpendsOne, VectorsAreSpentSo, VectorsOverRuns};
ghost use Rattle.laws_mme.specs.Connections.{ConnectionsStay};
ghost use Rattle.laws_mme.specs.Work.{SendsAtMost};

/// A step spends no vector, or the next one, and this only for an ATTACH REQUEST in the phone's name, whoever sent it, or if the
/// phone reports a synch failure while its challenge is open; an ATTACH REQUEST that isn't refused spends one. A list spends no
/// more vectors than it has such items, and no more than there are (TS 33.401 clause 6.1.1, TS 24.301 clause 5.4.2.6 e).
pub fn vectors_are_spent_so()
    ensures step { VectorsAreSpentSo }
    ensures attach { AttachSpendsOne }
    ensures run { VectorsOverRuns }
{}

/// Only these end or move a connection (`MayEnd`): its own station (a message on the connection, the first message of another phone
/// on its id, its loss, its RESET), an ATTACH REQUEST that names the phone, a message that carries the phone's MAC, a PATH SWITCH
/// REQUEST with its id, a timer, the withdrawn subscription (TS 36.413 clauses 8.3.3, 8.4.4, 8.7.1).
pub fn connections_stay()
    ensures { ConnectionsStay }
{}

/// A step sends at most three messages for a first message or a claimed stranger, two for one on an association, one for a
/// withdrawn subscription, one at a tick or one to each station where the phone was paged, one to each station where data waits,
/// and none at any other item.
pub fn work_is_bounded()
    ensures { SendsAtMost }
{}
