//! Where the connection of a subscriber comes from, at one step. The law is the contract of a function that does nothing.

ghost use Rattle.laws_subscriber.specs.Comes.{ConnectionsComeSo};

/// After a step there is no connection, or the one before, or one that came with an INITIAL UE MESSAGE on the slot's next id, with
/// a claim on the claimed stranger's id, or from another station by a path switch, which keeps the id and isn't taken on a
/// stranger's. If the connection stays, the item doesn't end it by its id, its station, or the list of a RESET (TS 36.413 clauses
/// 8.6.2.1, 8.4.4).
pub fn connections_come_so()
    ensures { ConnectionsComeSo }
{}
