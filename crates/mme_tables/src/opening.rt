//! The associations of slots and of strangers that wait: opened, closed and moved.

ghost use Rattle.std.specs.Prelude.{◌≡◌, ◌↔◌, ◌+◌, ◌<◌, ◌≤◌, ℕ, Some, None, true};
ghost use Rattle.association_table.specs.Table.{found};
ghost use Rattle.mme_tables.specs.Whereabouts.{association_of, stranger_association};
ghost use Rattle.mme_tables.specs.KeptPlaces.{IsBegun, IsEnded, IsOpen, IsReopened, IsVacant};

use association_table::{Association, AssociationOwner, Associations};
use identity_slots::{AssociationId, Slot};
use mme_types::Connection;

// A connection as a slot's association.
fn association_of(slot: Slot, connection: &Connection) -> Association
    ensures { result ≡ association_of slot connection.now }
{
    Association {
        id: connection.id.get(),
        owner: AssociationOwner::Subscriber(slot.get()),
        station: connection.station.get(),
        enb_ue_id: connection.enb_ue_id.get() as u32,
    }
}

/// Whether an association is a slot's, with that connection.
pub(crate) fn is_association_of(
    association: &Association,
    slot: Slot,
    connection: &Connection,
) -> bool
    ensures { (result ≡ true) ↔ (association.now ≡ association_of slot connection.now) }
{
    *association == association_of(slot, connection)
}

// A slot has an association, whose id has none. Takes no memory.
fn open(associations: &mut Associations, slot: Slot, connection: &Connection)
    requires free { found connection.now.id associations.old.entries ≡ None }
    requires room { 0 < associations.old.room }
    ensures each { IsReopened slot None (Some connection.now) associations.old.entries associations.new.entries }
    ensures room { associations.old.room ≤ associations.new.room + 1 }
{
    associations.open_reserved(association_of(slot, connection));
}

// An association is closed. Takes no memory.
fn close(associations: &mut Associations, connection: &Connection)
    ensures each { (slot : ℕ) → IsReopened slot (Some connection.now) None associations.old.entries associations.new.entries }
    ensures room { associations.old.room ≤ associations.new.room }
{
    associations.close(connection.id.get());
}

// A slot's association is elsewhere, with the id that it has (TS 36.413 clause 8.4.4). Takes no memory.
fn move_there(associations: &mut Associations, slot: Slot, old: &Connection, new: &Connection)
    requires id { old.now.id ≡ new.now.id }
    requires open { found old.now.id associations.old.entries ≡ Some (association_of slot old.now) }
    ensures each { IsReopened slot (Some old.now) (Some new.now) associations.old.entries associations.new.entries }
    ensures room { associations.old.room ≤ associations.new.room }
{
    let to = association_of(slot, new);
    let _ = associations.move_to(to.id, to.station, to.enb_ue_id);
}

// A slot has a connection in place of another. Takes no memory.
fn replace(associations: &mut Associations, slot: Slot, old: &Connection, new: &Connection)
    requires open { IsOpen slot (Some old.now) associations.old.entries }
    requires vacant { IsVacant (Some old.now) (Some new.now) associations.old.entries }
    requires room { 0 < associations.old.room }
    ensures each { IsReopened slot (Some old.now) (Some new.now) associations.old.entries associations.new.entries }
    ensures room { associations.old.room ≤ associations.new.room + 1 }
{
    if old.id == new.id {
        move_there(associations, slot, old, new);
        return;
    }
    close(associations, old);
    open(associations, slot, new);
}

/// A slot has a connection, or none, in place of the one that it had. Takes no memory.
pub(crate) fn reopen(
    associations: &mut Associations,
    slot: Slot,
    old: &Option<Connection>,
    new: &Option<Connection>,
)
    requires open { IsOpen slot old.now associations.old.entries }
    requires vacant { IsVacant old.now new.now associations.old.entries }
    requires room { 0 < associations.old.room }
    ensures each { IsReopened slot old.now new.now associations.old.entries associations.new.entries }
    ensures room { associations.old.room ≤ associations.new.room + 1 }
{
    match old {
        Some(old) => match new {
            Some(new) => replace(associations, slot, old, new),
            None => close(associations, old),
        },
        None => match new {
            Some(new) => open(associations, slot, new),
            None => {}
        },
    }
}

// A stranger that waits as an association.
fn stranger_association(place: &Connection) -> Association
    ensures { result ≡ stranger_association place.now }
{
    Association {
        id: place.id.get(),
        owner: AssociationOwner::Stranger,
        station: place.station.get(),
        enb_ue_id: place.enb_ue_id.get() as u32,
    }
}

/// A stranger that waits has an association, whose id has none. Takes no memory.
pub(crate) fn open_stranger(associations: &mut Associations, place: &Connection)
    requires free { found place.now.id associations.old.entries ≡ None }
    requires room { 0 < associations.old.room }
    ensures each { IsBegun place.now associations.old.entries associations.new.entries }
    ensures room { associations.old.room ≤ associations.new.room + 1 }
{
    associations.open_reserved(stranger_association(place));
}

/// The association with an id is closed, if it is that of a stranger. Takes no memory.
pub(crate) fn close_stranger(associations: &mut Associations, id: AssociationId)
    ensures each { IsEnded id associations.old.entries associations.new.entries }
    ensures room { associations.old.room ≤ associations.new.room }
{
    let id = id.get();
    let Some(association) = associations.find(id) else {
        return;
    };
    match association.owner {
        AssociationOwner::Stranger => {
            associations.close(id);
        }
        AssociationOwner::Subscriber(_) => {}
    }
}
