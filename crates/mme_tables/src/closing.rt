//! Slots whose association was closed: their phones are connected nowhere.

ghost use Rattle.std.specs.Prelude.{◌≤◌, length};
ghost use Rattle.std.specs.List.{list_any};
ghost use Rattle.identity_slots.specs.Ids.{slots};
ghost use Rattle.mme_tables.specs.KeptPlaces.{is_held, Disconnects};

use crate::whereabouts::Whereabouts;
use association_table::{Association, AssociationOwner};

// The slot that had an association is connected nowhere, if a slot had it.
fn disconnect_owner(by_slot: &mut Vec<Whereabouts>, association: &Association)
    requires { length by_slot.old.items ≤ slots }
    ensures { Disconnects (λ i. is_held i association.now) by_slot.old.items by_slot.new.items }
{
    let AssociationOwner::Subscriber(slot) = association.owner else {
        return;
    };
    let place = slot as usize;
    if place >= by_slot.len() {
        return;
    }
    let is_paged = by_slot[place].is_paged;
    by_slot[place] = Whereabouts {
        connection: None,
        is_paged,
    };
}

/// The slots that had these associations are connected nowhere. Takes no memory.
pub(crate) fn disconnect_owners(by_slot: &mut Vec<Whereabouts>, closed: &[Association])
    requires { length by_slot.old.items ≤ slots }
    ensures { Disconnects (λ i. list_any (is_held i) closed.now) by_slot.old.items by_slot.new.items }
{
    for association in closed {
        disconnect_owner(by_slot, association);
    }
}
