//! The list by rising id that leads to the slab of the strangers.

ghost use Rattle.std.specs.Prelude.{◌≡◌, ◌<◌, ◌^◌};
ghost use Rattle.sorted_list.specs.Ordered.{at, without};
ghost use Rattle.sorted_list.specs.Sorted.{lowest_from};
ghost use Rattle.mme_tables.specs.KeptStrangers.{place_id};

use identity_slots::AssociationId;
use sorted_list::{Keyed, SortedList};

/// Where the slab holds the stranger with an id.
#[derive(Clone, Copy)]
pub(crate) struct StrangerPlace {
    pub(crate) id: AssociationId,
    pub(crate) key: usize,
}

impl Keyed for StrangerPlace {
    ghost rank = { place_id };

    fn key(&self) -> u128 {
        u128::from(self.id.get())
    }
}

/// An id has 32 bits.
pub(crate) fn id_is_small(id: AssociationId)
    ensures { id < 2 ^ 32 }
{
    // (a contract has the range of a number that is read)
    let _ = id.get();
}

/// The place of an id.
pub(crate) fn find_place(
    places: &SortedList<StrangerPlace>,
    id: AssociationId,
) -> Option<StrangerPlace>
    ensures { result ≡ at place_id id places.now.items }
{
    places.find(u128::from(id.get()))
}

/// Takes the place of an id out.
pub(crate) fn take_place(
    places: &mut SortedList<StrangerPlace>,
    id: AssociationId,
) -> Option<StrangerPlace>
    ensures place { result ≡ at place_id id places.old.items }
    ensures items { places.new.items ≡ without place_id id places.old.items }
{
    places.take(u128::from(id.get()))
}

/// The place with the lowest id of at least `least`.
pub(crate) fn first_place(places: &SortedList<StrangerPlace>, least: u64) -> Option<StrangerPlace>
    ensures { result ≡ lowest_from place_id least places.now.items }
{
    places.first_from(u128::from(least))
}
