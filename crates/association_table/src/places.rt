//! The three lists in order that lead to the slab's entries: by id, by station and id, and by station, eNB UE id and id.

ghost use Rattle.std.specs.Prelude.{◌≡◌, ℕ, ◌+◌, ◌*◌, ◌<◌, ◌≤◌, ◌^◌, Option, None, IsSome, true, is_some};
ghost use Rattle.sorted_list.specs.Ordered.{at, add, without, Rising, Every};
ghost use Rattle.association_table.specs.Kept.{place_id, index_entry, index_rank, station_group, number_group, group_at, IsIndexEntry, first_indexed};

use crate::association::{Association, AssociationOwner};
use sorted_list::{Keyed, SortedList, paired, paired_short};

/// What the slab holds of an association.
#[derive(Clone, Copy)]
pub(crate) struct Held {
    pub(crate) owner: AssociationOwner,
    pub(crate) station: u8,
    pub(crate) enb_ue_id: u32,
}

/// Where the slab holds the association with an id.
#[derive(Clone, Copy)]
pub(crate) struct SlabPlace {
    pub(crate) id: u32,
    pub(crate) key: usize,
}

impl Keyed for SlabPlace {
    ghost rank = { place_id };

    fn key(&self) -> u128 {
        u128::from(self.id)
    }
}

/// An association in an index: among those of a station, or of an eNB UE id there.
#[derive(Clone, Copy)]
pub(crate) struct IndexEntry {
    pub(crate) group: u64,
    pub(crate) id: u32,
}

/// The group of an eNB UE id of a station: by station, and of one station by that id.
pub(crate) fn group_at(station: u8, enb_ue_id: u32) -> u64
    ensures group { result ≡ group_at station enb_ue_id }
    ensures small { enb_ue_id < 2 ^ 32 }
{
    paired_short(u32::from(station), enb_ue_id)
}

/// The entry of an association among those of its station.
pub(crate) fn station_entry(association: Association) -> IndexEntry
    ensures { result ≡ index_entry station_group association }
{
    IndexEntry {
        group: u64::from(association.station),
        id: association.id,
    }
}

/// The entry of an association among those of its eNB UE id.
pub(crate) fn number_entry(association: Association) -> IndexEntry
    ensures entry { result ≡ index_entry number_group association }
    ensures small { association.enb_ue_id < 2 ^ 32 }
{
    IndexEntry {
        group: group_at(association.station, association.enb_ue_id),
        id: association.id,
    }
}

/// The key by which the entries of an index are in order: by group, and of one group by id.
fn index_rank(entry: IndexEntry) -> u128
    ensures { result ≡ index_rank entry }
{
    paired(entry.group, u64::from(entry.id))
}

impl Keyed for IndexEntry {
    ghost rank = { index_rank };

    fn key(&self) -> u128 {
        index_rank(*self)
    }
}

/// The place of an id.
pub(crate) fn find_place(places: &SortedList<SlabPlace>, id: u32) -> Option<SlabPlace>
    ensures { result ≡ at place_id id places.now.items }
{
    places.find(u128::from(id))
}

/// Takes the place of an id out.
pub(crate) fn take_place(places: &mut SortedList<SlabPlace>, id: u32) -> Option<SlabPlace>
    ensures place { result ≡ at place_id id places.old.items }
    ensures items { places.new.items ≡ without place_id id places.old.items }
    ensures room { places.old.steady ≡ true → is_some result ≡ true → places.old.room + 1 ≤ places.new.room }
    ensures steady { places.new.steady ≡ places.old.steady }
{
    places.take(u128::from(id))
}

/// Takes an entry out.
pub(crate) fn take_entry(index: &mut SortedList<IndexEntry>, entry: IndexEntry)
    requires { IsSome (at index_rank (index_rank entry) index.old.items) }
    ensures items { index.new.items ≡ without index_rank (index_rank entry) index.old.items }
    ensures room { index.old.steady ≡ true → index.old.room + 1 ≤ index.new.room }
    ensures steady { index.new.steady ≡ index.old.steady }
{
    index.take(index_rank(entry));
}

/// The group's entry with the lowest id of at least `least`: that id.
pub(crate) fn first_indexed(index: &SortedList<IndexEntry>, group: u64, least: u64) -> Option<u32>
    requires rising { Rising index_rank index.now.items }
    requires small { Every IsIndexEntry index.now.items }
    requires least { least ≤ 2 ^ 32 }
    ensures { result ≡ first_indexed group least index.now.items }
{
    let entry = index.first_from(paired(group, least))?;
    if entry.group != group {
        return None;
    }
    Some(entry.id)
}
