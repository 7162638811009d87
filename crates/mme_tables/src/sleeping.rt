//! The strangers that aren't closed, as they were when they were last touched, by their ids.

ghost use Rattle.std.specs.Prelude.{◌≡◌, ◌+◌, [], OnOk, OnErr, Some, None, option_map};
ghost use Rattle.sorted_list.specs.Ordered.{at, put, without};
ghost use Rattle.slab.specs.Slab.{ContainsKey, Updates, slab_len};
ghost use Rattle.sorted_list.specs.Sorted.{lowest_from};
ghost use Rattle.mme_tables.specs.Ended.{ended_at, sleeper_ended, sleeper_ticked, stays_ticked, IsEnding, IsEndingIf};
ghost use Rattle.mme_tables.specs.KeptStrangers.{place_id, row_at, rows_of, IsTable};
ghost use Rattle.mme_tables.specs.StrangerRows.{row_id, sleeper_at, with_row, AreRows};

use crate::places::{StrangerPlace, find_place, first_place, id_is_small, take_place};
use crate::sleeper::Sleeper;
use identity_slots::AssociationId;
use slab::Slab;
use sorted_list::SortedList;
use std::alloc::{AllocError, Global};
use std::marker::Model;

/// The strangers that aren't closed, as they were when they were last touched. Contracts see them by rising id.
#[derive(Drop)]
pub(crate) struct Sleepers {
    slab: Slab<Sleeper>,
    places: SortedList<StrangerPlace>,
}

impl Model for Sleepers {
    ghost use Rattle.std.specs.Prelude.{List};
    ghost use Rattle.mme_tables.specs.StrangerRows.{Row};
    ghost use Rattle.mme_tables.specs.KeptStrangers.{rows_of, IsTable};

    ghost Value = { List Row };

    ghost view = { λ s. rows_of s.slab s.places.items };

    ghost invariant = { λ s. IsTable s.slab s.places.items };
}

// Another stranger at a key of the slab.
fn replace(slab: &mut Slab<Sleeper>, key: usize, sleeper: Sleeper)
    requires { ContainsKey slab.old key }
    ensures updates { Updates slab.old slab.new key (Some sleeper) }
    ensures len { slab_len slab.new ≡ slab_len slab.old }
{
    slab[key] = sleeper;
}

// The stranger at a key of the slab goes.
fn remove(slab: &mut Slab<Sleeper>, key: usize)
    requires { ContainsKey slab.old key }
    ensures updates { Updates slab.old slab.new key None }
    ensures len { slab_len slab.new + 1 ≡ slab_len slab.old }
{
    slab.remove(key);
}

// The stranger at a place takes the tick that ends its T3470, and is answered to stay open or not.
fn end_at(slab: &mut Slab<Sleeper>, place: &StrangerPlace, next: u64) -> bool
    requires there { ContainsKey slab.old place.now.key }
    requires ending { IsEnding next (row_at slab.old place.now).sleeper }
    ensures open { result ≡ stays_ticked place.now.id next (row_at slab.old place.now).sleeper }
    ensures updates { Updates slab.old slab.new place.now.key
        (Some (sleeper_ticked place.now.id next (row_at slab.old place.now).sleeper)) }
    ensures len { slab_len slab.new ≡ slab_len slab.old }
{
    slab[place.key].end(place.id, next)
}

// The stranger at a place takes the tick that ends its T3470, and goes where that closes it.
fn end_one(
    slab: &mut Slab<Sleeper>,
    places: &mut SortedList<StrangerPlace>,
    place: &StrangerPlace,
    next: u64,
)
    requires table { IsTable slab.old places.old.items }
    requires there { at place_id place.now.id places.old.items ≡ Some place.now }
    requires ending { IsEnding next (row_at slab.old place.now).sleeper }
    ensures rows { rows_of slab.new places.new.items
        ≡ with_row place.now.id (sleeper_ended place.now.id next (row_at slab.old place.now).sleeper)
        (rows_of slab.old places.old.items) }
    ensures table { IsTable slab.new places.new.items }
{
    if end_at(slab, place, next) {
        return;
    }
    take_place(places, place.id);
    remove(slab, place.key);
}

impl Sleepers {
    /// All are closed; takes no memory.
    pub(crate) fn new(alloc: Global) -> Sleepers
        ensures { result ≡ [] }
    {
        Sleepers {
            slab: Slab::new(alloc),
            places: SortedList::new(alloc),
        }
    }

    /// What always holds: the ids rise, and each has 32 bits.
    pub(crate) fn are_rows(&self)
        ensures { AreRows self.now }
    {
        // (a contract has the invariant where a field is used)
        let _ = &self.places;
    }

    /// The stranger with an id, as it was when it was touched. Takes no memory.
    pub(crate) fn find(&self, id: AssociationId) -> Option<&Sleeper>
        ensures { option_map (λ s. s.now) result ≡ sleeper_at id self.now }
    {
        let place = find_place(&self.places, id)?;
        self.slab.get(place.key)
    }

    /// The lowest id of at least `least`.
    pub(crate) fn first_from(&self, least: u64) -> Option<AssociationId>
        ensures { result ≡ option_map row_id (lowest_from row_id least self.now) }
    {
        let place = first_place(&self.places, least)?;
        Some(place.id)
    }

    /// The stranger with an id is that from now on; refused, all are as they were.
    pub(crate) fn put(&mut self, id: AssociationId, sleeper: Sleeper) -> Result<(), AllocError>
        ensures ok { OnOk result (self.new ≡ put row_id (record { id = id; sleeper = sleeper }) self.old) }
        ensures err { OnErr result (self.new ≡ self.old) }
    {
        id_is_small(id);
        if let Some(place) = find_place(&self.places, id) {
            replace(&mut self.slab, place.key, sleeper);
            return Ok(());
        }
        self.slab.reserve(1)?;
        self.places.reserve(1)?;
        let key = self.slab.insert_reserved(sleeper);
        self.places.insert_reserved(StrangerPlace { id, key });
        Ok(())
    }

    /// The stranger with an id is closed. Takes no memory.
    pub(crate) fn close(&mut self, id: AssociationId)
        ensures { self.new ≡ without row_id id self.old }
    {
        if let Some(place) = take_place(&mut self.places, id) {
            remove(&mut self.slab, place.key);
        }
    }

    /// The stranger with an id, if it isn't closed, takes the tick at the clock `next`, which ends its T3470. Takes no memory.
    pub(crate) fn end(&mut self, id: AssociationId, next: u64)
        requires { IsEndingIf next (sleeper_at id self.old) }
        ensures { self.new ≡ ended_at id next self.old }
    {
        if let Some(place) = find_place(&self.places, id) {
            end_one(&mut self.slab, &mut self.places, &place, next);
        }
    }
}
