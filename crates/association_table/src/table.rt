//! The map.

ghost use Rattle.std.specs.Prelude.{◌≡◌, ◌≢◌, ℕ, ◌+◌, ◌-◌, ◌*◌, ◌<◌, ◌≤◌, ◌^◌, ◌↔◌, List, [], IfOk, IfErr, OnOk, OnErr, IsTrue, IsSome, Option, Some, None, Err, is_some, IsOk, if◌then◌else◌};
ghost use Rattle.association_table.specs.declared.association.OpenFault.TheVariants.{Taken, NoMemory};
ghost use Rattle.association_table.specs.declared.association.MoveFault.TheVariants.{Unknown};
ghost use Rattle.sorted_list.specs.Ordered.{Rising};
ghost use Rattle.association_table.specs.Table.{association_id, found, opened, closed, moved, at_station, elsewhere};
ghost use Rattle.association_table.specs.Listing.{listed_at, unlisted};
ghost use Rattle.association_table.specs.Kept.{station_group, first_from};
ghost use Rattle.association_table.specs.Gathering.{first_numbered, closed_all};

use crate::association::{Association, Listed, MoveFault, OpenFault};
use crate::gathering::gathered;
use crate::places::{
    Held, IndexEntry, SlabPlace, find_place, first_indexed, group_at, number_entry, station_entry,
    take_entry, take_place,
};
use slab::Slab;
use sorted_list::SortedList;
use std::alloc::{AllocError, Global};
use std::marker::Model;

pub(crate) fn association_id(association: Association) -> u32
    ensures { result ≡ association.id }
{
    association.id
}

/// A map from id to owner, station and eNB UE S1AP ID: `listed` answers those of a station that some item of a list matches, and
/// `close_listed` closes just them. If there is room, `reserve` isn't refused, nor `open` for lack of memory; `open_reserved`,
/// `close` and `clear_station` never are.
///
/// Contracts see the entries by rising id, and for how many more there is room, which a refused `reserve` or `open` may leave more
/// of.
#[derive(Drop)]
pub struct Associations {
    slab: Slab<Held>,
    by_id: SortedList<SlabPlace>,
    by_station: SortedList<IndexEntry>,
    by_number: SortedList<IndexEntry>,
    alloc: Global,
}

impl Model for Associations {
    ghost use Rattle.std.specs.Prelude.{◌≡◌, ◌-◌, min, true};
    ghost use Rattle.slab.specs.Slab.{slab_len};
    ghost use Rattle.association_table.specs.Table.{Table};

    ghost Value = { Table };

    ghost use Rattle.association_table.specs.Kept.{entries_of, IsTable};

    ghost view = { λ t. record {
      entries = entries_of t.slab t.by_id.items;
      room = min (t.slab.capacity - slab_len t.slab)
          (min t.by_id.room (min t.by_station.room t.by_number.room));
    } };

    ghost invariant = { λ t. IsTable t.slab t.by_id.items t.by_station.items t.by_number.items × (t.by_id.steady ≡ true)
        × (t.by_station.steady ≡ true) × (t.by_number.steady ≡ true) };
}

impl Associations {
    /// No associations.
    pub fn new(alloc: Global) -> Self
        ensures { result.entries ≡ [] }
    {
        Associations {
            slab: Slab::new(alloc),
            by_id: SortedList::steady(alloc),
            by_station: SortedList::steady(alloc),
            by_number: SortedList::steady(alloc),
            alloc,
        }
    }

    /// The association with an id, if there is one. Takes no memory. The entries stand by rising id, each id once.
    pub fn find(&self, id: u32) -> Option<Association>
        ensures value { result ≡ found id self.now.entries }
        ensures order { Rising association_id self.now.entries }
    {
        let place = find_place(&self.by_id, id)?;
        match self.slab.get(place.key) {
            Some(held) => Some(Association {
                id,
                owner: held.owner,
                station: held.station,
                enb_ue_id: held.enb_ue_id,
            }),
            None => None,
        }
    }

    /// Makes room for `more` further ones. Where there is room enough it isn't refused; where it is the entries are as they were.
    pub fn reserve(&mut self, more: usize) -> Result<(), AllocError>
        ensures entries { self.new.entries ≡ self.old.entries }
        ensures room { OnOk result (more ≤ self.new.room) }
        ensures kept { self.old.room ≤ self.new.room }
        ensures enough { more ≤ self.old.room → IsOk result }
    {
        // (that it holds no more than fits)
        let _ = self.slab.capacity();
        self.slab.reserve(more)?;
        self.by_id.reserve(more)?;
        self.by_station.reserve(more)?;
        self.by_number.reserve(more)?;
        Ok(())
    }

    /// Opens an association: Taken where its id has one, else NoMemory where there is no room for it and it was refused. All
    /// growths come first, and a refused call leaves the entries as they were, and no less room.
    pub fn open(&mut self, association: Association) -> Result<(), OpenFault>
        ensures entries { OnOk result (self.new.entries ≡ opened association self.old.entries) }
        ensures taken { (result ≡ Err Taken) ↔ IsSome (found association.id self.old.entries) }
        ensures err { OnErr result (self.new.entries ≡ self.old.entries) }
        ensures room { self.old.room ≤ self.new.room + 1 }
        ensures kept { OnErr result (self.old.room ≤ self.new.room) }
        ensures enough { 1 ≤ self.old.room → result ≢ Err NoMemory }
        ensures refused { IfErr result (λ fault. fault ≢ NoMemory → self.new ≡ self.old) }
    {
        if self.find(association.id).is_some() {
            return Err(OpenFault::Taken);
        }
        if self.reserve(1).is_err() {
            return Err(OpenFault::NoMemory);
        }
        self.open_reserved(association);
        Ok(())
    }

    /// Opens an association whose id is free, where there is room. Takes no memory.
    pub fn open_reserved(&mut self, association: Association)
        requires free { found association.id self.old.entries ≡ None }
        requires room { 0 < self.old.room }
        ensures entries { self.new.entries ≡ opened association self.old.entries }
        ensures room { self.old.room ≤ self.new.room + 1 }
    {
        let id = association_id(association);
        let station_entry = station_entry(association);
        let number_entry = number_entry(association);
        let key = self.slab.insert_reserved(Held {
            owner: association.owner,
            station: association.station,
            enb_ue_id: association.enb_ue_id,
        });
        self.by_id.insert_reserved(SlabPlace { id, key });
        self.by_station.insert_reserved(station_entry);
        self.by_number.insert_reserved(number_entry);
    }

    /// Moves an association to another station and eNB UE id; Unknown where there is none. Takes no memory.
    pub fn move_to(&mut self, id: u32, station: u8, enb_ue_id: u32) -> Result<(), MoveFault>
        ensures entries { OnOk result (self.new.entries ≡ moved id station enb_ue_id self.old.entries) }
        ensures known { IsSome (found id self.old.entries) → IsOk result }
        ensures unknown { found id self.old.entries ≡ None → result ≡ Err Unknown }
        ensures err { OnErr result (self.new ≡ self.old) }
        ensures room { self.old.room ≤ self.new.room }
    {
        let Some(association) = self.find(id) else {
            return Err(MoveFault::Unknown);
        };
        self.close_found(association);
        self.open_reserved(Association {
            id,
            owner: association.owner,
            station,
            enb_ue_id,
        });
        Ok(())
    }

    /// Closes the association with an id, and answers whether there was one. Takes no memory, and leaves room for another.
    pub fn close(&mut self, id: u32) -> bool
        ensures answer { result ≡ is_some (found id self.old.entries) }
        ensures entries { self.new.entries ≡ closed id self.old.entries }
        ensures gone { found id self.new.entries ≡ None }
        ensures room { self.old.room + (if result then 1 else 0) ≤ self.new.room }
    {
        let Some(association) = self.find(id) else {
            return false;
        };
        self.close_found(association);
        true
    }

    fn close_found(&mut self, association: Association)
        requires { found association.id self.old.entries ≡ Some association }
        ensures entries { self.new.entries ≡ closed association.id self.old.entries }
        ensures gone { found association.id self.new.entries ≡ None }
        ensures room { self.old.room + 1 ≤ self.new.room }
    {
        let place = take_place(&mut self.by_id, association.id).unwrap();
        let _ = self.slab.try_remove(place.key);
        take_entry(&mut self.by_station, station_entry(association));
        take_entry(&mut self.by_number, number_entry(association));
    }

    /// The station's association with the lowest id of at least `least`.
    fn first_at(&self, station: u8, least: u64) -> Option<Association>
        requires { least ≤ 2 ^ 32 }
        ensures value { result ≡ first_from station_group station least self.now.entries }
        ensures order { Rising association_id self.now.entries }
    {
        match first_indexed(&self.by_station, u64::from(station), least) {
            Some(id) => self.find(id),
            None => None,
        }
    }

    /// The association of a station with an eNB UE id, and with the lowest id of at least `least`.
    pub(crate) fn first_numbered(
        &self,
        station: u8,
        enb_ue_id: u32,
        least: u64,
    ) -> Option<Association>
        requires { least ≤ 2 ^ 32 }
        ensures value { result ≡ first_numbered station enb_ue_id least self.now.entries }
        ensures order { Rising association_id self.now.entries }
    {
        match first_indexed(&self.by_number, group_at(station, enb_ue_id), least) {
            Some(id) => self.find(id),
            None => None,
        }
    }

    /// The associations of a station, by id.
    pub fn entries_at(&self, station: u8) -> Result<Vec<Association>, AllocError>
        ensures value { IfOk result (λ entries. entries.items ≡ at_station station self.now.entries) }
        ensures order { Rising association_id self.now.entries }
    {
        let mut entries = Vec::new(self.alloc);
        let mut least = 0;
        while let Some(association) = self.first_at(station, least) {
            entries.push(association)?;
            least = u64::from(association_id(association)) + 1;
        }
        Ok(entries)
    }

    /// The associations of a station that some item of a list matches, by id (TS 36.413 clause 8.7.1.2.2): an item matches where
    /// it gives an id, and each id that it gives is the association's.
    pub fn listed(&self, station: u8, items: &[Listed]) -> Result<Vec<Association>, AllocError>
        ensures value { IfOk result (λ entries. entries.items ≡ listed_at station items.now self.now.entries) }
        ensures order { Rising association_id self.now.entries }
    {
        // (that the entries stand by rising id)
        let _ = &self.by_id;
        let meant = gathered(self.alloc, self, station, items)?;
        meant.items(self.alloc)
    }

    /// Closes all associations of a station. Takes no memory.
    pub fn clear_station(&mut self, station: u8)
        ensures entries { self.new.entries ≡ elsewhere station self.old.entries }
        ensures room { self.old.room ≤ self.new.room }
    {
        while let Some(association) = self.first_at(station, 0) {
            self.close_found(association);
        }
    }

    /// Closes all associations of a station and answers them by id. NoMemory where room for the answer was refused: then the
    /// entries are as they were.
    pub fn close_station(&mut self, station: u8) -> Result<Vec<Association>, AllocError>
        ensures answer { IfOk result (λ entries. entries.items ≡ at_station station self.old.entries) }
        ensures entries { OnOk result (self.new.entries ≡ elsewhere station self.old.entries) }
        ensures err { OnErr result (self.new ≡ self.old) }
        ensures room { self.old.room ≤ self.new.room }
        ensures order { Rising association_id self.old.entries }
    {
        let entries = self.entries_at(station)?;
        let closed = entries.as_slice();
        for association in closed {
            self.close_found(*association);
        }
        Ok(entries)
    }

    /// Closes the associations of a station that some item of a list matches, and answers them by id (TS 36.413 clause
    /// 8.7.1.2.2): an item matches where it gives an id, and each id that it gives is the association's. NoMemory where room
    /// for the answer was refused: then the entries are as they were.
    pub fn close_listed(
        &mut self,
        station: u8,
        items: &[Listed],
    ) -> Result<Vec<Association>, AllocError>
        ensures answer { IfOk result (λ entries. entries.items ≡ listed_at station items.now self.old.entries) }
        ensures entries { OnOk result (self.new.entries ≡ unlisted station items.now self.old.entries) }
        ensures err { OnErr result (self.new ≡ self.old) }
        ensures room { self.old.room ≤ self.new.room }
        ensures order { Rising association_id self.old.entries }
    {
        let gathered = gathered(self.alloc, self, station, items)?;
        let listed = gathered.items(self.alloc)?;
        self.close_all(gathered);
        Ok(listed)
    }

    /// Closes those that were gathered. Takes no memory.
    fn close_all(&mut self, mut gathered: SortedList<Association>)
        ensures entries { self.new.entries ≡ closed_all gathered.items self.old.entries }
        ensures room { self.old.room ≤ self.new.room }
    {
        while let Some(association) = gathered.take_first() {
            self.close(association.id);
        }
    }

    /// An equal map: the same entries.
    pub fn copy(&self) -> Result<Associations, AllocError>
        ensures { IfOk result (λ copy. copy.entries ≡ self.now.entries) }
    {
        Ok(Associations {
            slab: self.slab.clone()?,
            by_id: self.by_id.copy()?,
            by_station: self.by_station.copy()?,
            by_number: self.by_number.copy()?,
            alloc: self.alloc,
        })
    }
}
