//! The table.

ghost use Rattle.std.specs.Prelude.{◌≡◌, ◌+◌, ◌<◌, ◌≤◌, ◌==◌, ◌++◌, ◌∷◌, ◌↔◌, ℕ, [], IfOk, None, OnOk, OnErr, Some, true, if◌then◌else◌, length, map, slice_set};
ghost use Rattle.identity_slots.specs.Ids.{slots};
ghost use Rattle.mme_tables.specs.Whereabouts.{slots_where};
ghost use Rattle.mme_tables.specs.Whereabouts.{nowhere, away_from, connection_at, is_concerned, is_meant, is_meant_at, is_there, unless, waits_at, AreApart, IsFree, NoneConnected, NoneWaits};

use crate::closing::disconnect_owners;
use crate::items::listed_items;
use crate::opening::{close_stranger, is_association_of, open_stranger, reopen};
use crate::slots::{OrderedSlot, gather_owners, is_nobody, list_slot, slots_of};
use crate::whereabouts::{Whereabouts, is_same};
use association_table::Associations;
use identity_slots::{AssociationId, Slot, StationNumber};
use mme_types::Connection;
use s1ap_elements::AssociationToReset;
use sorted_list::SortedList;
use std::alloc::{AllocError, Global};
use std::marker::Model;

/// Where each slot's phone is, and the map of all associations, the connections and the places of waiting strangers: no id stands
/// twice (`are_apart`). `set` puts a phone on an id that nobody else has, `begin_wait` a stranger, and `end_wait` takes it away,
/// without memory. `close_station` takes away all who are at a station, `close_listed` all whom a RESET means. `has` says whether a
/// phone has a connection, `concerned` answers the slots whose phone is connected at a station or is paged, `listed` those whose
/// connection a RESET means, by rising slot.
///
/// Contracts see the phones by slot, all associations by id, and for how many changes there is room.
#[derive(Drop)]
pub struct Connections {
    by_slot: Vec<Whereabouts>,
    // Those of the slots that have a connection, and of the strangers that wait.
    associations: Associations,
    // The slots for which a paging is to be sent again.
    paged: SortedList<OrderedSlot>,
    alloc: Global,
}

impl Model for Connections {
    ghost use Rattle.std.specs.Prelude.{min};
    ghost use Rattle.mme_tables.specs.Whereabouts.{ConnectionTable};
    ghost use Rattle.mme_tables.specs.KeptPlaces.{IsTable};

    ghost Value = { ConnectionTable };

    ghost view = { λ t. record {
      whereabouts = t.by_slot.items;
      associations = t.associations.entries;
      room = min t.associations.room t.paged.room;
    } };

    ghost invariant = { λ t. IsTable t.by_slot.items t.associations.entries t.paged.items };
}

impl Connections {
    /// No slots, and no stranger that waits.
    pub fn new(alloc: Global) -> Connections
        ensures whereabouts { result.whereabouts ≡ [] }
        ensures associations { result.associations ≡ [] }
    {
        Connections {
            by_slot: Vec::new(alloc),
            associations: Associations::new(alloc),
            paged: SortedList::steady(alloc),
            alloc,
        }
    }

    /// One slot more, whose phone is nowhere. Refused, all is as it was.
    pub fn push(&mut self) -> Result<(), AllocError>
        requires { length self.old.whereabouts < slots }
        ensures ok { OnOk result (self.new.whereabouts ≡ self.old.whereabouts ++ nowhere ∷ []) }
        ensures associations { self.new.associations ≡ self.old.associations }
        ensures room { self.new.room ≡ self.old.room }
        ensures err { OnErr result (self.new ≡ self.old) }
    {
        self.by_slot.push(Whereabouts {
            connection: None,
            is_paged: false,
        })?;
        Ok(())
    }

    /// Makes room for `more` further changes. Refused, each phone and each stranger is where it was.
    pub fn reserve(&mut self, more: usize) -> Result<(), AllocError>
        ensures whereabouts { self.new.whereabouts ≡ self.old.whereabouts }
        ensures associations { self.new.associations ≡ self.old.associations }
        ensures room { OnOk result (more ≤ self.new.room) }
        ensures kept { self.old.room ≤ self.new.room }
    {
        self.associations.reserve(more)?;
        self.paged.reserve(more)
    }

    /// No two slots have connections with one id, and none has one with the id of a stranger that waits. Takes no memory.
    pub fn are_apart(&self)
        ensures { AreApart self.now.whereabouts self.now.associations }
    {
        // (a contract has the invariant where a field is used)
        let _ = &self.associations;
    }

    /// The phone of a slot is there from now on, on an id that no other slot and no stranger that waits has. Takes no memory. Where
    /// it was there before, nothing is searched.
    pub fn set(&mut self, slot: Slot, whereabouts: Whereabouts)
        requires within { slot < length self.old.whereabouts }
        requires free { IsFree slot whereabouts.connection self.old.whereabouts }
        requires alone { NoneWaits whereabouts.connection self.old.associations }
        requires room { 0 < self.old.room }
        ensures whereabouts { self.new.whereabouts ≡ slice_set self.old.whereabouts slot whereabouts }
        ensures strangers { (id : ℕ) → waits_at id self.new.associations ≡ waits_at id self.old.associations }
        ensures room { self.old.room ≤ self.new.room + 1 }
    {
        let place = slot.get() as usize;
        let old = self.by_slot[place];
        if is_same(&old, &whereabouts) {
            return;
        }
        reopen(
            &mut self.associations,
            slot,
            &old.connection,
            &whereabouts.connection,
        );
        list_slot(&mut self.paged, slot, old.is_paged, whereabouts.is_paged);
        self.by_slot[place] = whereabouts;
    }

    /// A stranger waits there from now on, on an id that no slot and no other stranger that waits has. Takes no memory.
    pub fn begin_wait(&mut self, place: Connection)
        requires free { NoneConnected place.id self.old.whereabouts }
        requires alone { waits_at place.id self.old.associations ≡ None }
        requires room { 0 < self.old.room }
        ensures whereabouts { self.new.whereabouts ≡ self.old.whereabouts }
        ensures strangers { (id : ℕ) → waits_at id self.new.associations
            ≡ (if place.id == id then Some place else waits_at id self.old.associations) }
        ensures room { self.old.room ≤ self.new.room + 1 }
    {
        open_stranger(&mut self.associations, &place);
    }

    /// No stranger waits on an id from now on. Takes no memory.
    pub fn end_wait(&mut self, id: AssociationId)
        ensures whereabouts { self.new.whereabouts ≡ self.old.whereabouts }
        ensures strangers { (other : ℕ) → waits_at other self.new.associations
            ≡ (if id == other then None else waits_at other self.old.associations) }
        ensures room { self.old.room ≤ self.new.room }
    {
        close_stranger(&mut self.associations, id);
    }

    /// Nobody is connected at a station from now on, and no stranger waits there; who is paged stays so. Refused, all is as it was.
    pub fn close_station(&mut self, station: StationNumber) -> Result<(), AllocError>
        ensures whereabouts { OnOk result (self.new.whereabouts ≡ map (away_from (is_there station)) self.old.whereabouts) }
        ensures strangers { OnOk result ((id : ℕ) → waits_at id self.new.associations
            ≡ unless (is_there station) (waits_at id self.old.associations)) }
        ensures room { self.old.room ≤ self.new.room }
        ensures err { OnErr result (self.new ≡ self.old) }
    {
        let closed = self.associations.close_station(station.get())?;
        disconnect_owners(&mut self.by_slot, closed.as_slice());
        Ok(())
    }

    /// Whom a RESET of a part of a station means is connected nowhere from now on, or waits nowhere (TS 36.413 clause 8.7.1.2.2);
    /// who is paged stays so. Refused, all is as it was.
    pub fn close_listed(
        &mut self,
        station: StationNumber,
        items: &[AssociationToReset],
    ) -> Result<(), AllocError>
        ensures whereabouts { OnOk result (self.new.whereabouts
            ≡ map (away_from (is_meant_at station items.now)) self.old.whereabouts) }
        ensures strangers { OnOk result ((id : ℕ) → waits_at id self.new.associations
            ≡ unless (is_meant_at station items.now) (waits_at id self.old.associations)) }
        ensures room { self.old.room ≤ self.new.room }
        ensures err { OnErr result (self.new ≡ self.old) }
    {
        let items = listed_items(self.alloc, items)?;
        let associations = &mut self.associations;
        let closed = associations.close_listed(station.get(), items.as_slice())?;
        disconnect_owners(&mut self.by_slot, closed.as_slice());
        Ok(())
    }

    /// Whether the phone of a slot has that connection: its id is looked up among all associations. Takes no memory.
    pub fn has(&self, slot: Slot, connection: &Connection) -> bool
        ensures { (result ≡ true) ↔ (connection_at slot self.now.whereabouts ≡ Some connection.now) }
    {
        match self.associations.find(connection.id.get()) {
            Some(association) => is_association_of(&association, slot, connection),
            None => false,
        }
    }

    /// The slots that the loss of a station concerns, by rising slot: those with a connection there, and those for which a
    /// paging is to be sent again, since it was sent there too.
    pub fn concerned(&self, station: StationNumber) -> Result<Vec<Slot>, AllocError>
        ensures { IfOk result (λ s. s.items ≡ slots_where (is_concerned station) 0 self.now.whereabouts) }
    {
        let there = self.associations.entries_at(station.get())?;
        if is_nobody(there.as_slice(), &self.paged) {
            return Ok(Vec::new(self.alloc));
        }
        let mut gathered = self.paged.copy()?;
        gather_owners(there.as_slice(), &mut gathered)?;
        slots_of(self.alloc, &gathered)
    }

    /// The slots whose connection a RESET of a part of a station means, by rising slot (TS 36.413 clause 8.7.1.2.2).
    pub fn listed(
        &self,
        station: StationNumber,
        items: &[AssociationToReset],
    ) -> Result<Vec<Slot>, AllocError>
        ensures { IfOk result (λ s. s.items ≡ slots_where (is_meant station items.now) 0 self.now.whereabouts) }
    {
        let items = listed_items(self.alloc, items)?;
        let meant = self.associations.listed(station.get(), items.as_slice())?;
        let mut gathered = SortedList::new(self.alloc);
        gather_owners(meant.as_slice(), &mut gathered)?;
        slots_of(self.alloc, &gathered)
    }
}
