//! Places in a list by a key of each.

ghost use Rattle.std.specs.Prelude.{◌≡◌, ℕ, ◌==◌, [], OnOk, OnErr, Some, if◌then◌else◌};
ghost use Rattle.sim_crowd.specs.Index.{entry_key, free_under, place_under, put_under, taken_under};

use sorted_list::{Keyed, SortedList};
use std::alloc::{AllocError, Global};
use std::marker::Model;

/// A place in a list, under a key.
#[derive(Clone, Copy)]
pub(crate) struct Entry {
    pub(crate) key: u128,
    pub(crate) place: usize,
}

impl Keyed for Entry {
    ghost rank = { entry_key };

    fn key(&self) -> u128 {
        self.key
    }
}

/// Places by keys, each of which is found by halving. A contract sees the entries by rising key.
#[derive(Drop)]
pub(crate) struct Index {
    entries: SortedList<Entry>,
}

impl Model for Index {
    ghost use Rattle.std.specs.Prelude.{List};
    ghost use Rattle.sim_crowd.specs.declared.index.Entry.{Entry};

    ghost Value = { List Entry };

    ghost view = { λ i. i.entries.items };
}

impl Index {
    /// Nothing.
    pub(crate) fn new(alloc: Global) -> Index
        ensures { result ≡ [] }
    {
        Index {
            entries: SortedList::new(alloc),
        }
    }

    /// The place under a key.
    pub(crate) fn get(&self, key: u128) -> Option<usize>
        ensures { result ≡ place_under key self.now }
    {
        Some(self.entries.find(key)?.place)
    }

    /// The place stands under the key from now on. Refused, all is as it was.
    pub(crate) fn put(&mut self, key: u128, place: usize) -> Result<(), AllocError>
        ensures ok { OnOk result (self.new ≡ put_under key place self.old) }
        ensures found { OnOk result ((k : ℕ) → place_under k self.new ≡ (if key == k then Some place else place_under k self.old)) }
        ensures err { OnErr result (self.new ≡ self.old) }
    {
        self.entries.reserve(1)?;
        self.entries.take(key);
        self.entries.insert_reserved(Entry { key, place });
        Ok(())
    }

    /// Nothing stands under the key.
    pub(crate) fn free(&mut self, key: u128)
        ensures { self.new ≡ free_under key self.old }
    {
        self.entries.take(key);
    }

    /// Nothing stands under the key, if it was this place.
    pub(crate) fn take(&mut self, key: u128, place: usize)
        ensures { self.new ≡ taken_under key place self.old }
    {
        match self.get(key) {
            Some(known) if known == place => self.free(key),
            _ => {}
        }
    }
}
