//! The list.

ghost use Rattle.std.specs.Prelude.{◌≡◌, ℕ, ◌+◌, ◌<◌, ◌≤◌, List, [], IfOk, IsOk, OnOk, OnErr, Option, Some, None, if◌then◌else◌, is_some, length, drop, ◌==◌, true, false};
ghost use Rattle.sorted_list.specs.Ordered.{at, add, put, without, Rising};
ghost use Rattle.sorted_list.specs.Sorted.{lowest, lowest_from};

use crate::adding::{add_to, hold, kept_chunks, make_spares, regained, wanted};
use crate::chunk::Chunk;
use crate::copying::{copied, listed};
use crate::finding::{find_in, first_in};
use crate::keyed::Keyed;
use crate::taking::{replace_in, take_from};
use std::alloc::{AllocError, Global};
use std::marker::Model;

/// Elements by rising key, each key once. Each call is its function on the flat list; a refused one leaves the list as it was. As
/// many insertions as there is room for can't be refused, at any keys, whatever is taken or replaced between. If there is room,
/// neither `reserve` nor `insert` is refused; `insert_reserved`, `take`, `take_first` and `replace` never are.
///
/// Contracts see the elements, and for how many more there is room.
#[derive(Drop)]
pub struct SortedList<T: Keyed> {
    // No chunk is empty.
    chunks: Vec<Chunk<T>>,
    // Empty chunks, for those that are divided.
    spares: Vec<Chunk<T>>,
    len: usize,
    // The room that was promised.
    room: usize,
    // Whether there is room for another where an element is taken out.
    steady: bool,
    alloc: Global,
}

impl<T: Keyed> Model for SortedList<T> {
    ghost use Rattle.std.specs.Prelude.{◌+◌, vec_len};
    ghost use Rattle.std.specs.Vec.{vec_capacity};
    ghost use Rattle.sorted_list.specs.Sorted.{Sorted, sorted_code};

    ghost Value = { Sorted T };

    ghost coded = { sorted_code T.code };

    ghost use Rattle.sorted_list.specs.Chunks.{flat, weight, IsChunked, IsRoom, IsPaired, IsSteady};

    ghost view = { λ l. record { items = flat l.chunks.items; room = l.room; steady = l.steady } };

    ghost invariant = { λ l. IsChunked T.rank l.chunks.items l.spares.items l.len
        × IsRoom (weight l.chunks.items) (vec_len l.chunks) (vec_len l.chunks + vec_len l.spares) (vec_capacity l.chunks)
        (vec_capacity l.spares) l.len l.room × IsPaired l.chunks.items
        × IsSteady l.steady (l.len + l.room) (vec_len l.chunks + vec_len l.spares) (vec_capacity l.chunks)
        (vec_capacity l.spares) };
}

impl<T: Keyed> SortedList<T> {
    /// No elements. The list keeps no more free chunks than it needs for the room that it has.
    pub fn new(alloc: Global) -> Self
        ensures items { result.items ≡ [] }
        ensures room { result.room ≡ 0 }
        ensures steady { result.steady ≡ false }
    {
        SortedList::empty(alloc, false)
    }

    /// A steady list, without elements: a `take` that finds its element leaves room for another, at any key.
    ///
    /// It holds a chunk for each 64 elements that it has and has room for.
    pub fn steady(alloc: Global) -> Self
        ensures items { result.items ≡ [] }
        ensures room { result.room ≡ 0 }
        ensures steady { result.steady ≡ true }
    {
        SortedList::empty(alloc, true)
    }

    fn empty(alloc: Global, steady: bool) -> Self
        ensures items { result.items ≡ [] }
        ensures room { result.room ≡ 0 }
        ensures steady { result.steady ≡ steady }
    {
        SortedList {
            chunks: Vec::new(alloc),
            spares: Vec::new(alloc),
            len: 0,
            room: 0,
            steady,
            alloc,
        }
    }

    /// How many elements there are.
    pub fn len(&self) -> usize
        ensures { result ≡ length self.now.items }
    {
        self.len
    }

    /// Whether there is no element.
    pub fn is_empty(&self) -> bool
        ensures { result ≡ (length self.now.items == 0) }
    {
        self.len == 0
    }

    /// The element with a key. The elements stand by rising key, each key once.
    pub fn find(&self, key: u128) -> Option<T>
        ensures value { result ≡ at T.rank key self.now.items }
        ensures order { Rising T.rank self.now.items }
    {
        find_in(&self.chunks, key)
    }

    /// The element with the least key.
    pub fn first(&self) -> Option<T>
        ensures { result ≡ lowest self.now.items }
    {
        if self.chunks.is_empty() {
            return None;
        }
        let chunk = &self.chunks[0];
        chunk.first()
    }

    /// The element with the least key that is at least this.
    pub fn first_from(&self, key: u128) -> Option<T>
        ensures { result ≡ lowest_from T.rank key self.now.items }
    {
        first_in(&self.chunks, key)
    }

    /// Makes room for `more` further ones. It takes a free chunk for each at most, and no more than the number of elements that
    /// there will be, divided by 128, and one. Where there is room enough it isn't refused; where it is the list is as it was.
    pub fn reserve(&mut self, more: usize) -> Result<(), AllocError>
        ensures items { self.new.items ≡ self.old.items }
        ensures room { OnOk result (more ≤ self.new.room) }
        ensures kept { self.old.room ≤ self.new.room }
        ensures steady { self.new.steady ≡ self.old.steady }
        ensures enough { more ≤ self.old.room → IsOk result }
        ensures refused { OnErr result (self.new ≡ self.old) }
    {
        if more <= self.room {
            return Ok(());
        }
        if usize::MAX - self.len < more {
            return Err(AllocError);
        }
        let enough = wanted(self.len, more);
        self.chunks.reserve(enough)?;
        make_spares(self.alloc, &mut self.spares, enough)?;
        let count = self.len + more;
        hold(
            self.alloc,
            &mut self.chunks,
            &mut self.spares,
            count,
            self.steady,
        )?;
        self.room = more;
        Ok(())
    }

    /// Inserts an element whose key is free. Where there is room it isn't refused; where it is the list is as it was.
    pub fn insert(&mut self, item: T) -> Result<(), AllocError>
        requires { at T.rank (T.rank item) self.old.items ≡ None }
        ensures items { OnOk result (self.new.items ≡ add T.rank item self.old.items) }
        ensures err { OnErr result (self.new.items ≡ self.old.items) }
        ensures room { self.old.room ≤ self.new.room + 1 }
        ensures steady { self.new.steady ≡ self.old.steady }
        ensures enough { 1 ≤ self.old.room → IsOk result }
        ensures refused { OnErr result (self.new ≡ self.old) }
    {
        self.reserve(1)?;
        self.insert_reserved(item);
        Ok(())
    }

    /// Inserts an element whose key is free, where there is room. Takes no memory.
    pub fn insert_reserved(&mut self, item: T)
        requires free { at T.rank (T.rank item) self.old.items ≡ None }
        requires room { 0 < self.old.room }
        ensures items { self.new.items ≡ add T.rank item self.old.items }
        ensures room { self.old.room ≤ self.new.room + 1 }
        ensures steady { self.new.steady ≡ self.old.steady }
    {
        add_to(&mut self.chunks, &mut self.spares, item);
        self.len += 1;
        self.room -= 1;
    }

    /// Puts an element in the place of the one with its key, and answers that one. Where there is none nothing changes.
    /// Takes no memory.
    pub fn replace(&mut self, item: T) -> Option<T>
        ensures was { result ≡ at T.rank (T.rank item) self.old.items }
        ensures items { self.new.items ≡ (if is_some result then put T.rank item self.old.items else self.old.items) }
        ensures room { self.new.room ≡ self.old.room }
        ensures steady { self.new.steady ≡ self.old.steady }
    {
        replace_in(&mut self.chunks, item)
    }

    /// Takes the element with a key out, if there is one. Takes no memory. In a steady list there is room for
    /// another then.
    pub fn take(&mut self, key: u128) -> Option<T>
        ensures item { result ≡ at T.rank key self.old.items }
        ensures items { self.new.items ≡ without T.rank key self.old.items }
        ensures gone { at T.rank key self.new.items ≡ None }
        ensures room { self.old.room ≤ self.new.room }
        ensures regained { self.old.steady ≡ true → is_some result ≡ true → self.old.room + 1 ≤ self.new.room }
        ensures steady { self.new.steady ≡ self.old.steady }
    {
        let enough = kept_chunks(self.len, self.room, self.steady);
        let item = take_from(&mut self.chunks, &mut self.spares, key, enough)?;
        self.len -= 1;
        self.room += regained(self.steady);
        Some(item)
    }

    /// Takes the element with the least key out, if there is one. Takes no memory.
    pub fn take_first(&mut self) -> Option<T>
        ensures item { result ≡ lowest self.old.items }
        ensures items { self.new.items ≡ drop 1 self.old.items }
        ensures room { self.old.room ≤ self.new.room }
        ensures steady { self.new.steady ≡ self.old.steady }
    {
        let item = self.first()?;
        self.take(item.key());
        Some(item)
    }

    /// The elements by rising key.
    pub fn items(&self, alloc: Global) -> Result<Vec<T>, AllocError>
        ensures { IfOk result (λ listed. listed.items ≡ self.now.items) }
    {
        listed(alloc, &self.chunks, self.len)
    }

    /// A list of the same elements, with no room for more.
    pub fn copy(&self) -> Result<Self, AllocError>
        ensures items { IfOk result (λ copied. copied.items ≡ self.now.items) }
        ensures steady { IfOk result (λ copied. copied.steady ≡ self.now.steady) }
    {
        let mut chunks = copied(self.alloc, &self.chunks)?;
        let mut spares = Vec::new(self.alloc);
        hold(self.alloc, &mut chunks, &mut spares, self.len, self.steady)?;
        Ok(SortedList {
            chunks,
            spares,
            len: self.len,
            room: 0,
            steady: self.steady,
            alloc: self.alloc,
        })
    }
}
