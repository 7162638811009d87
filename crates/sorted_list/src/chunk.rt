//! A chunk: a short list in order that never grows its block.

ghost use Rattle.std.specs.Prelude.{◌≡◌, ◌+◌, ◌<◌, ◌≤◌, ◌++◌, ◌==◌, [], IfOk, OnOk, IsTrue, ◌↔◌, if◌then◌else◌, is_some, length, vec_len};
ghost use Rattle.std.specs.Vec.{vec_capacity};
ghost use Rattle.sorted_list.specs.Ordered.{place, at, add, put, without, Rising, Every};
ghost use Rattle.sorted_list.specs.Sorted.{lowest, lowest_from};
ghost use Rattle.sorted_list.specs.Chunks.{head_key, AllUnder, IsFilled};

use crate::keyed::Keyed;
use crate::search::place_of;
use std::alloc::{AllocError, Global};
use std::marker::Model;

/// The most elements of a chunk.
const LIMIT: usize = 256;

/// How many of a full chunk stay where it is divided.
pub(crate) const HALF: usize = 128;

/// The most elements of two chunks that are joined: few enough that what is joined isn't divided again soon.
const JOINED: usize = 192;

/// The element with a key.
fn find_item<T: Keyed>(items: &Vec<T>, key: u128) -> Option<T>
    requires { Rising T.rank items.now.items }
    ensures { result ≡ at T.rank key items.now.items }
{
    let at = place_of(items.as_slice(), key);
    if at == items.len() {
        return None;
    }
    let item = items[at];
    if item.key() != key {
        return None;
    }
    Some(item)
}

/// The first element whose key is at least this.
fn first_item_from<T: Keyed>(items: &Vec<T>, key: u128) -> Option<T>
    requires { Rising T.rank items.now.items }
    ensures { result ≡ lowest_from T.rank key items.now.items }
{
    let at = place_of(items.as_slice(), key);
    if at == items.len() {
        return None;
    }
    Some(items[at])
}

/// Takes the element with a key out.
fn take_item<T: Keyed>(items: &mut Vec<T>, key: u128) -> Option<T>
    requires { Rising T.rank items.old.items }
    ensures item { result ≡ at T.rank key items.old.items }
    ensures rest { items.new.items ≡ without T.rank key items.old.items }
    ensures len { vec_len items.new ≤ vec_len items.old }
    ensures block { vec_capacity items.new ≡ vec_capacity items.old }
{
    let at = place_of(items.as_slice(), key);
    if at == items.len() {
        return None;
    }
    let item = items[at];
    if item.key() != key {
        return None;
    }
    items.remove(at);
    Some(item)
}

/// Puts an element in the place of the one with its key, and answers that one. Where there is none nothing changes.
fn replace_item<T: Keyed>(items: &mut Vec<T>, item: T) -> Option<T>
    requires { Rising T.rank items.old.items }
    ensures was { result ≡ at T.rank (T.rank item) items.old.items }
    ensures after { items.new.items ≡ (if is_some result then put T.rank item items.old.items else items.old.items) }
    ensures len { vec_len items.new ≡ vec_len items.old }
    ensures block { vec_capacity items.new ≡ vec_capacity items.old }
{
    let key = item.key();
    let at = place_of(items.as_slice(), key);
    if at == items.len() {
        return None;
    }
    let was = items[at];
    if was.key() != key {
        return None;
    }
    items[at] = item;
    Some(was)
}

/// Up to `LIMIT` elements in order. Contracts see the list.
#[derive(Drop)]
pub(crate) struct Chunk<T: Keyed> {
    // The key of the first element, where there is one: a search among chunks reads no element.
    head: u128,
    items: Vec<T>,
}

impl<T: Keyed> Model for Chunk<T> {
    ghost use Rattle.std.specs.Prelude.{List, ◌≡◌, ◌≤◌, vec_len};
    ghost use Rattle.std.specs.Vec.{vec_capacity};
    ghost use Rattle.sorted_list.specs.Chunks.{head_key, IsFilled};

    ghost Value = { List T };

    ghost view = { λ c. c.items.items };

    ghost invariant = { λ c. (256 ≤ vec_capacity c.items) × (vec_len c.items ≤ 256)
        × (IsFilled c.items.items → c.head ≡ head_key T.rank c.items.items) };
}

impl<T: Keyed> Chunk<T> {
    /// An empty chunk, with its block.
    pub(crate) fn new(alloc: Global) -> Result<Self, AllocError>
        ensures { IfOk result (λ c. c ≡ []) }
    {
        let items = Vec::with_capacity(alloc, LIMIT)?;
        Ok(Chunk { head: 0, items })
    }

    /// Whether there is no element.
    pub(crate) fn is_empty(&self) -> bool
        ensures { result ≡ (length self.now == 0) }
    {
        self.items.is_empty()
    }

    /// Whether there is no room for one more.
    pub(crate) fn is_full(&self) -> bool
        ensures { IsTrue result ↔ 256 ≤ length self.now }
    {
        self.items.len() >= LIMIT
    }

    /// The key of the first element.
    pub(crate) fn head_key(&self) -> u128
        requires { IsFilled self.now }
        ensures { result ≡ head_key T.rank self.now }
    {
        self.head
    }

    /// The key of the last element, which none exceeds.
    pub(crate) fn last_key(&self) -> u128
        requires rising { Rising T.rank self.now }
        requires filled { IsFilled self.now }
        ensures { AllUnder T.rank (result + 1) self.now }
    {
        let last = self.items.len() - 1;
        self.items[last].key()
    }

    /// The first element.
    pub(crate) fn first(&self) -> Option<T>
        ensures { result ≡ lowest self.now }
    {
        if self.items.is_empty() {
            return None;
        }
        Some(self.items[0])
    }

    /// The element with a key.
    pub(crate) fn find(&self, key: u128) -> Option<T>
        requires { Rising T.rank self.now }
        ensures { result ≡ at T.rank key self.now }
    {
        find_item(&self.items, key)
    }

    /// The first element whose key is at least this.
    pub(crate) fn first_from(&self, key: u128) -> Option<T>
        requires { Rising T.rank self.now }
        ensures { result ≡ lowest_from T.rank key self.now }
    {
        first_item_from(&self.items, key)
    }

    /// Adds an element, for which there is room.
    pub(crate) fn add(&mut self, item: T)
        requires rising { Rising T.rank self.old }
        requires room { length self.old < 256 }
        ensures { self.new ≡ add T.rank item self.old }
    {
        let at = place_of(self.items.as_slice(), item.key());
        let _ = self.items.insert(at, item);
        self.head = self.items[0].key();
    }

    /// Takes the element with a key out.
    pub(crate) fn take(&mut self, key: u128) -> Option<T>
        requires { Rising T.rank self.old }
        ensures item { result ≡ at T.rank key self.old }
        ensures rest { self.new ≡ without T.rank key self.old }
    {
        let item = take_item(&mut self.items, key);
        if !self.items.is_empty() {
            self.head = self.items[0].key();
        }
        item
    }

    /// Puts an element in the place of the one with its key, and answers that one. Where there is none nothing changes.
    pub(crate) fn replace(&mut self, item: T) -> Option<T>
        requires { Rising T.rank self.old }
        ensures was { result ≡ at T.rank (T.rank item) self.old }
        ensures after { self.new ≡ (if is_some result then put T.rank item self.old else self.old) }
        ensures len { length self.new ≡ length self.old }
    {
        let was = replace_item(&mut self.items, item);
        if !self.items.is_empty() {
            self.head = self.items[0].key();
        }
        was
    }

    /// Whether this chunk and the next one are few enough to be joined.
    pub(crate) fn fits_with(&self, next: &Chunk<T>) -> bool
        ensures { IsTrue result ↔ length self.now + length next.now ≤ 192 }
    {
        self.items.len() + next.items.len() <= JOINED
    }

    /// Moves all of the next chunk after its own elements.
    pub(crate) fn append(&mut self, next: &mut Chunk<T>)
        requires filled { IsFilled self.old }
        requires fits { length self.old + length next.old ≤ 256 }
        ensures both { self.new ≡ self.old ++ next.old }
        ensures next { next.new ≡ [] }
    {
        let _ = self.items.append(&mut next.items);
    }

    /// Writes the elements after those of a list.
    pub(crate) fn list_into(&self, listed: &mut Vec<T>) -> Result<(), AllocError>
        ensures { OnOk result (listed.new.items ≡ listed.old.items ++ self.now) }
    {
        listed.extend_from_slice(self.items.as_slice())
    }

    /// A chunk with the same elements.
    pub(crate) fn copy(&self, alloc: Global) -> Result<Self, AllocError>
        ensures { IfOk result (λ c. c ≡ self.now) }
    {
        let mut items = Vec::with_capacity(alloc, LIMIT)?;
        items.extend_from_slice(self.items.as_slice())?;
        Ok(Chunk {
            head: self.head,
            items,
        })
    }

    /// Moves the upper half of a full chunk to an empty one.
    pub(crate) fn divide(&mut self, upper: &mut Chunk<T>)
        requires full { 256 ≤ length self.old }
        requires empty { upper.old ≡ [] }
        ensures both { self.new ++ upper.new ≡ self.old }
        ensures lower { length self.new ≡ 128 }
        ensures upper { length upper.new ≡ 128 }
    {
        let _ = upper.items.extend_from_slice(&self.items[HALF..]);
        self.items.truncate(HALF);
        upper.head = upper.items[0].key();
        self.head = self.items[0].key();
    }
}
