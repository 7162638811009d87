//! Removal among the chunks, and change in place.

ghost use Rattle.std.specs.Prelude.{◌≡◌, ◌+◌, ◌<◌, ◌≤◌, min, if◌then◌else◌, is_some, vec_len};
ghost use Rattle.std.specs.Vec.{vec_capacity};
ghost use Rattle.sorted_list.specs.Ordered.{at, put, without, Rising, Every};
ghost use Rattle.sorted_list.specs.Chunks.{flat, IsFilled, IsEmpty, IsPaired, IsPairedFrom, IsPairedTo, weight};

use crate::chunk::Chunk;
use crate::finding::home;
use crate::keyed::Keyed;

/// Keeps an empty chunk where more are wanted; else gives it back, and with it one of those that are too many. One more than
/// is wanted is kept where that takes no memory, so that a list whose last chunk goes and comes takes memory for it once.
fn keep<T: Keyed>(spares: &mut Vec<Chunk<T>>, chunk: Chunk<T>, enough: usize)
    requires chunk { IsEmpty chunk }
    requires empty { Every IsEmpty spares.old.items }
    requires places { enough ≤ vec_capacity spares.old }
    ensures empty { Every IsEmpty spares.new.items }
    ensures kept { min enough (vec_len spares.old + 1) ≤ vec_len spares.new }
    ensures held { vec_capacity spares.old ≤ vec_capacity spares.new }
{
    let most = enough.saturating_add(1).min(spares.capacity());
    if spares.len() < most {
        let _ = spares.push(chunk);
    } else if most < spares.len() {
        spares.pop();
    }
}

/// Joins a chunk with the next one, where both are few enough.
fn join_next<T: Keyed>(
    chunks: &mut Vec<Chunk<T>>,
    spares: &mut Vec<Chunk<T>>,
    at: usize,
    enough: usize,
)
    requires at { at < vec_len chunks.old }
    requires filled { Every IsFilled chunks.old.items }
    requires empty { Every IsEmpty spares.old.items }
    requires held { enough ≤ vec_capacity spares.old }
    ensures items { flat chunks.new.items ≡ flat chunks.old.items }
    ensures filled { Every IsFilled chunks.new.items }
    ensures empty { Every IsEmpty spares.new.items }
    ensures at { at < vec_len chunks.new }
    ensures lower { IsPairedTo at chunks.old.items → IsPairedTo at chunks.new.items }
    ensures over { IsPairedTo (at + 1) chunks.old.items → IsPairedTo (at + 1) chunks.new.items }
    ensures upper { IsPairedFrom (at + 1) chunks.old.items → IsPairedFrom at chunks.new.items }
    ensures weight { weight chunks.new.items ≤ weight chunks.old.items }
    ensures used { vec_len chunks.new ≤ vec_len chunks.old }
    ensures spares { min (vec_len chunks.old + vec_len spares.old) (vec_len chunks.new + enough)
        ≤ vec_len chunks.new + vec_len spares.new }
    ensures places { vec_capacity chunks.old ≤ vec_capacity chunks.new }
    ensures held { vec_capacity spares.old ≤ vec_capacity spares.new }
{
    if chunks.len() - at == 1 {
        return;
    }
    let lower = &chunks[at];
    let upper = &chunks[at + 1];
    if !lower.fits_with(upper) {
        return;
    }
    let mut joined = chunks.remove(at + 1);
    let chunk = &mut chunks[at];
    chunk.append(&mut joined);
    keep(spares, joined, enough);
}

/// Joins a chunk with its neighbours, where they are few enough.
fn join_around<T: Keyed>(
    chunks: &mut Vec<Chunk<T>>,
    spares: &mut Vec<Chunk<T>>,
    at: usize,
    enough: usize,
)
    requires at { at < vec_len chunks.old }
    requires lower { IsPairedTo at chunks.old.items }
    requires upper { IsPairedFrom (at + 1) chunks.old.items }
    requires filled { Every IsFilled chunks.old.items }
    requires empty { Every IsEmpty spares.old.items }
    requires held { enough ≤ vec_capacity spares.old }
    ensures items { flat chunks.new.items ≡ flat chunks.old.items }
    ensures filled { Every IsFilled chunks.new.items }
    ensures empty { Every IsEmpty spares.new.items }
    ensures paired { IsPaired chunks.new.items }
    ensures weight { weight chunks.new.items ≤ weight chunks.old.items }
    ensures used { vec_len chunks.new ≤ vec_len chunks.old }
    ensures spares { min (vec_len chunks.old + vec_len spares.old) (vec_len chunks.new + enough)
        ≤ vec_len chunks.new + vec_len spares.new }
    ensures places { vec_capacity chunks.old ≤ vec_capacity chunks.new }
    ensures held { vec_capacity spares.old ≤ vec_capacity spares.new }
{
    join_next(chunks, spares, at, enough);
    if at > 0 {
        join_next(chunks, spares, at - 1, enough);
    }
}

/// Takes the element with a key out. A chunk that it empties goes, and one that fits to a neighbour is joined with it.
/// Of the chunks that become free as many are kept as are enough.
pub(crate) fn take_from<T: Keyed>(
    chunks: &mut Vec<Chunk<T>>,
    spares: &mut Vec<Chunk<T>>,
    key: u128,
    enough: usize,
) -> Option<T>
    requires rising { Rising T.rank (flat chunks.old.items) }
    requires paired { IsPaired chunks.old.items }
    requires filled { Every IsFilled chunks.old.items }
    requires empty { Every IsEmpty spares.old.items }
    requires held { enough ≤ vec_capacity spares.old }
    ensures item { result ≡ at T.rank key (flat chunks.old.items) }
    ensures rest { flat chunks.new.items ≡ without T.rank key (flat chunks.old.items) }
    ensures filled { Every IsFilled chunks.new.items }
    ensures empty { Every IsEmpty spares.new.items }
    ensures paired { IsPaired chunks.new.items }
    ensures weight { weight chunks.new.items ≤ weight chunks.old.items }
    ensures used { vec_len chunks.new ≤ vec_len chunks.old }
    ensures spares { min (vec_len chunks.old + vec_len spares.old) (vec_len chunks.new + enough)
        ≤ vec_len chunks.new + vec_len spares.new }
    ensures places { vec_capacity chunks.old ≤ vec_capacity chunks.new }
    ensures held { vec_capacity spares.old ≤ vec_capacity spares.new }
{
    if chunks.is_empty() {
        return None;
    }
    let at = home(chunks.as_slice(), key);
    let chunk = &mut chunks[at];
    let item = chunk.take(key)?;
    if chunk.is_empty() {
        keep(spares, chunks.remove(at), enough);
    } else {
        join_around(chunks, spares, at, enough);
    }
    Some(item)
}

/// Puts an element in the place of the one with its key, and answers that one. Where there is none nothing changes.
pub(crate) fn replace_in<T: Keyed>(chunks: &mut Vec<Chunk<T>>, item: T) -> Option<T>
    requires rising { Rising T.rank (flat chunks.old.items) }
    requires paired { IsPaired chunks.old.items }
    requires filled { Every IsFilled chunks.old.items }
    ensures was { result ≡ at T.rank (T.rank item) (flat chunks.old.items) }
    ensures after { flat chunks.new.items
        ≡ (if is_some result then put T.rank item (flat chunks.old.items) else flat chunks.old.items) }
    ensures filled { Every IsFilled chunks.new.items }
    ensures paired { IsPaired chunks.new.items }
    ensures weight { weight chunks.new.items ≤ weight chunks.old.items }
    ensures used { vec_len chunks.new ≡ vec_len chunks.old }
    ensures places { vec_capacity chunks.new ≡ vec_capacity chunks.old }
{
    if chunks.is_empty() {
        return None;
    }
    let at = home(chunks.as_slice(), item.key());
    let chunk = &mut chunks[at];
    chunk.replace(item)
}
