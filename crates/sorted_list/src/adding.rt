//! Insertion among the chunks, and the room for it.

ghost use Rattle.std.specs.Prelude.{◌≡◌, ℕ, ◌+◌, ◌-◌, ◌*◌, ◌<◌, ◌≤◌, ◌++◌, ◌^◌, [], OnOk, false, length, vec_len};
ghost use Rattle.std.specs.Vec.{vec_capacity};
ghost use Rattle.sorted_list.specs.Ordered.{add, Rising, Every};
ghost use Rattle.sorted_list.specs.Chunks.{flat, IsHome, IsFilled, IsEmpty, IsPaired, IsEnough, IsSteady, wanted, spread, kept_chunks, regained, weight};

use crate::chunk::{Chunk, HALF};
use crate::finding::home;
use crate::keyed::Keyed;
use std::alloc::{AllocError, Global};

/// Two chunks that stand side by side have more than twice this together.
const SPREAD: usize = 64;

/// How many free chunks are enough for `more` further elements, however full the chunks are.
pub(crate) fn wanted(len: usize, more: usize) -> usize
    requires { len + more < 2 ^ 64 }
    ensures { result ≡ wanted len more }
{
    more.min((len + more) / HALF + 1)
}

/// How many chunks hold that many elements, however they are spread.
pub(crate) fn spread(count: usize) -> usize
    ensures { result ≡ spread count }
{
    count / SPREAD + (count % SPREAD).min(1)
}

/// How many free chunks are kept: in a steady list enough for all elements that it has and has room for, else as many as are
/// wanted for those that it has room for.
pub(crate) fn kept_chunks(len: usize, room: usize, steady: bool) -> usize
    requires { len + room < 2 ^ 64 }
    ensures { result ≡ kept_chunks len room steady }
{
    if steady {
        spread(len + room)
    } else {
        wanted(len, room)
    }
}

/// How many places come back where an element is taken out.
pub(crate) fn regained(steady: bool) -> usize
    ensures { result ≡ regained steady }
{
    if steady { 1 } else { 0 }
}

/// Makes `count` empty chunks.
pub(crate) fn make_spares<T: Keyed>(
    alloc: Global,
    spares: &mut Vec<Chunk<T>>,
    enough: usize,
) -> Result<(), AllocError>
    requires { Every IsEmpty spares.old.items }
    ensures empty { Every IsEmpty spares.new.items }
    ensures ok { OnOk result (enough ≤ vec_len spares.new) }
    ensures kept { vec_len spares.old ≤ vec_len spares.new }
    ensures held { vec_capacity spares.old ≤ vec_capacity spares.new }
{
    while spares.len() < enough {
        spares.push(Chunk::new(alloc)?)?;
    }
    Ok(())
}

/// Makes chunks for that many elements, however they are spread, with places for all of them, where the list is steady.
pub(crate) fn hold<T: Keyed>(
    alloc: Global,
    chunks: &mut Vec<Chunk<T>>,
    spares: &mut Vec<Chunk<T>>,
    count: usize,
    steady: bool,
) -> Result<(), AllocError>
    requires { Every IsEmpty spares.old.items }
    ensures items { chunks.new.items ≡ chunks.old.items }
    ensures empty { Every IsEmpty spares.new.items }
    ensures ok { OnOk result
        (IsSteady steady count (vec_len chunks.new + vec_len spares.new) (vec_capacity chunks.new) (vec_capacity spares.new)) }
    ensures kept { vec_len spares.old ≤ vec_len spares.new }
    ensures places { vec_capacity chunks.old ≤ vec_capacity chunks.new }
    ensures held { vec_capacity spares.old ≤ vec_capacity spares.new }
{
    if !steady {
        return Ok(());
    }
    let enough = spread(count);
    chunks.reserve(enough.saturating_sub(chunks.len()))?;
    spares.reserve(enough.saturating_sub(spares.len()))?;
    make_spares(alloc, spares, enough.saturating_sub(chunks.len()))
}

/// Adds an element to a full chunk, whose upper half goes to an empty one. Where the chunk is the last one and the
/// element comes after all of it, the element goes there alone, so that elements that come in order fill their chunks.
fn add_divided<T: Keyed>(lower: &mut Chunk<T>, upper: &mut Chunk<T>, item: T, is_last: bool)
    requires rising { Rising T.rank lower.old }
    requires full { 256 ≤ length lower.old }
    requires empty { upper.old ≡ [] }
    ensures both { lower.new ++ upper.new ≡ add T.rank item lower.old }
    ensures lower { 128 ≤ length lower.new }
    ensures upper { 1 ≤ length upper.new }
    ensures half { is_last ≡ false → 128 ≤ length upper.new }
{
    if is_last {
        if lower.last_key() < item.key() {
            upper.add(item);
            return;
        }
    }
    lower.divide(upper);
    if item.key() < upper.head_key() {
        lower.add(item);
    } else {
        upper.add(item);
    }
}

/// Adds the first element.
fn add_first<T: Keyed>(chunks: &mut Vec<Chunk<T>>, spares: &mut Vec<Chunk<T>>, item: T)
    requires none { chunks.old.items ≡ [] }
    requires empty { Every IsEmpty spares.old.items }
    requires spare { 0 < vec_len spares.old }
    requires place { vec_len chunks.old < vec_capacity chunks.old }
    ensures items { flat chunks.new.items ≡ add T.rank item [] }
    ensures filled { Every IsFilled chunks.new.items }
    ensures empty { Every IsEmpty spares.new.items }
    ensures paired { IsPaired chunks.new.items }
    ensures weight { weight chunks.new.items ≤ weight chunks.old.items + 1 }
    ensures used { vec_len chunks.new ≤ vec_len chunks.old + 1 }
    ensures total { vec_len chunks.new + vec_len spares.new ≡ vec_len chunks.old + vec_len spares.old }
    ensures places { vec_capacity chunks.old ≤ vec_capacity chunks.new }
    ensures held { vec_capacity spares.old ≤ vec_capacity spares.new }
{
    let mut chunk = spares.pop().unwrap();
    chunk.add(item);
    let _ = chunks.push(chunk);
}

/// Adds an element to the chunk to which its key belongs.
fn add_at<T: Keyed>(chunks: &mut Vec<Chunk<T>>, spares: &mut Vec<Chunk<T>>, at: usize, item: T)
    requires home { IsHome T.rank (T.rank item) at chunks.old.items }
    requires rising { Rising T.rank (flat chunks.old.items) }
    requires filled { Every IsFilled chunks.old.items }
    requires paired { IsPaired chunks.old.items }
    requires empty { Every IsEmpty spares.old.items }
    requires spare { IsEnough 1 (weight chunks.old.items) (vec_len chunks.old) (vec_len chunks.old + vec_len spares.old) }
    requires place { IsEnough 1 (weight chunks.old.items) (vec_len chunks.old) (vec_capacity chunks.old) }
    ensures items { flat chunks.new.items ≡ add T.rank item (flat chunks.old.items) }
    ensures filled { Every IsFilled chunks.new.items }
    ensures empty { Every IsEmpty spares.new.items }
    ensures paired { IsPaired chunks.new.items }
    ensures weight { weight chunks.new.items ≤ weight chunks.old.items + 1 }
    ensures used { vec_len chunks.new ≤ vec_len chunks.old + 1 }
    ensures total { vec_len chunks.new + vec_len spares.new ≡ vec_len chunks.old + vec_len spares.old }
    ensures places { vec_capacity chunks.old ≤ vec_capacity chunks.new }
    ensures held { vec_capacity spares.old ≤ vec_capacity spares.new }
{
    let is_last = chunks.len() - at == 1;
    let chunk = &mut chunks[at];
    if chunk.is_full() {
        let mut upper = spares.pop().unwrap();
        add_divided(chunk, &mut upper, item, is_last);
        let _ = chunks.insert(at + 1, upper);
    } else {
        chunk.add(item);
    }
}

/// Adds an element.
pub(crate) fn add_to<T: Keyed>(chunks: &mut Vec<Chunk<T>>, spares: &mut Vec<Chunk<T>>, item: T)
    requires rising { Rising T.rank (flat chunks.old.items) }
    requires filled { Every IsFilled chunks.old.items }
    requires paired { IsPaired chunks.old.items }
    requires empty { Every IsEmpty spares.old.items }
    requires spare { IsEnough 1 (weight chunks.old.items) (vec_len chunks.old) (vec_len chunks.old + vec_len spares.old) }
    requires place { IsEnough 1 (weight chunks.old.items) (vec_len chunks.old) (vec_capacity chunks.old) }
    ensures items { flat chunks.new.items ≡ add T.rank item (flat chunks.old.items) }
    ensures filled { Every IsFilled chunks.new.items }
    ensures empty { Every IsEmpty spares.new.items }
    ensures paired { IsPaired chunks.new.items }
    ensures weight { weight chunks.new.items ≤ weight chunks.old.items + 1 }
    ensures used { vec_len chunks.new ≤ vec_len chunks.old + 1 }
    ensures total { vec_len chunks.new + vec_len spares.new ≡ vec_len chunks.old + vec_len spares.old }
    ensures places { vec_capacity chunks.old ≤ vec_capacity chunks.new }
    ensures held { vec_capacity spares.old ≤ vec_capacity spares.new }
{
    if chunks.is_empty() {
        add_first(chunks, spares, item);
    } else {
        let at = home(chunks.as_slice(), item.key());
        add_at(chunks, spares, at, item);
    }
}
