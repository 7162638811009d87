//! What is looked for among the chunks.

ghost use Rattle.std.specs.Prelude.{◌≡◌, ◌+◌, ◌-◌, ◌<◌, ◌≤◌, length};
ghost use Rattle.sorted_list.specs.Ordered.{at, Rising, Every};
ghost use Rattle.sorted_list.specs.Sorted.{lowest_from};
ghost use Rattle.sorted_list.specs.Chunks.{flat, home, IsFilled};

use crate::chunk::Chunk;
use crate::keyed::Keyed;

/// The chunk to which a key belongs.
pub(crate) fn home<T: Keyed>(chunks: &[Chunk<T>], key: u128) -> usize
    requires rising { Rising T.rank (flat chunks.now) }
    requires filled { Every IsFilled chunks.now }
    ensures { result ≡ home T.rank key chunks.now }
{
    let mut low = 0;
    let mut high = chunks.len();
    while low < high {
        let middle = low + (high - low) / 2;
        if chunks[middle].head_key() <= key {
            low = middle + 1;
        } else {
            high = middle;
        }
    }
    low.saturating_sub(1)
}

/// The element with a key.
pub(crate) fn find_in<T: Keyed>(chunks: &Vec<Chunk<T>>, key: u128) -> Option<T>
    requires rising { Rising T.rank (flat chunks.now.items) }
    requires filled { Every IsFilled chunks.now.items }
    ensures { result ≡ at T.rank key (flat chunks.now.items) }
{
    if chunks.is_empty() {
        return None;
    }
    let at = home(chunks.as_slice(), key);
    let chunk = &chunks[at];
    chunk.find(key)
}

/// The first element whose key is at least this.
pub(crate) fn first_in<T: Keyed>(chunks: &Vec<Chunk<T>>, key: u128) -> Option<T>
    requires rising { Rising T.rank (flat chunks.now.items) }
    requires filled { Every IsFilled chunks.now.items }
    ensures { result ≡ lowest_from T.rank key (flat chunks.now.items) }
{
    if chunks.is_empty() {
        return None;
    }
    let at = home(chunks.as_slice(), key);
    let chunk = &chunks[at];
    if let Some(item) = chunk.first_from(key) {
        return Some(item);
    }
    if at + 1 == chunks.len() {
        return None;
    }
    let next = &chunks[at + 1];
    next.first()
}
