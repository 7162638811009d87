//! Copies of the chunks and of what they hold.

ghost use Rattle.std.specs.Prelude.{◌≡◌, IfOk};
ghost use Rattle.sorted_list.specs.Chunks.{flat};

use crate::chunk::Chunk;
use crate::keyed::Keyed;
use std::alloc::{AllocError, Global};

/// The elements of the chunks, of which there are `length`.
pub(crate) fn listed<T: Keyed>(
    alloc: Global,
    chunks: &Vec<Chunk<T>>,
    len: usize,
) -> Result<Vec<T>, AllocError>
    ensures { IfOk result (λ listed. listed.items ≡ flat chunks.now.items) }
{
    let mut listed = Vec::with_capacity(alloc, len)?;
    for chunk in chunks {
        chunk.list_into(&mut listed)?;
    }
    Ok(listed)
}

/// Chunks with the same elements.
pub(crate) fn copied<T: Keyed>(
    alloc: Global,
    chunks: &Vec<Chunk<T>>,
) -> Result<Vec<Chunk<T>>, AllocError>
    ensures { IfOk result (λ copied. copied.items ≡ chunks.now.items) }
{
    let mut copied = Vec::with_capacity(alloc, chunks.len())?;
    for chunk in chunks {
        copied.push(chunk.copy(alloc)?)?;
    }
    Ok(copied)
}
