//! CHOICEs (X.691 clause 23).

ghost use Rattle.std.specs.Prelude.{◌≡◌, ◌≤◌, IfOk};
ghost use Rattle.per_streams.specs.declared.fault.PerFault.TheVariants.{Alternative};
ghost use Rattle.per_streams.specs.Bits.{Answers};
ghost use Rattle.per_bits.specs.Reading.{closed_at};
ghost use Rattle.per_streams.specs.Reading.{number_at};
ghost use Rattle.per_streams.specs.Writing.{Wrote};
ghost use Rattle.per_bits.specs.Sequences.{write_alternative};

use crate::element::Element;
use per_streams::{BitReader, BitWriter, PerError, PerFault, offset_of, put_root};
use std::alloc::Global;

/// The index of an alternative, the last of which has index `last`; an extension bit of 1 is Alternative.
#[tactic(auto, unfolding(per_streams::specs::Reading::number_at))]
#[inline(always)]
pub fn take_choice(last: u64, reader: &mut BitReader) -> Result<u64, PerFault>
    ensures exact { Answers (λ n. n) result reader.new (closed_at Alternative (number_at 0 last) reader.old) }
    ensures within { IfOk result (λ n. n ≤ last) }
{
    let extended = reader.take_bit()?;
    if extended {
        return Err(PerFault::Alternative);
    }
    offset_of(last, reader)
}

/// Writes an alternative of a CHOICE, the last of which has index `last`: its index, and its value.
pub fn write_choice<'a, T: Element<'a>>(
    last: u64,
    index: u64,
    value: &T,
    alloc: Global,
    writer: &mut BitWriter,
) -> Result<(), PerError>
    ensures { Wrote result writer.new (write_alternative last index T.format (T.view value.now) writer.old) }
{
    put_root(last, index, writer)?;
    value.write(alloc, writer)
}
