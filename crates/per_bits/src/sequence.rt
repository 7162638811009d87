//! SEQUENCEs (X.691 clause 19; TS 36.413 clause 9.3.7): presence bits, parts in their order, then what later releases added,
//! which is not kept.

ghost use Rattle.std.specs.Prelude.{◌≡◌, ◌++◌, ◌∷◌, [], Err, OnOk, OnErr, false};
ghost use Rattle.per_streams.specs.declared.fault.PerError.TheVariants.{NoMemory};
ghost use Rattle.per_streams.specs.Bits.{Gives, Answers, bit_at};
ghost use Rattle.per_streams.specs.Each.{times};
ghost use Rattle.per_bits.specs.Reading.{read_at, fields_at};
ghost use Rattle.per_bits.specs.Formats.{sequence, must, skip, done, extensions};
ghost use Rattle.per_bits.specs.Sequences.{later_at};

use crate::element::Element;
use crate::skips::{skip_additions, skip_extensions};
use per_streams::{BitReader, BitWriter, PerError, PerFault};
use std::alloc::Global;

/// The extension bit of a SEQUENCE, and the presence bit of its iE-Extensions.
#[tactic(auto, unfolding(per_streams::specs::Each::times))]
pub fn take_flags(reader: &mut BitReader) -> Result<(bool, bool), PerFault>
    ensures { Answers (λ f. f.0 ∷ f.1 ∷ []) result reader.new (times bit_at 2 reader.old) }
{
    let extended = reader.take_bit()?;
    let more = reader.take_bit()?;
    Ok((extended, more))
}

/// The same where one other part is optional, whose presence bit stands between.
#[tactic(auto, unfolding(per_streams::specs::Each::times))]
pub fn take_three_flags(reader: &mut BitReader) -> Result<(bool, bool, bool), PerFault>
    ensures { Answers (λ f. f.0 ∷ f.1 ∷ f.2 ∷ []) result reader.new (times bit_at 3 reader.old) }
{
    let extended = reader.take_bit()?;
    let present = reader.take_bit()?;
    let more = reader.take_bit()?;
    Ok((extended, present, more))
}

/// Writes the presence bits of a SEQUENCE: nothing of later releases.
#[tactic(auto, unfolding(per_streams::specs::Bits::bits))]
#[inline(always)]
pub fn put_flags(writer: &mut BitWriter) -> Result<(), PerError>
    ensures ok { OnOk result (writer.new ≡ writer.old ++ false ∷ false ∷ []) }
    ensures memory { OnErr result (result ≡ Err NoMemory) }
{
    writer.put_bits(2, 0)
}

/// Writes the presence bits of a SEQUENCE with one optional part.
#[inline(always)]
pub fn put_three_flags(present: bool, writer: &mut BitWriter) -> Result<(), PerError>
    ensures ok { OnOk result (writer.new ≡ writer.old ++ false ∷ present ∷ false ∷ []) }
    ensures memory { OnErr result (result ≡ Err NoMemory) }
{
    writer.put_bits(3, 2 * present as u64)
}

/// Reads past what later releases added to a SEQUENCE: its iE-Extensions, and what stands after its parts.
pub fn skip_later(extended: bool, more: bool, reader: &mut BitReader) -> Result<(), PerFault>
    ensures { Answers (λ _. tt) result reader.new (later_at extended more reader.old) }
{
    skip_extensions(more, reader)?;
    skip_additions(extended, reader)
}

/// Two parts of a SEQUENCE, one after the other.
pub fn read_pair<'a, A: Element<'a>, B: Element<'a>>(
    alloc: Global,
    reader: &mut BitReader<'a>,
) -> Result<(A, B), PerError>
    ensures { Gives (λ p. (A.view p.0, (B.view p.1, tt))) result reader.new
        (fields_at (must A.format (must B.format done)) [] reader.old) }
{
    let first = A::read(alloc, reader)?;
    match B::read(alloc, reader) {
        Ok(second) => Ok((first, second)),
        Err(error) => Err(error),
    }
}

/// A SEQUENCE of two parts.
#[inline(always)]
pub fn read_two<'a, A: Element<'a>, B: Element<'a>>(
    alloc: Global,
    reader: &mut BitReader<'a>,
) -> Result<(A, B), PerError>
    ensures { Gives (λ p. (A.view p.0, (B.view p.1, tt))) result reader.new
        (read_at (sequence (must A.format (must B.format (skip extensions done)))) reader.old) }
{
    let (extended, more) = take_flags(reader)?;
    let parts = read_pair::<A, B>(alloc, reader)?;
    skip_later(extended, more, reader)?;
    Ok(parts)
}

/// A SEQUENCE of three parts.
pub fn read_three<'a, A: Element<'a>, B: Element<'a>, C: Element<'a>>(
    alloc: Global,
    reader: &mut BitReader<'a>,
) -> Result<(A, B, C), PerError>
    ensures { Gives (λ p. (A.view p.0, (B.view p.1, (C.view p.2, tt)))) result reader.new
        (read_at (sequence (must A.format (must B.format (must C.format (skip extensions done))))) reader.old) }
{
    let (extended, more) = take_flags(reader)?;
    let first = A::read(alloc, reader)?;
    let (second, third) = read_pair::<B, C>(alloc, reader)?;
    skip_later(extended, more, reader)?;
    Ok((first, second, third))
}
