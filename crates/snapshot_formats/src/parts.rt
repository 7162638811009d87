//! Flags, and SEQUENCEs without an extension bit: a presence bit, and parts that always stand.

ghost use Rattle.std.specs.Prelude.{◌≡◌, ◌∷◌, []};
ghost use Rattle.per_streams.specs.Bits.{Answers, Gives, bit_at};
ghost use Rattle.per_streams.specs.Each.{times};
ghost use Rattle.per_streams.specs.Writing.{Wrote};
ghost use Rattle.per_bits.specs.Formats.{done, must, plain};
ghost use Rattle.per_bits.specs.Reading.{read_at};
ghost use Rattle.per_bits.specs.Writing.{write_at};
ghost use Rattle.snapshot_formats.specs.Formats.{flag};
ghost use Rattle.snapshot_formats.specs.Numbers.{typed_flag};

use crate::numbers::Flag;
use per_bits::{
    BitReader, BitWriter, Element, PerError, PerFault, offset_of, put_number, read_pair,
};
use std::alloc::Global;

impl<'a> Element<'a> for Flag {
    ghost format = { flag };

    ghost view = { λ f. typed_flag f.set };

    #[tactic(auto, unfolding(per_streams::specs::Reading::number_at))]
    fn read(_alloc: Global, reader: &mut BitReader<'a>) -> Result<Self, PerError> {
        match offset_of(1, reader)? {
            0 => Ok(Flag { set: false }),
            _ => Ok(Flag { set: true }),
        }
    }

    fn write(&self, _alloc: Global, writer: &mut BitWriter) -> Result<(), PerError> {
        if self.set {
            put_number(0, 1, 1, writer)
        } else {
            put_number(0, 1, 0, writer)
        }
    }
}

/// The presence bit of a SEQUENCE with one optional part.
#[tactic(auto, unfolding(per_streams::specs::Each::times))]
pub(crate) fn take_presence(reader: &mut BitReader) -> Result<bool, PerFault>
    ensures { Answers (λ b. b ∷ []) result reader.new (times bit_at 1 reader.old) }
{
    let present = reader.take_bit()?;
    Ok(present)
}

/// Three parts.
#[tactic(auto, unfolding(per_streams::specs::Each::times))]
pub(crate) fn read_three_parts<'a, A: Element<'a>, B: Element<'a>, C: Element<'a>>(
    alloc: Global,
    reader: &mut BitReader<'a>,
) -> Result<(A, B, C), PerError>
    ensures { Gives (λ p. (A.view p.0, (B.view p.1, (C.view p.2, tt)))) result reader.new
        (read_at (plain (must A.format (must B.format (must C.format done)))) reader.old) }
{
    let first = A::read(alloc, reader)?;
    match read_pair::<B, C>(alloc, reader) {
        Ok((second, third)) => Ok((first, second, third)),
        Err(error) => Err(error),
    }
}

/// Four parts.
#[tactic(auto, unfolding(per_streams::specs::Each::times))]
pub(crate) fn read_four_parts<'a, A: Element<'a>, B: Element<'a>, C: Element<'a>, D: Element<'a>>(
    alloc: Global,
    reader: &mut BitReader<'a>,
) -> Result<(A, B, C, D), PerError>
    ensures { Gives (λ p. (A.view p.0, (B.view p.1, (C.view p.2, (D.view p.3, tt))))) result reader.new
        (read_at (plain (must A.format (must B.format (must C.format (must D.format done))))) reader.old) }
{
    let (first, second) = read_pair::<A, B>(alloc, reader)?;
    match read_pair::<C, D>(alloc, reader) {
        Ok((third, fourth)) => Ok((first, second, third, fourth)),
        Err(error) => Err(error),
    }
}

/// Six parts.
#[tactic(auto, unfolding(per_streams::specs::Each::times))]
pub(crate) fn read_six_parts<
    'a,
    A: Element<'a>,
    B: Element<'a>,
    C: Element<'a>,
    D: Element<'a>,
    E: Element<'a>,
    F: Element<'a>,
>(alloc: Global, reader: &mut BitReader<'a>) -> Result<(A, B, C, D, E, F), PerError>
    ensures { Gives (λ p. (A.view p.0, (B.view p.1, (C.view p.2, (D.view p.3, (E.view p.4, (F.view p.5, tt))))))) result reader.new
        (read_at (plain (must A.format (must B.format (must C.format (must D.format (must E.format (must F.format done)))))))
        reader.old) }
{
    let (first, second) = read_pair::<A, B>(alloc, reader)?;
    let (third, fourth) = read_pair::<C, D>(alloc, reader)?;
    match read_pair::<E, F>(alloc, reader) {
        Ok((fifth, sixth)) => Ok((first, second, third, fourth, fifth, sixth)),
        Err(error) => Err(error),
    }
}
