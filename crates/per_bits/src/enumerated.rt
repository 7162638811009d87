//! Spelling of named values (X.691 clause 14).

ghost use Rattle.std.specs.Prelude.{◌≡◌, IfOk, ◌≤◌};
ghost use Rattle.per_streams.specs.Bits.{Gives, Answers};
ghost use Rattle.per_bits.specs.Formats.{enumerated};
ghost use Rattle.per_bits.specs.Reading.{enumerated_at, read_at};
ghost use Rattle.per_streams.specs.Reading.{number_at};
ghost use Rattle.per_bits.specs.Writing.{write_at};
ghost use Rattle.per_streams.specs.Writing.{Wrote};
ghost use Rattle.per_bits.specs.Names.{view_of_name, IsName};

use crate::element::Element;
use crate::name::Enumerated;
use crate::open::take_small_number;
use per_streams::{BitReader, BitWriter, PerError, PerFault, offset_of, put_root};
use std::alloc::Global;

/// A name of an extensible ENUMERATED of `LAST + 1` names, else the fault of its first part that has no spelling.
#[tactic(auto, unfolding(crate::specs::Reading::enumerated_at, per_streams::specs::Reading::number_at))]
pub fn take_name<const LAST: u64>(reader: &mut BitReader) -> Result<Enumerated<LAST>, PerFault>
    ensures exact { Answers view_of_name result reader.new (enumerated_at LAST reader.old) }
    ensures named { IfOk result IsName }
{
    let extended = reader.take_bit()?;
    if extended {
        let number = take_small_number(reader)?;
        return Ok(Enumerated::Extended(number));
    }
    let number = offset_of(LAST, reader)?;
    Ok(Enumerated::Root(number))
}

impl<'a, const LAST: u64> Element<'a> for Enumerated<LAST> {
    ghost format = { enumerated LAST };

    ghost view = { view_of_name };

    fn read(_alloc: Global, reader: &mut BitReader<'a>) -> Result<Self, PerError> {
        let name = take_name::<LAST>(reader)?;
        Ok(name)
    }

    fn write(&self, _alloc: Global, writer: &mut BitWriter) -> Result<(), PerError> {
        match self {
            Enumerated::Root(number) => put_root(LAST, *number, writer),
            Enumerated::Extended(_) => Err(PerError::Fault(PerFault::Range)),
        }
    }
}
