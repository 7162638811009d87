//! Values after an extension bit, and optional values.

ghost use Rattle.std.specs.Prelude.{◌≡◌, option_map};
ghost use Rattle.per_streams.specs.Bits.{Gives};
ghost use Rattle.per_bits.specs.Formats.{closed};
ghost use Rattle.per_bits.specs.Reading.{read_at, optional_at};
ghost use Rattle.per_bits.specs.Writing.{write_at, write_optional};
ghost use Rattle.per_streams.specs.Writing.{Wrote};

use crate::element::Element;
use per_streams::{BitReader, BitWriter, PerError, PerFault};
use std::alloc::Global;

/// A value after an extension bit that must be 0, else Range: a size or a number with an extensible bound.
#[derive(Clone, Copy, Drop)]
pub struct Closed<T: Drop> {
    pub value: T,
}

impl<'a, T: Element<'a>> Element<'a> for Closed<T> {
    ghost format = { closed T.format };

    ghost view = { λ c. T.view c.value };

    fn read(alloc: Global, reader: &mut BitReader<'a>) -> Result<Self, PerError> {
        let extended = reader.take_bit()?;
        if extended {
            return Err(PerError::Fault(PerFault::Range));
        }
        let value = T::read(alloc, reader)?;
        Ok(Closed { value })
    }

    fn write(&self, alloc: Global, writer: &mut BitWriter) -> Result<(), PerError> {
        writer.put_bit(false)?;
        self.value.write(alloc, writer)
    }
}

/// Reads an optional value, by its presence bit.
pub fn read_optional<'a, T: Element<'a>>(
    alloc: Global,
    present: bool,
    reader: &mut BitReader<'a>,
) -> Result<Option<T>, PerError>
    ensures { Gives (option_map T.view) result reader.new (optional_at present (read_at T.format) reader.old) }
{
    if present {
        let value = T::read(alloc, reader)?;
        Ok(Some(value))
    } else {
        Ok(None)
    }
}

/// Writes an optional value.
pub fn put_optional<'a, T: Element<'a>>(
    alloc: Global,
    value: &Option<T>,
    writer: &mut BitWriter,
) -> Result<(), PerError>
    ensures { Wrote result writer.new (write_optional (write_at T.format) (option_map T.view value.now) writer.old) }
{
    match value {
        Some(value) => value.write(alloc, writer),
        None => Ok(()),
    }
}
