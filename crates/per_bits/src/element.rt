//! What has a spelling in bits.

ghost use Rattle.std.specs.Prelude.{◌≡◌};
ghost use Rattle.per_streams.specs.Bits.{Place, Gives};
ghost use Rattle.per_bits.specs.Formats.{Format, Value};
ghost use Rattle.per_bits.specs.Reading.{read_at};
ghost use Rattle.per_bits.specs.Writing.{write_at};
ghost use Rattle.per_streams.specs.Writing.{Wrote};

use per_streams::{BitReader, BitWriter, PerError};
use std::alloc::Global;

/// A value with a format. Reading answers the value or the fault that `read_at` gives, and moves the reader past a value;
/// writing adds what `write_at` gives, or answers Range.
///
/// What is read may lend octets of the encoding.
pub trait Element<'a>: Drop {
    /// How its values are spelled.
    ghost format: { Format };

    /// A value without where it lies in memory.
    ghost view: { Self → Value format };

    /// Reads a value; the first fault from the left is answered.
    fn read(alloc: Global, reader: &mut BitReader<'a>) -> Result<Self, PerError>
        ensures { Gives view result reader.new (read_at format reader.old) };

    /// Writes a value, or refuses it as out of range where it has no written spelling.
    fn write(&self, alloc: Global, writer: &mut BitWriter) -> Result<(), PerError>
        ensures { Wrote result writer.new (write_at format (view self.now) writer.old) };
}
