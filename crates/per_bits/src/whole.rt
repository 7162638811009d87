//! Whole numbers of a range as elements.

ghost use Rattle.std.specs.Prelude.{◌≡◌};
ghost use Rattle.per_streams.specs.Bits.{Gives};
ghost use Rattle.per_bits.specs.Formats.{number};
ghost use Rattle.per_bits.specs.Reading.{read_at};
ghost use Rattle.per_bits.specs.Writing.{write_at};
ghost use Rattle.per_streams.specs.Writing.{Wrote};

use crate::element::Element;
use per_streams::{BitReader, BitWriter, PerError, Whole, put_number};
use std::alloc::Global;

impl<'a, const LO: u64, const HI: u64> Element<'a> for Whole<LO, HI> {
    ghost format = { number LO HI };

    ghost view = { λ n. n };

    #[inline(always)]
    fn read(_alloc: Global, reader: &mut BitReader<'a>) -> Result<Self, PerError> {
        let number = Whole::<LO, HI>::read(reader)?;
        Ok(number)
    }

    #[inline(always)]
    fn write(&self, _alloc: Global, writer: &mut BitWriter) -> Result<(), PerError> {
        put_number(LO, HI, self.get(), writer)
    }
}
