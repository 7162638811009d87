//! Keys, lent by the octets that they are read from.

ghost use Rattle.std.specs.Prelude.{◌≡◌};
ghost use Rattle.per_streams.specs.Bits.{Gives, aligned_octets_at};
ghost use Rattle.per_streams.specs.Writing.{Wrote};
ghost use Rattle.per_bits.specs.Formats.{octets};
ghost use Rattle.per_bits.specs.Reading.{octets_at, read_at};
ghost use Rattle.per_bits.specs.Writing.{write_aligned, write_at, write_octets};

use per_bits::{BitReader, BitWriter, Element, PerError, put_aligned};
use std::alloc::Global;

/// A key of 32 octets (TS 33.401 clause 6.1.2), lent, so that it stands in memory no more often than it did.
#[derive(Clone, Copy)]
pub struct LentKey<'a> {
    pub octets: &'a [u8; 32],
}

impl<'a> Element<'a> for LentKey<'a> {
    ghost format = { octets 32 };

    ghost view = { λ k. k.octets.now };

    #[tactic(auto, unfolding(per_bits::specs::Reading::octets_at, per_streams::specs::Bits::aligned_octets_at))]
    fn read(_alloc: Global, reader: &mut BitReader<'a>) -> Result<Self, PerError> {
        let octets = reader.take_octets(32)?;
        match octets.as_array::<32>() {
            Some(octets) => Ok(LentKey { octets }),
            None => unreachable!(),
        }
    }

    #[tactic(auto, unfolding(per_bits::specs::Writing::write_octets, per_bits::specs::Writing::write_aligned))]
    fn write(&self, _alloc: Global, writer: &mut BitWriter) -> Result<(), PerError> {
        let octets = self.octets;
        put_aligned(octets, writer)
    }
}
