//! Octet strings that are lent by the encoding (X.691 clauses 17 and 30).

ghost use Rattle.std.specs.Prelude.{◌≡◌, length, OnOk, ◌<◌};
ghost use Rattle.per_streams.specs.Bits.{Gives};
ghost use Rattle.per_bits.specs.Formats.{octet_string, octets_between};
ghost use Rattle.per_bits.specs.Reading.{between_at, read_at};
ghost use Rattle.per_streams.specs.Reading.{number_at};
ghost use Rattle.per_bits.specs.Writing.{write_at, write_aligned, write_length, write_string};
ghost use Rattle.per_streams.specs.Writing.{Wrote};

use crate::element::Element;
use crate::open::{put_length, take_open};
use per_streams::{BitReader, BitWriter, PerError, PerFault, offset_of, put_number};
use std::alloc::Global;

/// Up to 16383 octets after their length, lent by the encoding (X.691 clause 17.8).
#[derive(Clone, Copy)]
pub struct OctetString<'a> {
    pub octets: &'a [u8],
}

impl<'a> Element<'a> for OctetString<'a> {
    ghost format = { octet_string };

    ghost view = { λ s. s.octets.now };

    fn read(_alloc: Global, reader: &mut BitReader<'a>) -> Result<Self, PerError> {
        let octets = take_open(reader)?;
        Ok(OctetString { octets })
    }

    fn write(&self, _alloc: Global, writer: &mut BitWriter) -> Result<(), PerError> {
        put_open(self.octets, writer)
    }
}

/// Writes octets from the next octet on.
#[tactic(auto, unfolding(crate::specs::Writing::write_aligned))]
#[inline(always)]
pub fn put_aligned(octets: &[u8], writer: &mut BitWriter) -> Result<(), PerError>
    ensures { Wrote result writer.new (write_aligned octets.now writer.old) }
{
    writer.align()?;
    writer.put_octets(octets)?;
    Ok(())
}

/// Writes a length and its octets, as an open type has them (X.691 clause 11.2); 16384 octets and more is Range.
#[tactic(auto, unfolding(crate::specs::Writing::write_string))]
#[inline(always)]
pub fn put_open(octets: &[u8], writer: &mut BitWriter) -> Result<(), PerError>
    ensures { Wrote result writer.new (write_string octets.now writer.old) }
{
    put_length(octets.len(), writer)?;
    put_aligned(octets, writer)
}

/// From `MIN` to `MAX` octets or characters, MAX below 65536, lent by the encoding (X.691 clauses 17 and 30).
#[derive(Clone, Copy)]
pub struct SizedString<'a, const MIN: u64, const MAX: u64> {
    pub octets: &'a [u8],
}

impl<'a, const MIN: u64, const MAX: u64> Element<'a> for SizedString<'a, MIN, MAX> {
    ghost format = { octets_between MIN MAX };

    ghost view = { λ s. s.octets.now };

    #[tactic(auto, unfolding(crate::specs::Reading::between_at, per_streams::specs::Reading::number_at))]
    fn read(_alloc: Global, reader: &mut BitReader<'a>) -> Result<Self, PerError> {
        let more = offset_of(MAX.saturating_sub(MIN), reader)?;
        let octets = reader.take_octets((MIN + more) as usize)?;
        Ok(SizedString { octets })
    }

    fn write(&self, _alloc: Global, writer: &mut BitWriter) -> Result<(), PerError> {
        put_number(MIN, MAX, self.octets.len() as u64, writer)?;
        put_aligned(self.octets, writer)
    }
}
