//! Bit strings whose length has bounds (X.691 clause 16).

ghost use Rattle.std.specs.Prelude.{◌≡◌, ◌+◌, ◌-◌, ◌*◌, ◌++◌, ◌<◌, ◌^◌, ◌≤◌, ◌%◌, List, Bool, length, ◌↔◌, IsSome, IfSome, IfOk};
ghost use Rattle.per_streams.specs.Bits.{Gives, Answers, bits, octet_bits, aligned_bits_at};
ghost use Rattle.per_streams.specs.Octet.{IsString};
ghost use Rattle.per_bits.specs.Reading.{bits_between_at, read_at};
ghost use Rattle.per_streams.specs.Reading.{number_at};
ghost use Rattle.per_bits.specs.Formats.{bits_between};
ghost use Rattle.per_bits.specs.Writing.{write_at};
ghost use Rattle.per_streams.specs.Writing.{Wrote};

use crate::element::Element;
use per_streams::{BitReader, BitWriter, PerError, PerFault, offset_of, put_number};
use std::alloc::Global;
use std::marker::Model;

/// From `MIN` to `MAX` bits, MAX below 65536, lent by the message; a contract sees their list.
#[derive(Drop)]
pub struct BitString<'a, const MIN: u64, const MAX: u64> {
    octets: &'a [u8],
    // the bits after the octets, as a number, and how many they are
    last: u8,
    more: u8,
}

impl<'a, const MIN: u64, const MAX: u64> Model for BitString<'a, MIN, MAX> {
    ghost Value = { List Bool };

    ghost view = { λ s. octet_bits s.octets.now ++ bits s.more s.last };

    ghost invariant = { λ s. IsString MIN MAX (length s.octets.now) s.last s.more };
}

impl<'a, const MIN: u64, const MAX: u64> BitString<'a, MIN, MAX> {
    /// The bits of these octets, of which there are from `MIN` to `MAX`; takes no memory.
    #[tactic(auto, unfolding(per_streams::specs::Bits::bits))]
    pub fn new(octets: &'a [u8]) -> Self
        requires low { MIN ≤ 8 * length octets.now }
        requires high { 8 * length octets.now ≤ MAX }
        ensures { result ≡ octet_bits octets.entry.now }
    {
        BitString {
            octets,
            last: 0,
            more: 0,
        }
    }

    /// The bits of these octets, where they are from `MIN` to `MAX` bits.
    #[tactic(auto, unfolding(per_streams::specs::Bits::bits))]
    pub fn try_new(octets: &'a [u8]) -> Option<Self>
        ensures value { IfSome result (λ s. s ≡ octet_bits octets.entry.now) }
        ensures some { IsSome result ↔ ((MIN ≤ 8 * length octets.entry.now) × (8 * length octets.entry.now ≤ MAX)) }
    {
        let count = octets.len() as u64;
        if count > MAX / 8 || 8 * count < MIN {
            return None;
        }
        Some(BitString::new(octets))
    }

    /// The octets, where the bits are whole octets.
    pub fn whole_octets(&self) -> Option<&'a [u8]>
        ensures value { IfSome result (λ os. octet_bits os.now ≡ self.now) }
        ensures some { IsSome result ↔ (length self.now % 8 ≡ 0) }
    {
        if self.more == 0 {
            Some(self.octets)
        } else {
            None
        }
    }
}

impl<'a, const MIN: u64, const MAX: u64> Element<'a> for BitString<'a, MIN, MAX> {
    ghost format = { bits_between MIN MAX };

    ghost view = { λ s. s };

    #[tactic(auto, unfolding(crate::specs::Reading::bits_between_at, per_streams::specs::Reading::number_at))]
    fn read(_alloc: Global, reader: &mut BitReader<'a>) -> Result<Self, PerError> {
        let over = offset_of(MAX.saturating_sub(MIN), reader)?;
        let (octets, last, more) = take_string(MIN + over, reader)?;
        Ok(BitString { octets, last, more })
    }

    fn write(&self, _alloc: Global, writer: &mut BitWriter) -> Result<(), PerError> {
        let count = 8 * self.octets.len() as u64 + self.more as u64;
        put_number(MIN, MAX, count, writer)?;
        writer.align()?;
        writer.put_octets(self.octets)?;
        writer.put_bits(self.more, self.last as u64)?;
        Ok(())
    }
}

/// `count` bits from the next octet on: whole octets, the others as a number, and how many these are.
fn take_string<'a>(count: u64, reader: &mut BitReader<'a>) -> Result<(&'a [u8], u8, u8), PerFault>
    ensures exact { Answers (λ s. octet_bits s.0.now ++ bits s.2 s.1) result reader.new (aligned_bits_at count reader.old) }
    ensures fits { IfOk result (λ s. IsString count count (length s.0.now) s.1 s.2) }
{
    let octets = reader.take_octets((count / 8) as usize)?;
    let more = (count % 8) as u8;
    let last = reader.take_bits(more)? as u8;
    Ok((octets, last, more))
}
