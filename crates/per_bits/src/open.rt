//! Lengths without a bound, and open types.

ghost use Rattle.std.specs.Prelude.{◌≡◌, ◌<◌, ◌^◌, ◌≤◌, ◌+◌, ◌*◌, ◌++◌, Bool, List, length, map, IfOk};
ghost use Rattle.per_streams.specs.Bits.{Answers, Gives, bits, length_at, open_at, number_bits_at, pad};
ghost use Rattle.per_bits.specs.Formats.{open_type};
ghost use Rattle.per_bits.specs.Reading.{read_at, whole_at, small_number_at, complete_at, GivesWhole, inside_at};
ghost use Rattle.per_bits.specs.Spelling.{length_octets};
ghost use Rattle.per_bits.specs.Writing.{count_after, write_at, write_length, write_string, complete_write};
ghost use Rattle.per_streams.specs.Writing.{Wrote};

use crate::element::Element;
use per_streams::{BitReader, BitWriter, PerError, PerFault, offset_of};
use std::alloc::Global;

// A length below 128 is one octet; one below 16384 is two, the first of them 128 to 191; more comes in fragments
// (X.691 clause 11.9).
const SHORT_END: usize = 128;

const LONG_END: usize = 16384;

const LONG_FIRST: u8 = 128;

const FRAGMENT_FIRST: u8 = 192;

// The octets for which a value has room at once; most are shorter, and a longer one grows.
const SHORT_VALUE: usize = 64;

/// Reads a length without a bound, below 16384 (X.691 clause 11.9); NotFewest for one below 128 in two octets, Fragmented for more.
#[tactic(auto, unfolding(per_streams::specs::Bits::length_at))]
#[inline(always)]
pub fn take_length(reader: &mut BitReader) -> Result<usize, PerFault>
    ensures { Answers (λ n. n) result reader.new (length_at reader.old) }
{
    reader.align()?;
    let first = take_octet(reader)?;
    if first < LONG_FIRST {
        return Ok(first as usize);
    }
    if first >= FRAGMENT_FIRST {
        return Err(PerFault::Fragmented);
    }
    let second = take_octet(reader)?;
    let length = (first - LONG_FIRST) as usize * 256 + second as usize;
    if length < SHORT_END {
        return Err(PerFault::NotFewest);
    }
    Ok(length)
}

/// Reads the octets of an open type (X.691 clause 11.2), lent by the encoding; longer than what is left is Truncated.
#[tactic(auto, unfolding(per_streams::specs::Bits::open_at))]
#[inline(always)]
pub fn take_open<'a>(reader: &mut BitReader<'a>) -> Result<&'a [u8], PerFault>
    ensures { Answers (λ s. s.now) result reader.new (open_at reader.old) }
{
    let length = take_length(reader)?;
    reader.take_octets(length)
}

#[inline(always)]
fn take_octet(reader: &mut BitReader) -> Result<u8, PerFault>
    ensures { Answers (λ n. n) result reader.new (number_bits_at 8 reader.old) }
{
    let number = reader.take_bits(8)?;
    Ok(number as u8)
}

/// Writes a length without a bound (X.691 clause 11.9); 16384 and more is Range.
#[tactic(auto, unfolding(crate::specs::Writing::write_length))]
#[inline(always)]
pub fn put_length(length: usize, writer: &mut BitWriter) -> Result<(), PerError>
    ensures { Wrote result writer.new (write_length length writer.old) }
{
    if length >= LONG_END {
        return Err(PerError::Fault(PerFault::Range));
    }
    writer.align()?;
    if length < SHORT_END {
        writer.put_octet(length as u8)
    } else {
        writer.put_octets(&[LONG_FIRST + (length / 256) as u8, (length % 256) as u8])
    }
}

/// Reads a complete encoding: a value, padding up to the octet, and nothing after it.
#[tactic(auto, unfolding(crate::specs::Reading::whole_at))]
pub fn read_complete<'a, T: Element<'a>>(alloc: Global, octets: &'a [u8]) -> Result<T, PerError>
    ensures { GivesWhole T.view result (complete_at T.format octets.now) }
{
    let mut reader = BitReader::new(octets);
    let value = T::read(alloc, &mut reader)?;
    reader.end()?;
    Ok(value)
}

/// Writes a value as a complete encoding.
pub fn write_complete<'a, T: Element<'a>>(alloc: Global, value: &T) -> Result<Vec<u8>, PerError>
    ensures { GivesWhole (λ v. v.items) result (complete_write T.format (T.view value.now)) }
{
    let mut writer = BitWriter::with_room(alloc, SHORT_VALUE)?;
    value.write(alloc, &mut writer)?;
    writer.finish()
}

/// Reads a value from the octets of an open type.
pub fn read_open<'a, T: Element<'a>>(
    alloc: Global,
    reader: &mut BitReader<'a>,
) -> Result<T, PerError>
    ensures { Gives T.view result reader.new (inside_at (read_at T.format) reader.old) }
{
    let octets = take_open(reader)?;
    let value = read_complete::<T>(alloc, octets)?;
    Ok(value)
}

/// Writes a value as an open type, where it stands: an octet is left for its length, which may become two (X.691 clause 11.2).
pub fn write_open<'a, T: Element<'a>>(
    alloc: Global,
    value: &T,
    writer: &mut BitWriter,
) -> Result<(), PerError>
    ensures { Wrote result writer.new (write_at (open_type T.format) (T.view value.now) writer.old) }
{
    writer.align()?;
    writer.put_octet(0)?;
    write_counted::<T>(alloc, value, writer)
}

/// Writes a value as an open type after the octet that was left for its length, which may become two (X.691 clause 11.2).
#[inline(always)]
pub fn write_counted<'a, T: Element<'a>>(
    alloc: Global,
    value: &T,
    writer: &mut BitWriter,
) -> Result<(), PerError>
    requires { (out : List Bool) × (writer.old ≡ (out ++ pad (length out)) ++ bits 8 0) }
    ensures { (out : List Bool) → writer.old ≡ (out ++ pad (length out)) ++ bits 8 0
        → Wrote result writer.new (write_at (open_type T.format) (T.view value.now) out) }
{
    let place = writer.octets() - 1;
    value.write(alloc, writer)?;
    writer.align()?;
    count_after(place, writer)
}

/// The octet at a place becomes the length of those after it, up to 16383, which is one octet or two (X.691 clause 11.9);
/// more is Range.
#[tactic(auto, unfolding(crate::specs::Writing::count_after))]
#[inline(always)]
pub fn count_after(place: usize, writer: &mut BitWriter) -> Result<(), PerError>
    requires { 8 * place + 8 ≤ length writer.old }
    ensures { Wrote result writer.new (count_after place writer.old) }
{
    let length = writer.octets() - place - 1;
    if length < SHORT_END {
        writer.set_octet(place, length as u8);
        return Ok(());
    }
    if LONG_END <= length {
        return Err(PerError::Fault(PerFault::Range));
    }
    writer.set_octet(place, LONG_FIRST + (length / 256) as u8);
    writer.insert_octet(place + 1, (length % 256) as u8)
}

/// Reads a normally small number (X.691 clause 11.6) from 0 to 63; a first bit of 1 is Range.
#[tactic(auto, unfolding(per_streams::specs::Reading::number_at))]
pub fn take_small_number(reader: &mut BitReader) -> Result<u64, PerFault>
    ensures exact { Answers (λ n. n) result reader.new (small_number_at reader.old) }
    ensures within { IfOk result (λ n. n ≤ 63) }
{
    let extended = reader.take_bit()?;
    if extended {
        return Err(PerFault::Range);
    }
    offset_of(63, reader)
}
