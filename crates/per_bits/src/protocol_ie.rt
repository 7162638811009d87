//! Elements as they stand in a message or a list (TS 36.413 clause 9.3.7): an id, a criticality, and a value as an open type.

ghost use Rattle.std.specs.Prelude.{true, ◌↔◌, ◌≡◌, ◌%◌, ◌/◌, ◌≤◌};
ghost use Rattle.per_streams.specs.Bits.{Answers};
ghost use Rattle.per_streams.specs.Reading.{number_at};
ghost use Rattle.per_streams.specs.Writing.{Wrote};
ghost use Rattle.per_bits.specs.Reading.{marked_at};
ghost use Rattle.per_bits.specs.Writing.{write_element};

use crate::element::Element;
use crate::open::{take_open, write_counted};
use per_streams::{BitReader, BitWriter, PerError, PerFault, offset_of};
use std::alloc::Global;

// The greatest id of an element.
const GREATEST_ID: u64 = 65535;

/// The greatest number of a criticality (TS 36.413 clause 9.3.7).
pub const LAST_CRITICALITY: u64 = 2;

// A length below 128 is one octet (X.691 clause 11.9).
const SHORT_END: u8 = 128;

// An octet that is left for a length.
const NO_LENGTH: u8 = 0;

/// Reads the id of an element (TS 36.413 clause 9.3.7).
#[tactic(auto, unfolding(per_streams::specs::Reading::number_at))]
pub fn take_id(reader: &mut BitReader) -> Result<u16, PerFault>
    ensures { Answers (λ n. n) result reader.new (number_at 0 65535 reader.old) }
{
    let id = offset_of(GREATEST_ID, reader)?;
    Ok(id as u16)
}

/// Reads the octets of an element's value, lent by the encoding, after its criticality, which is not compared; one above 2 is
/// Range.
// mostly two octets stand before these, the second their count
#[inline(always)]
pub fn take_marked<'a>(reader: &mut BitReader<'a>) -> Result<&'a [u8], PerFault>
    ensures { Answers (λ os. os.now) result reader.new (marked_at reader.old) }
{
    if let Some(head) = reader.next_two() {
        let [mark, count] = head;
        if is_mark(mark) && count < SHORT_END {
            reader.pass_two();
            return reader.octets_here(count as usize);
        }
    }
    take_mark_apart(reader)
}

// whether an octet has a criticality in its first two bits, and then zero bits
#[inline(always)]
fn is_mark(octet: u8) -> bool
    ensures { (result ≡ true) ↔ ((octet % 64 ≡ 0) × (octet / 64 ≤ 2)) }
{
    octet % 64 == 0 && octet / 64 <= 2
}

// where the head is any other; a function between, since the place of a call's answer is cleared where its caller begins
#[inline(always)]
fn take_mark_apart<'a>(reader: &mut BitReader<'a>) -> Result<&'a [u8], PerFault>
    ensures { Answers (λ os. os.now) result reader.new (marked_at reader.old) }
{
    take_any_mark(reader)
}

// out of line, as it would make every read of an element large
#[tactic(auto, unfolding(per_streams::specs::Reading::number_at))]
#[inline(never)]
fn take_any_mark<'a>(reader: &mut BitReader<'a>) -> Result<&'a [u8], PerFault>
    ensures { Answers (λ os. os.now) result reader.new (marked_at reader.old) }
{
    offset_of(LAST_CRITICALITY, reader)?;
    take_open(reader)
}

/// Writes an element: its id, its criticality, and its value as an open type (TS 36.413 clause 9.3.7); a criticality above 2 is
/// Range.
pub fn put_element<'a, T: Element<'a>>(
    alloc: Global,
    id: u16,
    criticality: u8,
    value: &T,
    writer: &mut BitWriter,
) -> Result<(), PerError>
    ensures { Wrote result writer.new (write_element id criticality T.format (T.view value.now) writer.old) }
{
    if criticality as u64 > LAST_CRITICALITY {
        return Err(PerError::Fault(PerFault::Range));
    }
    writer.align()?;
    // the criticality has two bits of its octet
    writer.put_octets(&[
        (id / 256) as u8,
        (id % 256) as u8,
        criticality * 64,
        NO_LENGTH,
    ])?;
    write_counted::<T>(alloc, value, writer)
}
