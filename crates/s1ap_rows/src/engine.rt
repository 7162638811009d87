//! The elements of a message, in any order.

ghost use Rattle.std.specs.Prelude.{◌≡◌, ◌≤◌, OnErr, option_map};
ghost use Rattle.per_streams.specs.Bits.{Place};
ghost use Rattle.per_streams.specs.Reading.{number_at};
ghost use Rattle.per_streams.specs.Writing.{Wrote};
ghost use Rattle.per_bits.specs.Writing.{write_element};
ghost use Rattle.s1ap_rows.specs.Criticalities.{criticality_number};
ghost use Rattle.s1ap_rows.specs.Spelling.{may_skip};
ghost use Rattle.s1ap_rows.specs.Reading.{pass_at, fill_slot, elements_at, fill_at};
ghost use Rattle.s1ap_rows.specs.Writing.{write_some, one_if};
ghost use Rattle.s1ap_rows.specs.Answers.{Reads};

use crate::criticality::{Criticality, take_criticality};
use crate::fault::S1apFault;
use crate::message::Message;
use per_bits::{
    BitReader, BitWriter, Element, PerError, offset_of, read_complete, skip_additions, take_id,
    take_marked, take_open,
};
use std::alloc::Global;

/// The most elements of a message (TS 36.413 clause 9.3.7).
pub const MOST_ELEMENTS: u64 = 65535;

// Elements that are passed over though they are marked reject (TS 36.413 clause 9.3.6).
const GUMMEI_ID: u16 = 75;

const CSG_ID: u16 = 127;

const CSG_ID_LIST: u16 = 128;

/// An element of a row; refused, what was read of the row is as it was.
// inlined, so that the place of its answer is cleared only where the element is the row's
#[inline(always)]
pub fn fill<'a, T: Element<'a>>(
    alloc: Global,
    id: u16,
    slot: &mut Option<T>,
    reader: &mut BitReader<'a>,
) -> Result<(), S1apFault>
    ensures reads { Reads result (option_map T.view slot.new, reader.new)
        (fill_slot T.format id (option_map T.view slot.old) reader.old) }
    ensures err { OnErr result (option_map T.view slot.new ≡ option_map T.view slot.old) }
{
    fill_slot(alloc, id, slot, reader)
}

// the element, read where there is none so far
fn fill_slot<'a, T: Element<'a>>(
    alloc: Global,
    id: u16,
    slot: &mut Option<T>,
    reader: &mut BitReader<'a>,
) -> Result<(), S1apFault>
    ensures reads { Reads result (option_map T.view slot.new, reader.new)
        (fill_slot T.format id (option_map T.view slot.old) reader.old) }
    ensures err { OnErr result (option_map T.view slot.new ≡ option_map T.view slot.old) }
{
    if slot.is_some() {
        return Err(S1apFault::RepeatedElement(id));
    }
    let octets = take_marked(reader)?;
    let value = read_complete::<T>(alloc, octets)?;
    *slot = Some(value);
    Ok(())
}

// Whether an element of no row is passed over.
fn may_skip(id: u16, criticality: Criticality) -> bool
    ensures { result ≡ may_skip id (criticality_number criticality) }
{
    match criticality {
        Criticality::Reject => id == GUMMEI_ID || id == CSG_ID || id == CSG_ID_LIST,
        Criticality::Ignore | Criticality::Notify => true,
    }
}

/// An element of no row.
pub fn pass(id: u16, reader: &mut BitReader) -> Result<(), S1apFault>
    ensures { Reads result (tt, reader.new) (pass_at id reader.old) }
{
    let criticality = take_criticality(reader)?;
    if may_skip(id, criticality) {
        take_open(reader)?;
        Ok(())
    } else {
        Err(S1apFault::RefusedElement(id))
    }
}

fn read_elements<'a, M: Message<'a>>(
    alloc: Global,
    count: u64,
    reader: &mut BitReader<'a>,
    message: &mut M,
) -> Result<(), S1apFault>
    ensures { Reads result (M.slots message.new, reader.new) (elements_at M.rows count (M.slots message.old) reader.old) }
{
    for _ in 0..count {
        let id = take_id(reader)?;
        message.put(alloc, id, reader)?;
    }
    Ok(())
}

/// The elements of a message, from its octets.
#[tactic(auto, unfolding(per_streams::specs::Reading::number_at, crate::specs::Reading::fill_at))]
pub fn fill_message<'a, M: Message<'a>>(
    alloc: Global,
    octets: &'a [u8],
    message: &mut M,
) -> Result<(), S1apFault>
    ensures { Reads result (M.slots message.new) (fill_at M.rows (M.slots message.old) octets.now) }
{
    let mut reader = BitReader::new(octets);
    let extended = reader.take_bit()?;
    let count = offset_of(MOST_ELEMENTS, &mut reader)?;
    read_elements::<M>(alloc, count, &mut reader, message)?;
    skip_additions(extended, &mut reader)?;
    reader.end()?;
    Ok(())
}

/// Writes an element of a row.
pub fn put_element<'a, T: Element<'a>>(
    alloc: Global,
    id: u16,
    criticality: Criticality,
    value: &T,
    writer: &mut BitWriter,
) -> Result<(), PerError>
    ensures { Wrote result writer.new (write_element id (criticality_number criticality) T.format (T.view value.now) writer.old) }
{
    per_bits::put_element::<T>(alloc, id, criticality.number(), value, writer)
}

/// Writes an element of a row, where there is one.
pub fn put_some<'a, T: Element<'a>>(
    alloc: Global,
    id: u16,
    criticality: Criticality,
    value: &Option<T>,
    writer: &mut BitWriter,
) -> Result<(), PerError>
    ensures { Wrote result writer.new (write_some id criticality T.format (option_map T.view value.now) writer.old) }
{
    match value {
        Some(value) => put_element::<T>(alloc, id, criticality, value, writer),
        None => Ok(()),
    }
}

/// How many elements an optional row has.
pub fn count_some<'a, T: Element<'a>>(value: &Option<T>) -> u64
    ensures exact { result ≡ one_if (option_map T.view value.now) }
    ensures few { result ≤ 1 }
{
    match value {
        Some(_) => 1,
        None => 0,
    }
}
