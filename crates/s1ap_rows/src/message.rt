//! A message by its rows: read from octets, and written.

ghost use Rattle.std.specs.Prelude.{◌≡◌, ◌≤◌, ◌+◌, OnErr};
ghost use Rattle.per_bits.specs.Reading.{GivesWhole};
ghost use Rattle.per_streams.specs.Writing.{Wrote};
ghost use Rattle.s1ap_rows.specs.Rows.{Rows, Slots, Kept, row_count, no_slots};
ghost use Rattle.s1ap_rows.specs.Reading.{put_at, kept_of, message_at};
ghost use Rattle.s1ap_rows.specs.Writing.{count_of, write_rows, write_pdu};
ghost use Rattle.s1ap_rows.specs.Criticalities.{criticality_number};
ghost use Rattle.s1ap_rows.specs.Answers.{Answers, Reads, WantsNoMemory};

use crate::criticality::Criticality;
use crate::engine::fill_message;
use crate::fault::S1apFault;
use crate::frame::{LENGTH_PLACE, LONGEST_HEAD, put_front};
use per_bits::{BitReader, BitWriter, PerError, count_after};
use std::alloc::Global;

// The octets for which a message has room at once; most are shorter, and a longer one grows.
const SHORT_MESSAGE: usize = 256;

/// The rows of a message that is read. A value of this type is what was read of each row so far.
pub trait Message<'a>: Drop {
    /// What a message has of its rows: for each row that is kept, its element beside what the rows after it have.
    type Elements;

    /// The rows as data.
    ghost rows: { Rows };

    /// What was read of each row, without where it lies in memory.
    ghost slots: { Self → Slots rows };

    /// The elements without where they lie in memory.
    ghost view: { Self.Elements → Kept rows };

    /// The rows before any is read.
    fn none() -> Self
        ensures { slots result ≡ no_slots rows };

    /// Takes one more element, after its id; refused, the rows are as they were.
    fn put(&mut self, alloc: Global, id: u16, reader: &mut BitReader<'a>) -> Result<(), S1apFault>
        ensures reads { Reads result (slots self.new, reader.new) (put_at rows id (slots self.old) reader.old) }
        ensures err { OnErr result (slots self.new ≡ slots self.old) };

    /// What the message has of what was read, or the first element that must stand and does not.
    fn elements(self) -> Result<Self::Elements, S1apFault>
        ensures answer { Answers view result (kept_of rows (slots self)) }
        ensures memory { WantsNoMemory result };
}

/// The rows of a message that is written.
pub trait Written<'a> {
    /// What a message has of its rows, by references: for each row that is kept, its element beside what the rows after it have.
    type Lent;

    /// The rows as data.
    ghost rows: { Rows };

    /// The elements without where they lie in memory.
    ghost lent: { Self.Lent → Kept rows };

    /// How many elements are written, and those before them.
    fn count(elements: &Self::Lent, before: u64) -> u64
        requires { before + row_count rows ≤ 65535 }
        ensures { result ≡ count_of rows (lent elements.now) before };

    /// Writes the elements, a row after the other.
    fn write(alloc: Global, elements: &Self::Lent, writer: &mut BitWriter) -> Result<(), PerError>
        ensures { Wrote result writer.new (write_rows rows (lent elements.now) writer.old) };
}

/// What a message has of its rows, from its octets, or their first fault.
pub fn read_message<'a, M: Message<'a>>(
    alloc: Global,
    octets: &'a [u8],
) -> Result<M::Elements, S1apFault>
    ensures { Answers M.view result (message_at M.rows octets.now) }
{
    let mut message = M::none();
    fill_message::<M>(alloc, octets, &mut message)?;
    message.elements()
}

/// The octets of a message in its frame (TS 36.413 clause 9.3): kind, code and criticality, then as an open type how many
/// elements there are, and id, criticality and value of each.
///
/// Range where a value is not writable, where the elements take more than 16383 octets, and for a kind above 2.
pub fn write_pdu<'a, W: Written<'a>>(
    alloc: Global,
    kind: u8,
    code: u8,
    criticality: Criticality,
    elements: &W::Lent,
) -> Result<Vec<u8>, PerError>
    requires { row_count W.rows ≤ 65535 }
    ensures { GivesWhole (λ v. v.items) result (write_pdu kind code (criticality_number criticality) W.rows (W.lent elements.now)) }
{
    let mut writer = BitWriter::with_room(alloc, SHORT_MESSAGE + LONGEST_HEAD)?;
    let count = W::count(elements, 0);
    put_front(kind, code, criticality, count as u16, &mut writer)?;
    W::write(alloc, elements, &mut writer)?;
    writer.align()?;
    count_after(LENGTH_PLACE, &mut writer)?;
    writer.finish()
}
