//! What stands around the elements of a message.

ghost use Rattle.std.specs.Prelude.{◌≡◌, ◌≤◌, [], IfOk};
ghost use Rattle.per_bits.specs.Reading.{whole_at, closed_at};
ghost use Rattle.per_streams.specs.Reading.{number_at};
ghost use Rattle.per_streams.specs.Each.{times};
ghost use Rattle.per_streams.specs.Writing.{Wrote};
ghost use Rattle.s1ap_rows.specs.Criticalities.{criticality_number};
ghost use Rattle.s1ap_rows.specs.Reading.{frame_at};
ghost use Rattle.s1ap_rows.specs.Writing.{write_front};
ghost use Rattle.s1ap_rows.specs.Answers.{AnswersWhole};

use crate::criticality::{Criticality, take_criticality};
use per_bits::{BitReader, BitWriter, PerError, PerFault, offset_of, take_open};

// A kind is a beginning, a successful or an unsuccessful outcome; a code is one octet (TS 36.413 clause 9.3.2).
const LAST_KIND: u64 = 2;

const LAST_CODE: u64 = 255;

// An octet that is left for a length.
const NO_LENGTH: u8 = 0;

// The octet before a count, whose first bit says that there is no extension.
const NO_EXTENSION: u8 = 0;

/// The octets before those of the message, at most: kind, code, criticality and the length in two.
pub const LONGEST_HEAD: usize = 5;

/// The octet for the length, after kind, code and criticality.
pub const LENGTH_PLACE: usize = 3;

/// Kind, code, criticality and octets of a message.
#[derive(Clone, Copy)]
pub struct Frame<'a> {
    pub kind: u8,
    pub code: u8,
    pub criticality: Criticality,
    pub octets: &'a [u8],
}

/// The frame that octets spell, or their first fault.
#[tactic(auto, unfolding(crate::specs::Reading::frame_at, per_bits::specs::Reading::whole_at, per_streams::specs::Reading::number_at, per_streams::specs::Each::times))]
pub fn read_frame<'a>(octets: &'a [u8]) -> Result<Frame<'a>, PerFault>
    ensures kinds { IfOk result (λ f. f.kind ≤ 2) }
    ensures exact { AnswersWhole (λ f. (f.kind, (f.code, (criticality_number f.criticality, (f.octets.now, tt)))))
        result (whole_at frame_at octets.now) }
{
    let mut reader = BitReader::new(octets);
    let extended = reader.take_bit()?;
    if extended {
        return Err(PerFault::Alternative);
    }
    let kind = offset_of(LAST_KIND, &mut reader)?;
    let code = offset_of(LAST_CODE, &mut reader)?;
    let criticality = take_criticality(&mut reader)?;
    let content = take_open(&mut reader)?;
    reader.end()?;
    Ok(Frame {
        kind: kind as u8,
        code: code as u8,
        criticality,
        octets: content,
    })
}

/// What stands before the elements of a message: kind, code and criticality (TS 36.413 clause 9.3.2), an octet that is left
/// for the length of what follows it, and how many elements there are.
///
/// Range for a kind above 2.
#[inline(always)]
pub fn put_front(
    kind: u8,
    code: u8,
    criticality: Criticality,
    count: u16,
    writer: &mut BitWriter,
) -> Result<(), PerError>
    requires { writer.old ≡ [] }
    ensures { Wrote result writer.new (write_front kind code (criticality_number criticality) count) }
{
    if kind as u64 > LAST_KIND {
        return Err(PerError::Fault(PerFault::Range));
    }
    // the kind has the second and the third bit of its octet, as the first says that there is no extension; the criticality has
    // two bits of its own
    writer.put_octets(&[
        kind * 32,
        code,
        criticality.number() * 64,
        NO_LENGTH,
        NO_EXTENSION,
        (count / 256) as u8,
        (count % 256) as u8,
    ])?;
    Ok(())
}
