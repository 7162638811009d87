//! What may stand in an encoding and is not kept: extension additions (X.691 clause 19.7) and iE-Extensions
//! (TS 36.413 clause 9.3.7).

ghost use Rattle.std.specs.Prelude.{◌≡◌, ◌+◌, ◌≤◌, true};
ghost use Rattle.per_streams.specs.Bits.{Answers, Gives, bit_at, open_at};
ghost use Rattle.per_bits.specs.Reading.{skipped_at, additions_at, read_at, Counts};
ghost use Rattle.per_streams.specs.Reading.{number_at};
ghost use Rattle.per_streams.specs.Each.{times};
ghost use Rattle.per_bits.specs.Formats.{extensions, raw};
ghost use Rattle.per_bits.specs.Spelling.{trues};

use crate::open::{take_open, take_small_number};
use crate::protocol_ie::{take_id, take_marked};
use per_streams::{BitReader, PerFault, offset_of};

// The most iE-Extensions of a SEQUENCE (TS 36.413 clause 9.3.7).
const MOST_EXTENSIONS: u64 = 65535;

/// Reads past the extension additions of a SEQUENCE, where its extension bit was 1; takes no memory.
#[inline(always)]
pub fn skip_additions(extended: bool, reader: &mut BitReader) -> Result<(), PerFault>
    ensures { Answers (λ _. tt) result reader.new (skipped_at extended additions_at reader.old) }
{
    if !extended {
        return Ok(());
    }
    pass_additions(reader)?;
    Ok(())
}

// out of line, as mostly there are none
#[tactic(auto, unfolding(crate::specs::Reading::additions_at))]
#[inline(never)]
fn pass_additions(reader: &mut BitReader) -> Result<(), PerFault>
    ensures { Answers (λ _. tt) result reader.new (skipped_at true additions_at reader.old) }
{
    let more = take_small_number(reader)?;
    let count = count_flags(more + 1, reader)?;
    pass_strings(count, reader)
}

fn count_flags(count: u64, reader: &mut BitReader) -> Result<u64, PerFault>
    requires { count ≤ 64 }
    ensures { Counts result reader.new (times bit_at count reader.old) }
{
    let mut some = 0u64;
    for _ in 0..count {
        some += reader.take_bit()? as u64;
    }
    Ok(some)
}

fn pass_strings(count: u64, reader: &mut BitReader) -> Result<(), PerFault>
    ensures { Answers (λ _. tt) result reader.new (skipped_at true (times open_at count) reader.old) }
{
    for _ in 0..count {
        take_open(reader)?;
    }
    Ok(())
}

/// Reads past iE-Extensions, where they stand; takes no memory.
#[inline(always)]
pub fn skip_extensions(present: bool, reader: &mut BitReader) -> Result<(), PerFault>
    ensures { Answers (λ _. tt) result reader.new (skipped_at present (read_at extensions) reader.old) }
{
    if !present {
        return Ok(());
    }
    pass_extensions(reader)?;
    Ok(())
}

// out of line, as mostly there are none
#[tactic(auto, unfolding(per_streams::specs::Reading::number_at))]
#[inline(never)]
fn pass_extensions(reader: &mut BitReader) -> Result<(), PerFault>
    ensures { Answers (λ _. tt) result reader.new (skipped_at true (read_at extensions) reader.old) }
{
    let more = offset_of(MOST_EXTENSIONS - 1, reader)?;
    pass_raw(1 + more, reader)
}

fn pass_raw(count: u64, reader: &mut BitReader) -> Result<(), PerFault>
    ensures { Answers (λ _. tt) result reader.new (skipped_at true (times (read_at raw) count) reader.old) }
{
    for _ in 0..count {
        pass_one(reader)?;
    }
    Ok(())
}

#[tactic(auto, unfolding(per_streams::specs::Each::times))]
fn pass_one(reader: &mut BitReader) -> Result<(), PerFault>
    ensures { Answers (λ _. tt) result reader.new (skipped_at true (read_at raw) reader.old) }
{
    take_id(reader)?;
    take_marked(reader)?;
    Ok(())
}
