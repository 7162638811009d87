//! A text played from a reader to a writer.

ghost use Rattle.std.specs.Prelude.{◌≡◌, ◌⊎◌, ◌<◌, ◌≤◌, ◌+◌, ◌^◌, length, true, false, OnOk, IsErrOf};
ghost use Rattle.std.specs.Io.KnownBytes.{IsAtEnd};
ghost use Rattle.trace_progress.specs.Acts.{GrowsBy};
ghost use Rattle.trace_progress.specs.Text.{lines_of};
ghost use Rattle.trace_run.specs.Watching.{failed_after_play};
ghost use Rattle.trace_run.specs.OneLine.{IsOfLine};
ghost use Rattle.trace_run.specs.Lines.{Feeds, IsReady, PlaysEach, PlaysRead};

use crate::playing::PlaysLines;
use crate::under_way::LineUnderWay;
use crate::watched::{MOST_TURNS, Watched};
use std::alloc::Global;
use std::io::{Read, Write};
use trace_progress::PlayFault;

// The octets of a text that are read at once, at most.
const PIECE: usize = 65_536;

/// Plays the text that the reader gives line by line, by any player (`PlaysLines`): the lines that were read (the last may lack its
/// LF) have been played in order, each with its number, to the end or to the first that is refused, and what has been written is
/// what the player wrote of them. A fault has its line's number, and is the player's, or `TooLong` for a line of more than 40000
/// octets, which isn't played. If reading, writing or memory fails, the next line may have been begun. The player is as the played
/// lines left it, or as its `plays` says of the refused one.
///
/// What comes of a line is written before the next one is played, and flushed before each read after the first. `Read` where a read
/// failed or 2^32 were made; `Write` where a call of the writer failed.
pub fn play_lines<P: PlaysLines, R: Read, W: Write>(
    alloc: Global,
    player: &mut P,
    reader: &mut Watched<R>,
    writer: &mut Watched<W>,
) -> Result<(), PlayFault>
    ensures played { PlaysRead P.plays player.old player.new (R.remaining reader.old.inner) (R.remaining reader.new.inner)
        (W.contents writer.old.inner) (W.contents writer.new.inner) reader.new.ended result }
    ensures end { OnOk result (IsAtEnd (R.remaining reader.new.inner)) }
    ensures read { reader.old.calls ≡ 0 → IsErrOf result PlayFault.Read
        → (reader.new.failed ≡ true) ⊎ (MOST_TURNS ≤ reader.new.calls) }
    ensures read_failed { reader.old.failed ≡ false → reader.new.failed ≡ true → IsErrOf result PlayFault.Read }
    ensures write_failed { writer.new.failed ≡ failed_after_play writer.old.failed result }
{
    let mut line = LineUnderWay::new(alloc);
    let mut chunk = [0u8; PIECE];
    for turn in 0..MOST_TURNS {
        let Ok(count) = reader.read(&mut chunk) else {
            return Err(PlayFault::Read);
        };
        if count == 0 {
            return last_turn(alloc, player, &mut line, writer);
        }
        match one_turn(alloc, player, &mut line, &chunk[..count], writer) {
            // (the next piece may be shorter, and what a vector says isn't to stay)
            Ok(()) => chunk[..count].fill(0),
            Err(fault) => return Err(fault),
        }
    }
    Err(PlayFault::Read)
}

/// Plays a piece of the text, and flushes what came of it.
fn one_turn<P: PlaysLines, W: Write>(
    alloc: Global,
    player: &mut P,
    line: &mut LineUnderWay,
    piece: &[u8],
    writer: &mut Watched<W>,
) -> Result<(), PlayFault>
    requires ready { IsReady line.old.octets.items }
    requires counted { line.old.number + length piece.now < 2 ^ 64 }
    ensures feeds { GrowsBy (W.contents writer.old.inner) (W.contents writer.new.inner)
        (Feeds P.plays player.old line.old piece.now result player.new line.new) }
    ensures write_failed { writer.new.failed ≡ failed_after_play writer.old.failed result }
{
    let result = line.feed(alloc, player, piece, writer);
    if writer.flush().is_err() {
        return Err(PlayFault::Write);
    }
    result
}

/// Plays the last line, if it lacks its LF, and flushes what came of it.
fn last_turn<P: PlaysLines, W: Write>(
    alloc: Global,
    player: &mut P,
    line: &mut LineUnderWay,
    writer: &mut Watched<W>,
) -> Result<(), PlayFault>
    requires ready { IsReady line.old.octets.items }
    requires counted { line.old.number + 1 < 2 ^ 64 }
    ensures finishes { GrowsBy (W.contents writer.old.inner) (W.contents writer.new.inner)
        (PlaysEach P.plays player.old line.old.number (lines_of line.old.octets.items) result player.new) }
    ensures fault { IsOfLine line.old.number result }
    ensures write_failed { writer.new.failed ≡ failed_after_play writer.old.failed result }
{
    let result = line.finish(alloc, player, writer);
    if writer.flush().is_err() {
        return Err(PlayFault::Write);
    }
    result
}
