//! A trace played from a reader to a writer.

ghost use Rattle.std.specs.Prelude.{◌≡◌, ◌⊎◌, ◌≤◌, true, false, OnOk, IsErrOf};
ghost use Rattle.std.specs.Io.KnownBytes.{IsAtEnd};
ghost use Rattle.trace_run.specs.Play.{Plays};

use crate::lines::play_lines;
use crate::player::Player;
use crate::watched::{MOST_TURNS, Watched};
use std::alloc::Global;
use std::io::{Read, Write};
use trace_progress::PlayFault;

/// Plays the trace that the reader gives, from octets to octets: what has been written is `played_of` of what has been read, to its
/// end or to the line with the fault; if reading, writing or memory fails, a prefix of that. Ok is answered only if the reader met
/// the end, and no octet is left of a reader that reports its octets; `Read` exactly if a read failed, or 2^32 were made; `Write`
/// exactly if a call of the writer failed.
///
/// The answers of each event are written before the next one is played. What has been answered is flushed before each read after
/// the first.
pub fn run_play<R: Read, W: Write>(
    alloc: Global,
    reader: &mut Watched<R>,
    writer: &mut Watched<W>,
) -> Result<(), PlayFault>
    ensures played { Plays (R.remaining reader.old.inner) (R.remaining reader.new.inner)
        (W.contents writer.old.inner) (W.contents writer.new.inner) reader.new.ended result }
    ensures end { OnOk result (IsAtEnd (R.remaining reader.new.inner)) }
    ensures read { reader.old.calls ≡ 0 → IsErrOf result PlayFault.Read
        → (reader.new.failed ≡ true) ⊎ (MOST_TURNS ≤ reader.new.calls) }
    ensures write { IsErrOf result PlayFault.Write → writer.new.failed ≡ true }
    ensures read_failed { reader.old.failed ≡ false → reader.new.failed ≡ true → IsErrOf result PlayFault.Read }
    ensures write_failed { writer.old.failed ≡ false → writer.new.failed ≡ true → IsErrOf result PlayFault.Write }
{
    let mut player = Player::new(alloc);
    play_lines(alloc, &mut player, reader, writer)
}
