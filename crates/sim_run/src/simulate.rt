//! A script simulated from a reader to a writer.

ghost use Rattle.std.specs.Prelude.{◌≡◌, ◌⊎◌, ◌≤◌, true, false, OnOk, IsErrOf};
ghost use Rattle.std.specs.Io.KnownBytes.{IsAtEnd};
ghost use Rattle.sim_run.specs.Simulated.{Simulates};

use crate::player::ScriptPlayer;
use std::alloc::Global;
use std::io::{Read, Write};
use trace_run::{MOST_TURNS, PlayFault, Watched, play_lines};

/// Simulates the script that the reader gives, from octets to octets. If it ends with Ok or with a fault of the script, what has
/// been written, played as a trace, has no fault and prints its own lines that begin with `# `, without these two octets; and its
/// lines whose first word is `mme`, `sub`, `vec`, `data`, `cancel` or `show` are, in order, what the script's say, up to its end or
/// to before the line with the fault. A fault is that of the first line that has one; if the answer is Ok, none has. The rest is as
/// with `run_play`. All this holds whatever stations and phones send.
///
/// What comes of each line is written before the next line is played, and flushed before each read after the first.
pub fn run_sim<R: Read, W: Write>(
    alloc: Global,
    reader: &mut Watched<R>,
    writer: &mut Watched<W>,
) -> Result<(), PlayFault>
    ensures simulated { Simulates (R.remaining reader.old.inner) (R.remaining reader.new.inner)
        (W.contents writer.old.inner) (W.contents writer.new.inner) reader.new.ended result }
    ensures end { OnOk result (IsAtEnd (R.remaining reader.new.inner)) }
    ensures read { reader.old.calls ≡ 0 → IsErrOf result PlayFault.Read
        → (reader.new.failed ≡ true) ⊎ (MOST_TURNS ≤ reader.new.calls) }
    ensures write { IsErrOf result PlayFault.Write → writer.new.failed ≡ true }
    ensures read_failed { reader.old.failed ≡ false → reader.new.failed ≡ true → IsErrOf result PlayFault.Read }
    ensures write_failed { writer.old.failed ≡ false → writer.new.failed ≡ true → IsErrOf result PlayFault.Write }
{
    let mut player = ScriptPlayer::new(alloc);
    play_lines(alloc, &mut player, reader, writer)
}
