//! What plays a text line by line.

ghost use Rattle.std.specs.Prelude.{◌≡◌};
ghost use Rattle.trace_progress.specs.Acts.{GrowsBy};
ghost use Rattle.trace_run.specs.Watching.{failed_after_play};
ghost use Rattle.trace_progress.specs.Text.{breaks};
ghost use Rattle.trace_run.specs.OneLine.{IsOfLine, LineRelation};

use crate::watched::Watched;
use std::alloc::Global;
use std::io::Write;
use trace_progress::PlayFault;

/// What plays a text line by line, and writes what comes of each line before the next one is played.
pub trait PlaysLines {
    // What a line leaves and writes, by the answer.
    ghost plays: { LineRelation Self };

    /// Plays the line of that number, given without its LF, and writes what comes of it. The fault is that of the line; or it is
    /// `Write` where a call of the writer failed, and only there, or `NoMemory`. Then some of what comes of the line may have been
    /// written.
    fn play_line<W: Write>(
        &mut self,
        alloc: Global,
        number: u64,
        text: &[u8],
        writer: &mut Watched<W>,
    ) -> Result<(), PlayFault>
        requires { breaks text.now ≡ 0 }
        ensures played { GrowsBy (W.contents writer.old.inner) (W.contents writer.new.inner)
            (plays self.old number text.now result self.new) }
        ensures fault { IsOfLine number result }
        ensures write_failed { writer.new.failed ≡ failed_after_play writer.old.failed result };
}
