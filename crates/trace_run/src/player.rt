//! The player of a trace.

ghost use Rattle.std.specs.Prelude.{◌≡◌, IfErr};
ghost use Rattle.trace_progress.specs.declared.progress.Progress.TheVariants.{Nothing};
ghost use Rattle.trace_progress.specs.Text.{line_effect};
ghost use Rattle.trace_progress.specs.Acts.{Acts};
ghost use Rattle.trace_run.specs.Play.{LeftByText};

use crate::acts::act_on_line;
use crate::playing::PlaysLines;
use crate::watched::Watched;
use std::alloc::Global;
use std::io::Write;
use trace_progress::{PlayFault, Progress, fault_in_line};
use trace_words::parse_line;

/// How far a trace has been played.
#[derive(Drop)]
pub struct Player {
    /// What the lines before have left.
    pub progress: Progress,
    /// The room of the last answer's line.
    pub room: Vec<u8>,
}

impl Player {
    /// Nothing has been played.
    pub fn new(alloc: Global) -> Player
        ensures { result.progress ≡ Nothing }
    {
        Player {
            progress: Progress::Nothing,
            room: Vec::new(alloc),
        }
    }
}

impl PlaysLines for Player {
    // A line acts on the MME, and its answers are written. One that is refused leaves what `LeftByText` says.
    ghost plays = { λ old number text result new written.
        Acts number (line_effect old.progress text) result new.progress written
        × IfErr result (λ fault. LeftByText old.progress text fault new.progress) };

    fn play_line<W: Write>(
        &mut self,
        alloc: Global,
        number: u64,
        text: &[u8],
        writer: &mut Watched<W>,
    ) -> Result<(), PlayFault> {
        match parse_line(alloc, text) {
            Ok(line) => act_on_line(
                alloc,
                &mut self.progress,
                number,
                line,
                &mut self.room,
                writer,
            ),
            Err(fault) => Err(fault_in_line(number, fault)),
        }
    }
}
