//! The player of a script.

ghost use Rattle.std.specs.Prelude.{◌≡◌, ◌||◌, ◌∷◌, [], false, OnOk};
ghost use Rattle.trace_words.specs.Kept.{kept_in};
ghost use Rattle.trace_progress.specs.declared.progress.Progress.TheVariants.{Nothing};
ghost use Rattle.sim_lines.specs.Faults.{AnswersFault, ends_provisioning, script_fault};
ghost use Rattle.sim_run.specs.Simulated.{WritesLine};

use sim_lines::{Script, play_script_line};
use std::alloc::Global;
use std::io::Write;
use trace_run::{PlayFault, PlaysLines, Watched, write_whole};

/// How far a script has been played.
#[derive(Drop)]
pub(crate) struct ScriptPlayer {
    /// What the lines before have left.
    pub(crate) script: Script,
}

impl ScriptPlayer {
    /// Nothing has been played.
    pub(crate) fn new(alloc: Global) -> ScriptPlayer
        ensures progress { result.script.progress ≡ Nothing }
        ensures acted { result.script.acted ≡ false }
    {
        ScriptPlayer {
            script: Script::new(alloc),
        }
    }
}

impl PlaysLines for ScriptPlayer {
    // A line is played with what follows from it, and written as a trace with its answers, once it is done. Its fault, if it has
    // one, is that of what the lines before it have left.
    ghost plays = { λ old number text result new written.
        WritesLine (kept_in (text ∷ [])) old.script.progress result new.script.progress written
        × AnswersFault (script_fault old.script.acted old.script.progress text) result
        × OnOk result (new.script.acted ≡ (ends_provisioning text || old.script.acted)) };

    fn play_line<W: Write>(
        &mut self,
        alloc: Global,
        number: u64,
        text: &[u8],
        writer: &mut Watched<W>,
    ) -> Result<(), PlayFault> {
        let mut out = Vec::new(alloc);
        match play_script_line(alloc, &mut self.script, number, text, &mut out) {
            Ok(()) => {}
            Err(fault) => return Err(fault),
        }
        if !write_whole(writer, out.as_slice()) {
            return Err(PlayFault::Write);
        }
        Ok(())
    }
}
