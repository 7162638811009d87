//! A script, line by line.

ghost use Rattle.std.specs.Prelude.{◌≡◌, ◌≢◌, ◌||◌, ◌∷◌, [], false, OnOk, IfErr};
ghost use Rattle.trace_words.specs.Kept.{kept_in};
ghost use Rattle.trace_progress.specs.Text.{breaks};
ghost use Rattle.trace_progress.specs.declared.progress.Progress.TheVariants.{Nothing};
ghost use Rattle.sim_printing.specs.Printed.{PrintsScriptLine};
ghost use Rattle.sim_crowd.specs.Crowds.{empty_crowd};
ghost use Rattle.sim_lines.specs.Faults.{AnswersFault, ends_provisioning, script_fault};
ghost use Rattle.sim_lines.specs.Plays.{PlaysText};
ghost use Rattle.sim_lines.specs.Turns.{scene_of};

use crate::acts::play_act_line;
use crate::lines::play_trace_line;
use sim_crowd::Crowd;
use std::alloc::Global;
use trace_progress::{PlayFault, Progress, fault_in_line};
use trace_words::{ScriptLine, first_word_tells, parse_script_line};

/// A script that is being played: the trace that it makes, and its stations and phones.
#[derive(Drop)]
pub struct Script {
    /// How far the trace has got.
    pub progress: Progress,
    /// The stations and phones.
    pub crowd: Crowd,
    /// Whether an act, an event or a question has come, and was played. Nothing is provisioned from then on.
    pub acted: bool,
}

impl Script {
    /// A script of which no line has come.
    pub fn new(alloc: Global) -> Script
        ensures progress { result.progress ≡ Nothing }
        ensures crowd { result.crowd ≡ empty_crowd }
        ensures acted { result.acted ≡ false }
    {
        Script {
            progress: Progress::Nothing,
            crowd: Crowd::new(alloc),
            acted: false,
        }
    }
}

/// Plays a line of a script. It is refused with `script_fault` exactly if it has that fault, or for lack of memory. The fault is
/// the one with which the line is read, or the one that it has in a trace, or Order if it provisions after an act, an event or a
/// question, or acts before `mme`; then nothing is printed and nothing changes, stations and phones included. If memory is refused,
/// nothing of the line is printed, and the trace is as it was; or with what the line provisions; or with nothing, if there was no
/// memory to make the MME; or with the MME after some events (`IsFurther`). Otherwise the line leaves the trace, the stations and
/// phones, and the output as defined (`PlaysText`). Each message that the MME sends is delivered to its station, in order. What
/// stations and phones answer comes after it, at most 64 messages after a line or a tick, and the number of those left out is
/// printed. `tick N` makes N ticks, each answered before the next, up to the first that is refused. The station or phone that acts,
/// is set up or is lost is the one that the line names.
///
/// It is given without its LF, with its number.
pub fn play_script_line(
    alloc: Global,
    script: &mut Script,
    number: u64,
    text: &[u8],
    out: &mut Vec<u8>,
) -> Result<(), PlayFault>
    requires { breaks text.now ≡ 0 }
    ensures printed { PrintsScriptLine number
        (kept_in (text.now ∷ [])) script.old.progress out.old.items result script.new.progress out.new.items }
    ensures plays { OnOk result (PlaysText text.now (scene_of script.old out.old.items) (scene_of script.new out.new.items)) }
    ensures fault { AnswersFault (script_fault script.old.acted script.old.progress text.now) result }
    ensures acted { OnOk result (script.new.acted ≡ (ends_provisioning text.now || script.old.acted)) }
    ensures err { IfErr result (λ fault. fault ≢ PlayFault.NoMemory → script.new ≡ script.old) }
{
    first_word_tells();
    match parse_script_line(alloc, text) {
        Ok(ScriptLine::Trace(line)) => play_trace_line(alloc, script, number, line, text, out),
        Ok(ScriptLine::Act(act)) => play_act_line(alloc, script, number, act, out),
        Err(fault) => Err(fault_in_line(number, fault)),
    }
}
