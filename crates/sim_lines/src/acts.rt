//! What stations and phones do.

ghost use Rattle.std.specs.Prelude.{◌≡◌, ◌≢◌, [], true, IfOk, OnOk, IfErr};
ghost use Rattle.std.specs.Result.{result_err};
ghost use Rattle.trace_progress.specs.Effects.{running};
ghost use Rattle.sim_printing.specs.Printed.{IsBegun, PrintsOn, PrintsScriptLine};
ghost use Rattle.sim_lines.specs.Faults.{AnswersFault};
ghost use Rattle.sim_lines.specs.Further.{GoesFurther};
ghost use Rattle.sim_lines.specs.Plays.{PlaysAct, PlaysActed, PlaysUp, set_up_sending};
ghost use Rattle.sim_lines.specs.Turns.{scene_of, sending_as};

use crate::script::Script;
use crate::turns::{deliver, play_message, play_queue};
use identity_slots::StationNumber;
use mme_core::Outs;
use sim_crowd::Acted;
use sim_printing::{is_begun, play_in, play_up, push_skipped};
use std::alloc::{AllocError, Global};
use trace_progress::PlayFault;
use trace_words::{ScriptAct, TraceFault};

/// What an act does, where there is an MME; else that is the fault of the line of that number.
pub(crate) fn play_act_line(
    alloc: Global,
    script: &mut Script,
    number: u64,
    act: ScriptAct,
    out: &mut Vec<u8>,
) -> Result<(), PlayFault>
    ensures printed { PrintsScriptLine number [] script.old.progress out.old.items result script.new.progress out.new.items }
    ensures plays { OnOk result (PlaysAct act (scene_of script.old out.old.items) (scene_of script.new out.new.items)) }
    ensures fault { AnswersFault (result_err (running script.old.progress)) result }
    ensures acted { OnOk result (script.new.acted ≡ true) }
    ensures err { IfErr result (λ fault. fault ≢ PlayFault.NoMemory → script.new ≡ script.old) }
{
    if !is_begun(&script.progress) {
        return Err(PlayFault::Trace(number, TraceFault::Order));
    }
    let before = out.len();
    let Ok(()) = play_act(alloc, script, act, out) else {
        out.truncate(before);
        return Err(PlayFault::NoMemory);
    };
    script.acted = true;
    Ok(())
}

/// What an act does.
pub(crate) fn play_act(
    alloc: Global,
    script: &mut Script,
    act: ScriptAct,
    out: &mut Vec<u8>,
) -> Result<(), AllocError>
    requires { IsBegun script.old.progress }
    ensures printed { OnOk result (PrintsOn script.old.progress out.old.items script.new.progress out.new.items []) }
    ensures plays { OnOk result (PlaysAct act (scene_of script.old out.old.items) (scene_of script.new out.new.items)) }
    ensures goes { GoesFurther script.old.progress out.old.items script.new.progress out.new.items }
{
    match act {
        ScriptAct::Station(line) => {
            let acted = script.crowd.add_station(line)?;
            play_acted(alloc, script, acted, out)
        }
        ScriptAct::Up(station) => play_connection(alloc, script, station, out),
        ScriptAct::Raw(station, octets) => {
            play_message(alloc, script, station, octets.as_slice(), out)
        }
        ScriptAct::Radio(word, imsi, place) => {
            let acted = script.crowd.act_there(word, imsi, place)?;
            play_acted(alloc, script, acted, out)
        }
        ScriptAct::Phone(word, imsi) => {
            let acted = script.crowd.act(word, imsi)?;
            play_acted(alloc, script, acted, out)
        }
    }
}

/// What comes of an act: its message is played, and an act that can't be done is told.
fn play_acted(
    alloc: Global,
    script: &mut Script,
    acted: Acted,
    out: &mut Vec<u8>,
) -> Result<(), AllocError>
    requires { IsBegun script.old.progress }
    ensures printed { OnOk result (PrintsOn script.old.progress out.old.items script.new.progress out.new.items []) }
    ensures plays { OnOk result (PlaysActed acted (scene_of script.old out.old.items) (scene_of script.new out.new.items)) }
    ensures goes { GoesFurther script.old.progress out.old.items script.new.progress out.new.items }
{
    match acted {
        Acted::Skipped => {
            push_skipped(out)?;
            Ok(())
        }
        Acted::Silent => Ok(()),
        Acted::Sends(uplink) => {
            let octets = uplink.octets.as_slice();
            play_message(alloc, script, uplink.station, octets, out)
        }
    }
}

/// A station connects, and is set up, also where its connection is refused.
fn play_connection(
    alloc: Global,
    script: &mut Script,
    station: StationNumber,
    out: &mut Vec<u8>,
) -> Result<(), AllocError>
    requires { IsBegun script.old.progress }
    ensures printed { OnOk result (PrintsOn script.old.progress out.old.items script.new.progress out.new.items []) }
    ensures plays { OnOk result (PlaysUp station (scene_of script.old out.old.items) (scene_of script.new out.new.items)) }
    ensures goes { GoesFurther script.old.progress out.old.items script.new.progress out.new.items }
{
    if !script.crowd.has_station(station) {
        return play_acted(alloc, script, Acted::Skipped, out);
    }
    let mut queue = Vec::new(alloc);
    let sent = play_up(alloc, &mut script.progress, station, out)?;
    deliver(&mut script.crowd, sent, &mut queue)?;
    let answered = play_set_up(alloc, script, station, out)?;
    deliver(&mut script.crowd, answered, &mut queue)?;
    play_queue(alloc, script, queue, out)
}

/// A station asks to be set up: what is sent at that.
fn play_set_up(
    alloc: Global,
    script: &mut Script,
    station: StationNumber,
    out: &mut Vec<u8>,
) -> Result<Option<Outs>, AllocError>
    requires { IsBegun script.old.progress }
    ensures printed { OnOk result (PrintsOn script.old.progress out.old.items script.new.progress out.new.items []) }
    ensures sends { IfOk result (λ sent.
        sending_as sent (scene_of script.new out.new.items) ≡ set_up_sending station (scene_of script.old out.old.items)) }
    ensures goes { GoesFurther script.old.progress out.old.items script.new.progress out.new.items }
{
    match script.crowd.set_up(station)? {
        Acted::Sends(uplink) => {
            let octets = uplink.octets.as_slice();
            let sent = play_in(alloc, &mut script.progress, uplink.station, octets, out)?;
            Ok(sent)
        }
        Acted::Skipped | Acted::Silent => Ok(None),
    }
}
