//! The lines that a script shares with a trace.

ghost use Rattle.std.specs.Prelude.{◌≡◌, ◌≢◌, ◌||◌, [], true, OnOk, IfErr};
ghost use Rattle.trace_words.specs.Kept.{kept_line};
ghost use Rattle.trace_words.specs.declared.line.Line.TheVariants.{Mme, Sub, Vec, Data, Cancel, Show};
ghost use Rattle.sim_printing.specs.Printed.{IsBegun, PrintsOn, PrintsScriptLine, ReadsAs};
ghost use Rattle.sim_lines.specs.Events.{IsEventLine};
ghost use Rattle.sim_lines.specs.Faults.{AnswersFault, fault_of_line, is_for_mme};
ghost use Rattle.sim_lines.specs.Further.{GoesFurther};
ghost use Rattle.sim_lines.specs.Plays.{PlaysLine, PlaysLoss, PlaysTicks};
ghost use Rattle.sim_lines.specs.Turns.{scene_of};

use crate::acts::play_act;
use crate::script::Script;
use crate::turns::play_answers;
use identity_slots::{Profile, StationNumber, Vector};
use mme_types::Network;
use nas_elements::Imsi;
use sim_printing::{
    is_begun, play_cancel, play_data, play_lost, play_mme, play_show, play_sub, play_tick, play_vec,
};
use std::alloc::{AllocError, Global};
use trace_progress::PlayFault;
use trace_words::{Line, ScriptAct, TraceFault};

/// What a line does that is read as in a trace; `text` is the line of that number, as it was read.
pub(crate) fn play_trace_line(
    alloc: Global,
    script: &mut Script,
    number: u64,
    line: Line,
    text: &[u8],
    out: &mut Vec<u8>,
) -> Result<(), PlayFault>
    requires { ReadsAs line text.now }
    ensures printed { PrintsScriptLine number
        (kept_line line) script.old.progress out.old.items result script.new.progress out.new.items }
    ensures plays { OnOk result (PlaysLine line text.now (scene_of script.old out.old.items) (scene_of script.new out.new.items)) }
    ensures fault { AnswersFault (fault_of_line script.old.acted script.old.progress line) result }
    ensures acted { OnOk result (script.new.acted ≡ (is_for_mme line || script.old.acted)) }
    ensures err { IfErr result (λ fault. fault ≢ PlayFault.NoMemory → script.new ≡ script.old) }
{
    match line {
        Line::Skip => Ok(()),
        Line::Mme(network) => provide_network(alloc, script, number, network, text, out),
        Line::Sub(profile) => provide_phone(script, number, profile, text, out),
        Line::Vec(imsi, vector) => provide_vector(script, number, imsi, vector, text, out),
        Line::Show(imsi) => answer_question(alloc, script, number, imsi, text, out),
        Line::Up(_)
        | Line::Lost(_)
        | Line::In(_, _)
        | Line::Tick(_)
        | Line::Data(_)
        | Line::Cancel(_) => play_event_line(alloc, script, number, line, text, out),
    }
}

// ---- provisioning

fn provide_network(
    alloc: Global,
    script: &mut Script,
    number: u64,
    network: Network,
    text: &[u8],
    out: &mut Vec<u8>,
) -> Result<(), PlayFault>
    requires { ReadsAs (Mme network) text.now }
    ensures printed { PrintsScriptLine number
        (kept_line (Mme network)) script.old.progress out.old.items result script.new.progress out.new.items }
    ensures plays { OnOk result
        (PlaysLine (Mme network) text.now (scene_of script.old out.old.items) (scene_of script.new out.new.items)) }
    ensures fault { AnswersFault (fault_of_line script.old.acted script.old.progress (Mme network)) result }
    ensures acted { OnOk result (script.new.acted ≡ script.old.acted) }
    ensures err { IfErr result (λ fault. fault ≢ PlayFault.NoMemory → script.new ≡ script.old) }
{
    if script.acted {
        return Err(PlayFault::Trace(number, TraceFault::Order));
    }
    let plmn = network.plmn.get();
    match play_mme(alloc, &mut script.progress, number, network, text, out) {
        Ok(()) => {}
        Err(fault) => return Err(fault),
    }
    script.crowd.set_network(plmn);
    Ok(())
}

fn provide_phone(
    script: &mut Script,
    number: u64,
    profile: Profile,
    text: &[u8],
    out: &mut Vec<u8>,
) -> Result<(), PlayFault>
    requires { ReadsAs (Sub profile) text.now }
    ensures printed { PrintsScriptLine number
        (kept_line (Sub profile)) script.old.progress out.old.items result script.new.progress out.new.items }
    ensures plays { OnOk result
        (PlaysLine (Sub profile) text.now (scene_of script.old out.old.items) (scene_of script.new out.new.items)) }
    ensures fault { AnswersFault (fault_of_line script.old.acted script.old.progress (Sub profile)) result }
    ensures acted { OnOk result (script.new.acted ≡ script.old.acted) }
    ensures err { IfErr result (λ fault. fault ≢ PlayFault.NoMemory → script.new ≡ script.old) }
{
    if script.acted {
        return Err(PlayFault::Trace(number, TraceFault::Order));
    }
    let imsi = profile.imsi;
    let before = out.len();
    match play_sub(&mut script.progress, number, profile, text, out) {
        Ok(()) => {}
        Err(fault) => return Err(fault),
    }
    match script.crowd.add_phone(imsi) {
        Ok(()) => Ok(()),
        Err(_) => {
            out.truncate(before);
            Err(PlayFault::NoMemory)
        }
    }
}

fn provide_vector(
    script: &mut Script,
    number: u64,
    imsi: Imsi,
    vector: Vector,
    text: &[u8],
    out: &mut Vec<u8>,
) -> Result<(), PlayFault>
    requires { ReadsAs (Vec imsi vector) text.now }
    ensures printed { PrintsScriptLine number
        (kept_line (Vec imsi vector)) script.old.progress out.old.items result script.new.progress out.new.items }
    ensures plays { OnOk result
        (PlaysLine (Vec imsi vector) text.now (scene_of script.old out.old.items) (scene_of script.new out.new.items)) }
    ensures fault { AnswersFault (fault_of_line script.old.acted script.old.progress (Vec imsi vector)) result }
    ensures acted { OnOk result (script.new.acted ≡ script.old.acted) }
    ensures err { IfErr result (λ fault. fault ≢ PlayFault.NoMemory → script.new ≡ script.old) }
{
    if script.acted {
        return Err(PlayFault::Trace(number, TraceFault::Order));
    }
    let Ok(of_phone) = vector.clone() else {
        return Err(PlayFault::NoMemory);
    };
    let before = out.len();
    match play_vec(&mut script.progress, number, imsi, vector, text, out) {
        Ok(()) => {}
        Err(fault) => return Err(fault),
    }
    match script.crowd.give_vector(imsi, of_phone) {
        Ok(()) => Ok(()),
        Err(_) => {
            out.truncate(before);
            Err(PlayFault::NoMemory)
        }
    }
}

// ---- questions

fn answer_question(
    alloc: Global,
    script: &mut Script,
    number: u64,
    imsi: Imsi,
    text: &[u8],
    out: &mut Vec<u8>,
) -> Result<(), PlayFault>
    requires { ReadsAs (Show imsi) text.now }
    ensures printed { PrintsScriptLine number
        (kept_line (Show imsi)) script.old.progress out.old.items result script.new.progress out.new.items }
    ensures plays { OnOk result
        (PlaysLine (Show imsi) text.now (scene_of script.old out.old.items) (scene_of script.new out.new.items)) }
    ensures fault { AnswersFault (fault_of_line script.old.acted script.old.progress (Show imsi)) result }
    ensures acted { OnOk result (script.new.acted ≡ true) }
    ensures err { IfErr result (λ fault. fault ≢ PlayFault.NoMemory → script.new ≡ script.old) }
{
    if !is_begun(&script.progress) {
        return Err(PlayFault::Trace(number, TraceFault::Order));
    }
    match play_show(alloc, &mut script.progress, imsi, text, out) {
        Ok(true) => {}
        Ok(false) => return Err(PlayFault::Trace(number, TraceFault::Provision)),
        Err(_) => return Err(PlayFault::NoMemory),
    }
    script.acted = true;
    Ok(())
}

// ---- events

fn play_event_line(
    alloc: Global,
    script: &mut Script,
    number: u64,
    line: Line,
    text: &[u8],
    out: &mut Vec<u8>,
) -> Result<(), PlayFault>
    requires event { IsEventLine line }
    requires says { ReadsAs line text.now }
    ensures printed { PrintsScriptLine number
        (kept_line line) script.old.progress out.old.items result script.new.progress out.new.items }
    ensures plays { OnOk result (PlaysLine line text.now (scene_of script.old out.old.items) (scene_of script.new out.new.items)) }
    ensures fault { AnswersFault (fault_of_line script.old.acted script.old.progress line) result }
    ensures acted { OnOk result (script.new.acted ≡ (is_for_mme line || script.old.acted)) }
    ensures err { IfErr result (λ fault. fault ≢ PlayFault.NoMemory → script.new ≡ script.old) }
{
    if !is_begun(&script.progress) {
        return Err(PlayFault::Trace(number, TraceFault::Order));
    }
    let before = out.len();
    let Ok(()) = play_event(alloc, script, line, text, out) else {
        out.truncate(before);
        return Err(PlayFault::NoMemory);
    };
    script.acted = true;
    Ok(())
}

/// What comes from outside, and what stations and phones send at that.
fn play_event(
    alloc: Global,
    script: &mut Script,
    line: Line,
    text: &[u8],
    out: &mut Vec<u8>,
) -> Result<(), AllocError>
    requires begun { IsBegun script.old.progress }
    requires event { IsEventLine line }
    requires says { ReadsAs line text.now }
    ensures printed { OnOk result (PrintsOn script.old.progress out.old.items script.new.progress out.new.items (kept_line line)) }
    ensures plays { OnOk result (PlaysLine line text.now (scene_of script.old out.old.items) (scene_of script.new out.new.items)) }
    ensures goes { GoesFurther script.old.progress out.old.items script.new.progress out.new.items }
{
    match line {
        Line::Up(station) => play_act(alloc, script, ScriptAct::Up(station), out),
        Line::Lost(station) => play_loss(alloc, script, station, out),
        Line::In(station, octets) => {
            play_act(alloc, script, ScriptAct::Raw(station, octets), out)
        }
        Line::Tick(ticks) => play_ticks(alloc, script, ticks.get(), out),
        Line::Data(imsi) => play_waiting(alloc, script, imsi, text, out),
        Line::Cancel(imsi) => play_withdrawal(alloc, script, imsi, text, out),
        Line::Skip | Line::Mme(_) | Line::Sub(_) | Line::Vec(_, _) | Line::Show(_) => {
            unreachable!()
        }
    }
}

/// A station's connection is lost.
fn play_loss(
    alloc: Global,
    script: &mut Script,
    station: StationNumber,
    out: &mut Vec<u8>,
) -> Result<(), AllocError>
    requires { IsBegun script.old.progress }
    ensures printed { OnOk result (PrintsOn script.old.progress out.old.items script.new.progress out.new.items []) }
    ensures plays { OnOk result (PlaysLoss station (scene_of script.old out.old.items) (scene_of script.new out.new.items)) }
    ensures goes { GoesFurther script.old.progress out.old.items script.new.progress out.new.items }
{
    let sent = play_lost(alloc, &mut script.progress, station, out)?;
    script.crowd.lose(station);
    play_answers(alloc, script, sent, out)
}

/// Seconds pass, one after another, up to the first that is refused.
fn play_ticks(
    alloc: Global,
    script: &mut Script,
    count: u32,
    out: &mut Vec<u8>,
) -> Result<(), AllocError>
    requires { IsBegun script.old.progress }
    ensures printed { OnOk result (PrintsOn script.old.progress out.old.items script.new.progress out.new.items []) }
    ensures plays { OnOk result (PlaysTicks count (scene_of script.old out.old.items) (scene_of script.new out.new.items)) }
    ensures goes { GoesFurther script.old.progress out.old.items script.new.progress out.new.items }
{
    for _tick in 0..count {
        let sent = play_tick(alloc, &mut script.progress, out)?;
        if sent.is_none() {
            return Ok(());
        }
        play_answers(alloc, script, sent, out)?;
    }
    Ok(())
}

/// Data waits for a subscriber.
fn play_waiting(
    alloc: Global,
    script: &mut Script,
    imsi: Imsi,
    text: &[u8],
    out: &mut Vec<u8>,
) -> Result<(), AllocError>
    requires begun { IsBegun script.old.progress }
    requires says { ReadsAs (Data imsi) text.now }
    ensures printed { OnOk result
        (PrintsOn script.old.progress out.old.items script.new.progress out.new.items (kept_line (Data imsi))) }
    ensures plays { OnOk result
        (PlaysLine (Data imsi) text.now (scene_of script.old out.old.items) (scene_of script.new out.new.items)) }
    ensures goes { GoesFurther script.old.progress out.old.items script.new.progress out.new.items }
{
    let sent = play_data(alloc, &mut script.progress, imsi, text, out)?;
    play_answers(alloc, script, sent, out)
}

/// A subscription is withdrawn.
fn play_withdrawal(
    alloc: Global,
    script: &mut Script,
    imsi: Imsi,
    text: &[u8],
    out: &mut Vec<u8>,
) -> Result<(), AllocError>
    requires begun { IsBegun script.old.progress }
    requires says { ReadsAs (Cancel imsi) text.now }
    ensures printed { OnOk result
        (PrintsOn script.old.progress out.old.items script.new.progress out.new.items (kept_line (Cancel imsi))) }
    ensures plays { OnOk result
        (PlaysLine (Cancel imsi) text.now (scene_of script.old out.old.items) (scene_of script.new out.new.items)) }
    ensures goes { GoesFurther script.old.progress out.old.items script.new.progress out.new.items }
{
    let sent = play_cancel(alloc, &mut script.progress, imsi, text, out)?;
    play_answers(alloc, script, sent, out)
}
