//! The answers of one event, written as they come.

ghost use Rattle.std.specs.Prelude.{◌≡◌, ℕ, List, length, take, false, IfOk, IsTrue};
ghost use Rattle.std.specs.Io.KnownBytes.{Appends};
ghost use Rattle.trace_answers.specs.Words.{answer_text, answers_of, out_text, refused_text, states_text};
ghost use Rattle.trace_progress.specs.Acts.{GrowsBy, Puts};
ghost use Rattle.trace_run.specs.Watching.{failed_after_octets, failed_after_play};

use crate::watched::Watched;
use emm_machine::States;
use mme_core::{Out, Outs};
use nas_elements::Imsi;
use std::alloc::Global;
use std::io::Write;
use std::mem;
use trace_answers::{Answer, sent_line, write_answer_in};
use trace_progress::PlayFault;

/// Writes these octets; at `false` the writer failed, and has the first of them.
pub fn write_whole<W: Write>(writer: &mut Watched<W>, octets: &[u8]) -> bool
    ensures some { (n : ℕ) × Appends (W.contents writer.old.inner) (W.contents writer.new.inner) (take n octets.now) }
    ensures all { IsTrue result → Appends (W.contents writer.old.inner) (W.contents writer.new.inner) octets.now }
    ensures write_failed { writer.new.failed ≡ failed_after_octets writer.old.failed result }
{
    let mut at = 0;
    for _turn in 0..octets.len() {
        if at == octets.len() {
            return true;
        }
        match writer.write(&octets[at..]) {
            Ok(0) => return false,
            Ok(n) => at += n,
            Err(_) => return false,
        }
    }
    true
}

/// Writes the line of one answer. It is made in the room of the last line, used again.
fn write_one<W: Write>(
    alloc: Global,
    answer: &Answer<'_>,
    room: &mut Vec<u8>,
    writer: &mut Watched<W>,
) -> Result<(), PlayFault>
    ensures put { GrowsBy (W.contents writer.old.inner) (W.contents writer.new.inner) (Puts (answer_text answer.now) result) }
    ensures write_failed { writer.new.failed ≡ failed_after_play writer.old.failed result }
{
    let Ok(line) = write_answer_in(mem::replace(room, Vec::new(alloc)), answer) else {
        return Err(PlayFault::NoMemory);
    };
    *room = line;
    if !write_whole(writer, room.as_slice()) {
        return Err(PlayFault::Write);
    }
    Ok(())
}

/// Writes the lines of the answers of an event, of which nothing is kept then: some carry a key.
pub(crate) fn write_sent<W: Write>(
    alloc: Global,
    outs: Outs,
    room: &mut Vec<u8>,
    writer: &mut Watched<W>,
) -> Result<(), PlayFault>
    ensures put { GrowsBy (W.contents writer.old.inner) (W.contents writer.new.inner) (Puts (answers_of outs) result) }
    ensures write_failed { writer.new.failed ≡ failed_after_play writer.old.failed result }
{
    let written = write_all(alloc, outs.as_slice(), room, writer);
    outs.forget();
    written
}

/// Writes the lines of the answers of an event, each in the room of the last line, used again.
fn write_all<W: Write>(
    alloc: Global,
    outs: &[Out],
    room: &mut Vec<u8>,
    writer: &mut Watched<W>,
) -> Result<(), PlayFault>
    ensures put { GrowsBy (W.contents writer.old.inner) (W.contents writer.new.inner) (Puts (answers_of outs.now) result) }
    ensures write_failed { writer.new.failed ≡ failed_after_play writer.old.failed result }
{
    for out in outs {
        match write_out(alloc, out, room, writer) {
            Ok(()) => {}
            Err(fault) => return Err(fault),
        }
    }
    Ok(())
}

fn write_out<W: Write>(
    alloc: Global,
    out: &Out,
    room: &mut Vec<u8>,
    writer: &mut Watched<W>,
) -> Result<(), PlayFault>
    ensures put { GrowsBy (W.contents writer.old.inner) (W.contents writer.new.inner) (Puts (out_text out.now) result) }
    ensures write_failed { writer.new.failed ≡ failed_after_play writer.old.failed result }
{
    write_one(alloc, &sent_line(out), room, writer)
}

/// Writes the line of a refusal, in the room of the last line, used again; `false`, since the event was not taken.
pub(crate) fn write_refusal<W: Write>(
    alloc: Global,
    number: u8,
    room: &mut Vec<u8>,
    writer: &mut Watched<W>,
) -> Result<bool, PlayFault>
    ensures put { GrowsBy (W.contents writer.old.inner) (W.contents writer.new.inner) (Puts (refused_text number) result) }
    ensures taken { IfOk result (λ taken. taken ≡ false) }
    ensures write_failed { writer.new.failed ≡ failed_after_play writer.old.failed result }
{
    match write_one(alloc, &Answer::Refused(number), room, writer) {
        Ok(()) => Ok(false),
        Err(fault) => Err(fault),
    }
}

/// Writes the line of a subscriber's states, in the room of the last line, used again.
pub(crate) fn write_states<W: Write>(
    alloc: Global,
    imsi: Imsi,
    states: States,
    room: &mut Vec<u8>,
    writer: &mut Watched<W>,
) -> Result<(), PlayFault>
    ensures put { GrowsBy (W.contents writer.old.inner) (W.contents writer.new.inner) (Puts (states_text imsi states) result) }
    ensures write_failed { writer.new.failed ≡ failed_after_play writer.old.failed result }
{
    write_one(alloc, &Answer::State(imsi, states), room, writer)
}
