//! What each line of a trace does.

ghost use Rattle.std.specs.Prelude.{◌≡◌, [], ◌∷◌, replicate, is_ok, IfErr, IfOk, OnOk};
ghost use Rattle.mme_core.specs.World.{reply};
ghost use Rattle.trace_progress.specs.Effects.{effect_of, happened, left_by, ticks_passed, shown, states_of_imsi, ticked, states_shown};
ghost use Rattle.trace_progress.specs.Replies.{reply_text};
ghost use Rattle.trace_progress.specs.Acts.{Acts, GrowsBy, Puts};
ghost use Rattle.trace_progress.specs.Stopping.{HasTaken};
ghost use Rattle.trace_progress.specs.declared.progress.Progress.TheVariants.{Running};
ghost use Rattle.trace_run.specs.Leaving.{LeftAtFault, LeftByLine, is_missing};
ghost use Rattle.trace_run.specs.Watching.{failed_after_play};

use crate::answers::{write_refusal, write_sent, write_states};
use crate::watched::Watched;
use emm_machine::States;
use mme_core::{Event, Mme, StepFault};
use nas_elements::Imsi;
use std::alloc::Global;
use std::io::Write;
use trace_progress::{PlayFault, Progress, add, give, run, start, states_of_imsi};
use trace_words::{Line, TraceFault};

/// Does what a line says, and writes its answers. If a write or memory is refused, the MME has taken the line's
/// events up to some place, perhaps none or all, or is unmade (`IsUnmade`).
///
/// Order or Provision where what came before doesn't allow the line, and then nothing is written; Write where the writer failed and
/// NoMemory where a growth of memory was refused, and then a front of its answers is. Takes memory for what is provisioned, for the
/// MME, which the first event or question makes, for what an event sends, and for an answer that `room` is too small for: the room
/// of the last line, used again. A line's own fault leaves the progress as it was.
#[tactic(auto, unfolding(trace_progress::specs::Effects::effect_of))]
pub(crate) fn act_on_line<W: Write>(
    alloc: Global,
    progress: &mut Progress,
    number: u64,
    line: Line,
    room: &mut Vec<u8>,
    writer: &mut Watched<W>,
) -> Result<(), PlayFault>
    ensures acts { GrowsBy (W.contents writer.old.inner) (W.contents writer.new.inner)
        (Acts number (effect_of progress.old line) result progress.new) }
    ensures left { IfErr result (λ fault. LeftByLine progress.old line fault progress.new) }
    ensures write_failed { writer.new.failed ≡ failed_after_play writer.old.failed result }
{
    match line {
        Line::Skip => Ok(()),
        Line::Mme(network) => start(alloc, progress, number, network),
        Line::Sub(profile) => add(progress, number, profile),
        Line::Vec(imsi, vector) => give(progress, number, imsi, vector),
        Line::Up(station) => {
            let event = Event::Up(station);
            play_event(alloc, progress, number, &event, room, writer)
        }
        Line::Lost(station) => {
            let event = Event::Lost(station);
            play_event(alloc, progress, number, &event, room, writer)
        }
        Line::In(station, octets) => {
            let event = Event::In(station, octets.as_slice());
            play_event(alloc, progress, number, &event, room, writer)
        }
        Line::Tick(ticks) => play_ticks(alloc, progress, number, ticks.get(), room, writer),
        Line::Data(imsi) => play_event(alloc, progress, number, &Event::Data(imsi), room, writer),
        Line::Cancel(imsi) => play_event(
            alloc,
            progress,
            number,
            &Event::Cancel(imsi),
            room,
            writer,
        ),
        Line::Show(imsi) => show(alloc, progress, number, imsi, room, writer),
    }
}

/// Plays one event and writes its answers.
fn play_event<W: Write>(
    alloc: Global,
    progress: &mut Progress,
    number: u64,
    event: &Event<'_>,
    room: &mut Vec<u8>,
    writer: &mut Watched<W>,
) -> Result<(), PlayFault>
    ensures acts { GrowsBy (W.contents writer.old.inner) (W.contents writer.new.inner)
        (Acts number (happened progress.old event.now) result progress.new) }
    ensures left { IfErr result (λ fault. LeftAtFault (Some (event.now ∷ [])) progress.old fault progress.new) }
    ensures write_failed { writer.new.failed ≡ failed_after_play writer.old.failed result }
{
    match run(alloc, progress, number) {
        Ok(()) => {}
        Err(fault) => return Err(fault),
    }
    let Progress::Running(mme) = progress else {
        return Err(PlayFault::Trace(number, TraceFault::Order));
    };
    match step_event(alloc, mme, event, room, writer) {
        Ok(_) => Ok(()),
        Err(fault) => Err(fault),
    }
}

/// Plays `count` ticks and writes their answers.
fn play_ticks<W: Write>(
    alloc: Global,
    progress: &mut Progress,
    number: u64,
    count: u32,
    room: &mut Vec<u8>,
    writer: &mut Watched<W>,
) -> Result<(), PlayFault>
    ensures acts { GrowsBy (W.contents writer.old.inner) (W.contents writer.new.inner)
        (Acts number (ticks_passed progress.old count) result progress.new) }
    ensures left { IfErr result (λ fault. LeftAtFault (Some (replicate count Event.Tick)) progress.old fault progress.new) }
    ensures write_failed { writer.new.failed ≡ failed_after_play writer.old.failed result }
{
    match run(alloc, progress, number) {
        Ok(()) => {}
        Err(fault) => return Err(fault),
    }
    let Progress::Running(mme) = progress else {
        return Err(PlayFault::Trace(number, TraceFault::Order));
    };
    step_ticks(alloc, mme, count, room, writer)
}

/// Writes the states of the subscriber of that IMSI. Where nobody has it, no MME is made for the question.
fn show<W: Write>(
    alloc: Global,
    progress: &mut Progress,
    number: u64,
    imsi: Imsi,
    room: &mut Vec<u8>,
    writer: &mut Watched<W>,
) -> Result<(), PlayFault>
    ensures acts { GrowsBy (W.contents writer.old.inner) (W.contents writer.new.inner)
        (Acts number (shown progress.old imsi) result progress.new) }
    ensures left { IfErr result (λ fault. LeftAtFault (Some []) progress.old fault progress.new) }
    ensures write_failed { writer.new.failed ≡ failed_after_play writer.old.failed result }
{
    if is_missing(progress, imsi) {
        return Err(PlayFault::Trace(number, TraceFault::Provision));
    }
    match run(alloc, progress, number) {
        Ok(()) => {}
        Err(fault) => return Err(fault),
    }
    let Progress::Running(mme) = progress else {
        return Err(PlayFault::Trace(number, TraceFault::Order));
    };
    show_states(alloc, mme, number, imsi, room, writer)
}

/// One event: whether it was taken.
fn step_event<W: Write>(
    alloc: Global,
    mme: &mut Mme,
    event: &Event<'_>,
    room: &mut Vec<u8>,
    writer: &mut Watched<W>,
) -> Result<bool, PlayFault>
    ensures put { GrowsBy (W.contents writer.old.inner) (W.contents writer.new.inner)
        (Puts (reply_text (reply mme.old event.now)) result) }
    ensures after { OnOk result (mme.new ≡ left_by mme.old event.now (reply mme.old event.now)) }
    ensures left { HasTaken (event.now ∷ []) mme.old mme.new }
    ensures taken { IfOk result (λ taken. taken ≡ is_ok (reply mme.old event.now)) }
    ensures write_failed { writer.new.failed ≡ failed_after_play writer.old.failed result }
{
    match mme.step(event) {
        Ok(outs) => match write_sent(alloc, outs, room, writer) {
            Ok(()) => Ok(true),
            Err(fault) => Err(fault),
        },
        Err(StepFault::NoMemory) => Err(PlayFault::NoMemory),
        Err(StepFault::NotUp) => write_refusal(alloc, 1, room, writer),
        Err(StepFault::AlreadyUp) => write_refusal(alloc, 2, room, writer),
        Err(StepFault::ClockSpent) => write_refusal(alloc, 3, room, writer),
        Err(StepFault::UnknownImsi) => write_refusal(alloc, 5, room, writer),
    }
}

/// Ticks, one after another, up to the first that is refused.
fn step_ticks<W: Write>(
    alloc: Global,
    mme: &mut Mme,
    count: u32,
    room: &mut Vec<u8>,
    writer: &mut Watched<W>,
) -> Result<(), PlayFault>
    ensures put { GrowsBy (W.contents writer.old.inner) (W.contents writer.new.inner) (Puts (ticked count mme.old).1 result) }
    ensures after { OnOk result (mme.new ≡ (ticked count mme.old).0) }
    ensures left { HasTaken (replicate count Event.Tick) mme.old mme.new }
    ensures write_failed { writer.new.failed ≡ failed_after_play writer.old.failed result }
{
    for _tick in 0..count {
        match step_event(alloc, mme, &Event::Tick, room, writer) {
            Ok(true) => {}
            Ok(false) => return Ok(()),
            Err(fault) => return Err(fault),
        }
    }
    Ok(())
}

/// Whether an MME is still to be made, and nobody with that IMSI is provisioned for it.
fn is_missing(progress: &Progress, imsi: Imsi) -> bool
    ensures { result ≡ is_missing progress.now imsi }
{
    match progress {
        Progress::Provisioning(_, provision) => provision.slot_of_imsi(imsi).is_none(),
        Progress::Nothing | Progress::Running(_) => false,
    }
}

fn show_states<W: Write>(
    alloc: Global,
    mme: &Mme,
    number: u64,
    imsi: Imsi,
    room: &mut Vec<u8>,
    writer: &mut Watched<W>,
) -> Result<(), PlayFault>
    ensures acts { GrowsBy (W.contents writer.old.inner) (W.contents writer.new.inner)
        (Acts number (states_shown imsi mme.now (states_of_imsi imsi mme.now)) result (Running mme.now)) }
    ensures write_failed { writer.new.failed ≡ failed_after_play writer.old.failed result }
{
    match states_of_imsi(mme, imsi) {
        Some(states) => write_states(alloc, imsi, states, room, writer),
        None => Err(PlayFault::Trace(number, TraceFault::Provision)),
    }
}
