//! What is written of an event: its answers, as `mme play` prints them.

ghost use Rattle.std.specs.Prelude.{◌≡◌, ◌++◌, ◌∷◌, [], false, is_ok, length, IfErr, IfOk, OnErr, OnOk, Ok};
ghost use Rattle.mme_core.specs.World.{reply};
ghost use Rattle.trace_answers.specs.Words.{answer_text, answers_of, out_text, refused_text};
ghost use Rattle.trace_progress.specs.Effects.{event_played, left_by, ticked};
ghost use Rattle.trace_progress.specs.Replies.{reply_text};
ghost use Rattle.c_session.specs.Texts.{Adds, IsFor, IsShort, WorldSays, once, stopped};

use crate::refusal::Refusal;
use crate::replies::Replies;
use mme_core::{Event, Mme, Out, Outs, StepFault};
use std::alloc::Global;
use trace_answers::{Answer, sent_line, write_answer};

/// Why an event isn't answered: there was no memory, or no room for its answers. Where it was taken, these are the replies.
#[derive(Clone, Copy)]
pub(crate) struct Short {
    pub(crate) unsaid: bool,
    pub(crate) refusal: Refusal,
}

/// Where a line isn't played to its end: how many of its events were taken and answered, whether one more was taken that isn't
/// answered, and why.
#[derive(Clone, Copy)]
pub(crate) struct LineStop {
    pub(crate) taken: u32,
    pub(crate) unsaid: bool,
    pub(crate) refusal: Refusal,
}

/// Where a line stops at such an event, after so many that were taken and answered.
pub(crate) fn stopped(short: Short, taken: u32) -> LineStop
    ensures { result ≡ stopped short taken }
{
    LineStop {
        taken,
        unsaid: short.unsaid,
        refusal: short.refusal,
    }
}

/// Adds octets to the answers; NoRoom where they have more than there is room for, then NoMemory.
fn push_within(octets: &[u8], room: usize, answers: &mut Vec<u8>) -> Result<(), Refusal>
    ensures said { OnOk result (Adds room answers.old.items octets.now answers.new.items) }
    ensures unsaid { OnErr result (answers.new.items ≡ answers.old.items) }
    ensures why { IfErr result (λ refusal. IsFor refusal room answers.old.items octets.now) }
{
    if answers.len() > room {
        return Err(Refusal::NoRoom);
    }
    if octets.len() > room - answers.len() {
        return Err(Refusal::NoRoom);
    }
    match answers.extend_from_slice(octets) {
        Ok(()) => Ok(()),
        Err(_) => Err(Refusal::NoMemory),
    }
}

/// Adds the line of one answer; refused as in `push_within`.
pub(crate) fn push_answer(
    alloc: Global,
    answer: &Answer<'_>,
    room: usize,
    answers: &mut Vec<u8>,
) -> Result<(), Refusal>
    ensures said { OnOk result (Adds room answers.old.items (answer_text answer.now) answers.new.items) }
    ensures unsaid { OnErr result (answers.new.items ≡ answers.old.items) }
    ensures why { IfErr result (λ refusal. IsFor refusal room answers.old.items (answer_text answer.now)) }
{
    let Ok(line) = write_answer(alloc, answer) else {
        return Err(Refusal::NoMemory);
    };
    let mut line = line;
    let told = push_within(line.as_slice(), room, answers);
    // (it may carry a key)
    line.as_mut_slice().fill(0);
    told
}

fn push_out(alloc: Global, out: &Out, room: usize, answers: &mut Vec<u8>) -> Result<(), Refusal>
    ensures said { OnOk result (Adds room answers.old.items (out_text out.now) answers.new.items) }
    ensures unsaid { OnErr result (answers.new.items ≡ answers.old.items) }
    ensures why { IfErr result (λ refusal. IsFor refusal room answers.old.items (out_text out.now)) }
{
    push_answer(alloc, &sent_line(out), room, answers)
}

/// Adds the lines of the messages of an event, all or none; refused as in `push_within`.
fn push_outs(alloc: Global, outs: &[Out], room: usize, answers: &mut Vec<u8>) -> Result<(), Refusal>
    ensures said { OnOk result (Adds room answers.old.items (answers_of outs.now) answers.new.items) }
    ensures unsaid { OnErr result (answers.new.items ≡ answers.old.items) }
    ensures why { IfErr result (λ refusal. IsFor refusal room answers.old.items (answers_of outs.now)) }
{
    let before = answers.len();
    for out in outs {
        match push_out(alloc, out, room, answers) {
            Ok(()) => {}
            Err(refusal) => {
                answers.truncate(before);
                return Err(refusal);
            }
        }
    }
    Ok(())
}

/// Adds the line of a refusal; `false`, since the event was not taken. Refused as in `push_within`.
fn push_refused(
    alloc: Global,
    number: u8,
    room: usize,
    answers: &mut Vec<u8>,
) -> Result<bool, Short>
    ensures said { OnOk result (Adds room answers.old.items (refused_text number) answers.new.items) }
    ensures taken { IfOk result (λ taken. taken ≡ false) }
    ensures same { OnErr result (answers.new.items ≡ answers.old.items) }
    ensures why { IfErr result (λ short. IsFor short.refusal room answers.old.items (refused_text number)) }
    ensures unsaid { IfErr result (λ short. short.unsaid ≡ false) }
{
    match push_answer(alloc, &Answer::Refused(number), room, answers) {
        Ok(()) => Ok(false),
        Err(refusal) => Err(Short {
            unsaid: false,
            refusal,
        }),
    }
}

/// The reply to an event that was taken stands in place of the replies before.
fn keep(mme: &mut Mme, replies: &mut Replies, outs: Outs)
    ensures mme { mme.new ≡ mme.old }
    ensures replies { replies.new ≡ Ok outs ∷ [] }
{
    if let Some(before) = replies.exchange(outs) {
        mme.take_back(before);
    }
}

/// One event, and its answers: whether it was taken.
fn say_event(
    alloc: Global,
    mme: &mut Mme,
    replies: &mut Replies,
    event: &Event<'_>,
    room: usize,
    answers: &mut Vec<u8>,
) -> Result<bool, Short>
    ensures said { OnOk result (Adds room answers.old.items (reply_text (reply mme.old event.now)) answers.new.items) }
    ensures after { OnOk result (mme.new ≡ left_by mme.old event.now (reply mme.old event.now)) }
    ensures taken { IfOk result (λ taken. taken ≡ is_ok (reply mme.old event.now)) }
    ensures short { IfErr result
        (λ short. IsShort mme.old event.now short room answers.old.items mme.new replies.new) }
    ensures unsaid { OnErr result (answers.new.items ≡ answers.old.items) }
{
    match mme.step(event) {
        Ok(outs) => {
            let told = push_outs(alloc, outs.as_slice(), room, answers);
            keep(mme, replies, outs);
            match told {
                Ok(()) => Ok(true),
                Err(refusal) => Err(Short {
                    unsaid: true,
                    refusal,
                }),
            }
        }
        Err(StepFault::NoMemory) => Err(Short {
            unsaid: false,
            refusal: Refusal::NoMemory,
        }),
        Err(StepFault::NotUp) => push_refused(alloc, 1, room, answers),
        Err(StepFault::AlreadyUp) => push_refused(alloc, 2, room, answers),
        Err(StepFault::ClockSpent) => push_refused(alloc, 3, room, answers),
        Err(StepFault::UnknownImsi) => push_refused(alloc, 5, room, answers),
    }
}

/// The one event of a line, and its answers.
#[tactic(auto, using(crate::proofs::Saying::once_said))]
pub(crate) fn say_once(
    alloc: Global,
    mme: &mut Mme,
    replies: &mut Replies,
    event: &Event<'_>,
    room: usize,
    answers: &mut Vec<u8>,
) -> Result<(), LineStop>
    ensures { WorldSays (event_played mme.old event.now) (once mme.old event.now) 1 room answers.old.items result mme.new
        replies.new answers.new.items }
{
    match say_event(alloc, mme, replies, event, room, answers) {
        Ok(_) => Ok(()),
        Err(short) => Err(stopped(short, 0)),
    }
}

/// Ticks, one after another, up to the first that is refused, and their answers.
pub(crate) fn say_ticks(
    alloc: Global,
    mme: &mut Mme,
    replies: &mut Replies,
    count: u32,
    room: usize,
    answers: &mut Vec<u8>,
) -> Result<(), LineStop>
    ensures { WorldSays (ticked count mme.old) (λ n. ticked n mme.old) count room answers.old.items result mme.new replies.new
        answers.new.items }
{
    for tick in 0..count {
        match say_event(alloc, mme, replies, &Event::Tick, room, answers) {
            Ok(true) => {}
            Ok(false) => return Ok(()),
            Err(short) => return Err(stopped(short, tick)),
        }
    }
    Ok(())
}
