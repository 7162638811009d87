//! Answers and remarks, as comments of the trace that is printed.

ghost use Rattle.std.specs.Prelude.{◌≡◌, ◌≢◌, ◌≤◌, ◌++◌, ◌∷◌, [], OnOk, OnErr};
ghost use Rattle.s1ap_pdus.specs.Pdus.{longest};
ghost use Rattle.trace_answers.specs.Lines.{octets_said};
ghost use Rattle.trace_answers.specs.Words.{answer_text, answers_of, out_text, refused_text, states_text};
ghost use Rattle.trace_progress.specs.Acts.{IsPrefix};
ghost use Rattle.trace_progress.specs.Replies.{refusal_number};
ghost use Rattle.sim_printing.specs.Printed.{AddsComments, dropped_line, skipped_line};
ghost use Rattle.sim_printing.specs.Shown.{as_comment, sent_comments, with_line};

use emm_machine::States;
use mme_core::{Out, StepFault};
use nas_elements::Imsi;
use std::alloc::{AllocError, Global};
use trace_answers::{Answer, sent_line, write_answer};
use trace_words::comments_are_not_kept;

/// Appends a line. Where memory is refused the output stays.
pub(crate) fn push_line(text: &[u8], out: &mut Vec<u8>) -> Result<(), AllocError>
    ensures added { OnOk result (out.new.items ≡ with_line text.now out.old.items) }
    ensures err { OnErr result (out.new.items ≡ out.old.items) }
{
    push_both(text, b"\n", out)
}

/// Appends two texts, one after the other, or neither where memory is refused.
fn push_both(first: &[u8], second: &[u8], out: &mut Vec<u8>) -> Result<(), AllocError>
    ensures added { OnOk result (out.new.items ≡ out.old.items ++ (first.now ++ second.now)) }
    ensures err { OnErr result (out.new.items ≡ out.old.items) }
{
    let before = out.len();
    out.extend_from_slice(first)?;
    match out.extend_from_slice(second) {
        Ok(()) => Ok(()),
        Err(refused) => {
            out.truncate(before);
            Err(refused)
        }
    }
}

/// Appends what an event sent, or where memory is refused the first lines of it.
pub(crate) fn push_answers(alloc: Global, sent: &[Out], out: &mut Vec<u8>) -> Result<(), AllocError>
    ensures added { OnOk result (AddsComments out.old.items out.new.items (answers_of sent.now)) }
    ensures appended { OnOk result (out.new.items ≡ out.old.items ++ sent_comments sent.now) }
    ensures err { OnErr result (IsPrefix out.old.items out.new.items) }
{
    for message in sent {
        push_sent(alloc, message, out)?;
    }
    Ok(())
}

fn push_sent(alloc: Global, message: &Out, out: &mut Vec<u8>) -> Result<(), AllocError>
    ensures added { OnOk result (AddsComments out.old.items out.new.items (out_text message.now)) }
    ensures appended { OnOk result (out.new.items ≡ out.old.items ++ as_comment (out_text message.now)) }
    ensures err { OnErr result (out.new.items ≡ out.old.items) }
{
    message.octets.is_short();
    push_answer(alloc, &sent_line(message), out)?;
    Ok(())
}

/// Appends why an event was refused. Want of memory isn't told: it is handed on, and the output stays.
pub(crate) fn push_refusal(
    alloc: Global,
    fault: StepFault,
    out: &mut Vec<u8>,
) -> Result<(), AllocError>
    ensures added { OnOk result (AddsComments out.old.items out.new.items (refused_text (refusal_number fault))) }
    ensures appended { OnOk result (out.new.items ≡ out.old.items ++ as_comment (refused_text (refusal_number fault))) }
    ensures memory { OnOk result (fault ≢ StepFault.NoMemory) }
    ensures err { OnErr result (out.new.items ≡ out.old.items) }
{
    match fault {
        StepFault::NoMemory => Err(AllocError),
        told => {
            push_answer(alloc, &Answer::Refused(told as u8), out)?;
            Ok(())
        }
    }
}

/// Appends the states of a subscriber. Where memory is refused the output stays.
pub(crate) fn push_states(
    alloc: Global,
    imsi: Imsi,
    states: States,
    out: &mut Vec<u8>,
) -> Result<(), AllocError>
    ensures added { OnOk result (AddsComments out.old.items out.new.items (states_text imsi states)) }
    ensures appended { OnOk result (out.new.items ≡ out.old.items ++ as_comment (states_text imsi states)) }
    ensures err { OnErr result (out.new.items ≡ out.old.items) }
{
    push_answer(alloc, &Answer::State(imsi, states), out)?;
    Ok(())
}

/// Appends an answer line, as a comment. Where memory is refused the output stays.
fn push_answer(alloc: Global, answer: &Answer<'_>, out: &mut Vec<u8>) -> Result<(), AllocError>
    requires { octets_said answer.now ≤ longest }
    ensures added { OnOk result (AddsComments out.old.items out.new.items (answer_text answer.now)) }
    ensures appended { OnOk result (out.new.items ≡ out.old.items ++ as_comment (answer_text answer.now)) }
    ensures err { OnErr result (out.new.items ≡ out.old.items) }
{
    comments_are_not_kept();
    let line = write_answer(alloc, answer)?;
    push_both(b"# ", line.as_slice(), out)?;
    Ok(())
}

/// Appends the line `## skipped`, which answers nothing: an act that can't be done. Where memory is refused the output stays.
pub fn push_skipped(out: &mut Vec<u8>) -> Result<(), AllocError>
    ensures text { OnOk result (out.new.items ≡ out.old.items ++ skipped_line) }
    ensures added { OnOk result (AddsComments out.old.items out.new.items []) }
    ensures err { OnErr result (out.new.items ≡ out.old.items) }
{
    comments_are_not_kept();
    out.extend_from_slice(b"## skipped\n")?;
    Ok(())
}

/// Appends the line `## dropped N`, which answers nothing: N events were left out. Where memory is refused the output stays.
pub fn push_dropped(alloc: Global, count: usize, out: &mut Vec<u8>) -> Result<(), AllocError>
    ensures text { OnOk result (out.new.items ≡ out.old.items ++ dropped_line count) }
    ensures added { OnOk result (AddsComments out.old.items out.new.items []) }
    ensures err { OnErr result (out.new.items ≡ out.old.items) }
{
    comments_are_not_kept();
    push_count(alloc, count, out)?;
    Ok(())
}

fn push_count(alloc: Global, count: usize, out: &mut Vec<u8>) -> Result<(), AllocError>
    ensures text { OnOk result (out.new.items ≡ out.old.items ++ dropped_line count) }
    ensures err { OnErr result (out.new.items ≡ out.old.items) }
{
    let text = format!(in alloc; "## dropped {count}\n")?;
    out.extend_from_slice(text.as_bytes())
}
