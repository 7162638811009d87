//! Events and questions, each printed as its trace line with its answers after it.

ghost use Rattle.std.specs.Prelude.{◌≡◌, ◌∷◌, ◌++◌, [], true, false, IfOk, OnOk, OnErr, is_some};
ghost use Rattle.std.specs.Result.{result_ok};
ghost use Rattle.trace_words.specs.Kept.{kept_line};
ghost use Rattle.mme_core.specs.World.{reply};
ghost use Rattle.trace_progress.specs.Effects.{left_by, states_of_imsi};
ghost use Rattle.trace_progress.specs.Acts.{IsPrefix};
ghost use Rattle.trace_progress.specs.Replies.{reply_text};
ghost use Rattle.trace_progress.specs.Stopping.{HasTaken};
ghost use Rattle.trace_words.specs.declared.line.Line.TheVariants.{Show};
ghost use Rattle.sim_printing.specs.Printed.{AddsComments, PrintsFrom, ReadsAs, event_line};
ghost use Rattle.sim_printing.specs.Shown.{reply_comments, with_reply, with_states};

use crate::comments::{push_answers, push_line, push_refusal, push_states};
use mme_core::{Event, Mme, Outs};
use nas_elements::Imsi;
use std::alloc::{AllocError, Global};
use trace_progress::states_of_imsi;
use trace_words::first_word_tells;

/// Plays an event: appends `text`, the line that says it, and then its answers, each after `# `. What is sent, or None where
/// the event was refused, and then the MME is as it was. Where memory is refused nothing is appended; the MME is as it was, or
/// has taken the event.
pub fn print_event(
    alloc: Global,
    mme: &mut Mme,
    event: &Event<'_>,
    text: &[u8],
    out: &mut Vec<u8>,
) -> Result<Option<Outs>, AllocError>
    requires { ReadsAs (event_line event.now) text.now }
    ensures printed { OnOk result (PrintsFrom mme.old out.old.items mme.new out.new.items (kept_line (event_line event.now))) }
    ensures shown { OnOk result (out.new.items ≡ with_reply text.now (reply mme.old event.now) out.old.items) }
    ensures sent { IfOk result (λ sent. sent ≡ result_ok (reply mme.old event.now)) }
    ensures after { OnOk result (mme.new ≡ left_by mme.old event.now (reply mme.old event.now)) }
    ensures taken { OnErr result (HasTaken (event.now ∷ []) mme.old mme.new) }
    ensures err { OnErr result (out.new.items ≡ out.old.items) }
{
    first_word_tells();
    let before = out.len();
    push_line(text, out)?;
    match print_reply(alloc, mme, event, out) {
        Ok(sent) => Ok(sent),
        Err(refused) => {
            out.truncate(before);
            Err(refused)
        }
    }
}

/// Plays an event and appends its answers, or where memory is refused the first of them; else as in `print_event`.
fn print_reply(
    alloc: Global,
    mme: &mut Mme,
    event: &Event<'_>,
    out: &mut Vec<u8>,
) -> Result<Option<Outs>, AllocError>
    ensures told { OnOk result (AddsComments out.old.items out.new.items (reply_text (reply mme.old event.now))) }
    ensures appended { OnOk result (out.new.items ≡ out.old.items ++ reply_comments (reply mme.old event.now)) }
    ensures sent { IfOk result (λ sent. sent ≡ result_ok (reply mme.old event.now)) }
    ensures after { OnOk result (mme.new ≡ left_by mme.old event.now (reply mme.old event.now)) }
    ensures taken { OnErr result (HasTaken (event.now ∷ []) mme.old mme.new) }
    ensures err { OnErr result (IsPrefix out.old.items out.new.items) }
{
    match mme.step(event) {
        Ok(sent) => {
            push_answers(alloc, sent.as_slice(), out)?;
            Ok(Some(sent))
        }
        Err(fault) => {
            push_refusal(alloc, fault, out)?;
            Ok(None)
        }
    }
}

/// Shows a subscriber: appends `text`, the line that asks for it, and then its states after `# `. Answers `false`, with
/// nothing appended, where nobody is provisioned with the IMSI. Nor is anything appended where memory is refused.
pub fn print_show(
    alloc: Global,
    mme: &Mme,
    imsi: Imsi,
    text: &[u8],
    out: &mut Vec<u8>,
) -> Result<bool, AllocError>
    requires { ReadsAs (Show imsi) text.now }
    ensures known { IfOk result (λ known. known ≡ is_some (states_of_imsi imsi mme.now)) }
    ensures printed { IfOk result
        (λ known. known ≡ true → PrintsFrom mme.now out.old.items mme.now out.new.items (kept_line (Show imsi))) }
    ensures shown { OnOk result (out.new.items ≡ with_states text.now imsi (states_of_imsi imsi mme.now) out.old.items) }
    ensures unknown { IfOk result (λ known. known ≡ false → out.new.items ≡ out.old.items) }
    ensures err { OnErr result (out.new.items ≡ out.old.items) }
{
    first_word_tells();
    let Some(states) = states_of_imsi(mme, imsi) else {
        return Ok(false);
    };
    let before = out.len();
    push_line(text, out)?;
    match push_states(alloc, imsi, states, out) {
        Ok(()) => Ok(true),
        Err(refused) => {
            out.truncate(before);
            Err(refused)
        }
    }
}
