//! What owners send, after what is sent so far.

ghost use Rattle.std.specs.Prelude.{◌≡◌, ◌≤◌, ◌+◌, ◌++◌, [], length, map, vec_len, OnOk, OnErr};
ghost use Rattle.std.specs.Vec.{vec_capacity};
ghost use Rattle.std.specs.Option.{option_map_or};
ghost use Rattle.sorted_list.specs.Ordered.{at};
ghost use Rattle.stranger_machine.specs.Table.{known_id};
ghost use Rattle.stranger_machine.specs.declared.turn.Notice.TheVariants.{Tick};
ghost use Rattle.mme_tables.specs.Waiting.{due_ids};
ghost use Rattle.mme_tables.specs.StrangerLaws.{some_known_give};
ghost use Rattle.mme_answering.specs.Settled.{known_sent};
ghost use Rattle.mme_answering.specs.Sending.{each_known, owner_out, SendsSome};
ghost use Rattle.mme_answering.specs.Short.{AreShort};

use crate::out::{Out, Outs, Owner};
use identity_slots::AssociationId;
use mme_tables::Strangers;
use mme_types::{Answer, Answers};
use std::alloc::{AllocError, Global};
use stranger_machine::Notice;

// An answer, as it is sent for an owner.
fn out_of(owner: &Owner, answer: Answer) -> Out
    ensures { result ≡ owner_out owner.now answer }
{
    let Answer {
        station,
        octets,
        under: _,
    } = answer;
    Out {
        owner: *owner,
        station,
        octets,
    }
}

/// Each answer as it is sent for an owner, into room that there is.
#[tactic(auto, using(crate::proofs::Short::short_push))]
pub(crate) fn push_each(items: &mut Vec<Out>, owner: &Owner, answers: &mut Answers)
    requires room { vec_len items.old + length answers.old ≤ vec_capacity items.old }
    requires short { AreShort items.old.items }
    ensures sent { items.new.items ≡ items.old.items ++ map (owner_out owner.now) answers.old }
    ensures emptied { answers.new ≡ [] }
    ensures short { AreShort items.new.items }
{
    while let Some(answer) = answers.take_first() {
        // The list keeps this of each message.
        answer.octets.is_short();
        items.push_reserved(out_of(owner, answer));
    }
}

/// What an owner's machine sends, after what is sent so far. Its octets are moved, and the room for the answers stays. Refused,
/// nothing of it is sent, and the answers stand as they were.
pub fn send_all(outs: &mut Outs, owner: Owner, answers: &mut Answers) -> Result<(), AllocError>
    ensures sent { OnOk result (outs.new ≡ outs.old ++ map (owner_out owner) answers.old) }
    ensures emptied { OnOk result (answers.new ≡ []) }
    ensures err { OnErr result (outs.new ≡ outs.old) }
    ensures kept { OnErr result (answers.new ≡ answers.old) }
{
    outs.push_all(owner, answers)
}

// What the stranger with an id sends at a tick, unless it is closed.
#[tactic(auto, using(crate::proofs::Sent::sends_none))]
fn send_one(
    alloc: Global,
    strangers: &Strangers,
    id: AssociationId,
    outs: &mut Outs,
) -> Result<(), AllocError>
    ensures sent { OnOk result
        (outs.new ≡ outs.old ++ option_map_or (known_sent Tick) (at known_id id strangers.now.strangers) []) }
    ensures err { OnErr result
        (SendsSome (option_map_or (known_sent Tick) (at known_id id strangers.now.strangers) []) outs.old outs.new) }
{
    let Some(known) = strangers.find(id) else {
        return Ok(());
    };
    let mut sent = known.sends(alloc, id, &Notice::Tick)?;
    send_all(outs, Owner::Stranger(id), &mut sent)
}

// What the strangers with some ids send at a tick.
fn send_some(
    alloc: Global,
    strangers: &Strangers,
    ids: &[AssociationId],
    outs: &mut Outs,
) -> Result<(), AllocError>
    ensures sent { OnOk result (outs.new ≡ outs.old ++ some_known_give (known_sent Tick) ids.now strangers.now.strangers) }
    ensures err { OnErr result
        (SendsSome (some_known_give (known_sent Tick) ids.now strangers.now.strangers) outs.old outs.new) }
{
    for id in ids {
        send_one(alloc, strangers, *id, outs)?;
    }
    Ok(())
}

/// What the strangers send at a tick whose T3470 it ends, by id, where those are their ids, after what is sent so far; the others
/// send nothing.
pub(crate) fn send_due(
    alloc: Global,
    strangers: &Strangers,
    due: &[AssociationId],
    outs: &mut Outs,
) -> Result<(), AllocError>
    requires { due.now ≡ due_ids strangers.now.strangers }
    ensures sent { OnOk result (outs.new ≡ outs.old ++ each_known Tick strangers.now.strangers) }
    ensures err { OnErr result (SendsSome (each_known Tick strangers.now.strangers) outs.old outs.new) }
{
    // (that their ids rise)
    let _ = strangers.clock();
    send_some(alloc, strangers, due, outs)
}
