//! What was prepared is so.
//!
//! What isn't a subscriber's own step is settled out of line (`inline(never)`), so that a step doesn't clear its locals.

ghost use Rattle.std.specs.Prelude.{◌≡◌, ◌+◌, ◌*◌, ◌<◌, ◌≤◌, ◌^◌, length, OnOk, OnErr, true};
ghost use Rattle.identity_slots.specs.Ids.{slots};
ghost use Rattle.sorted_list.specs.Ordered.{Every};
ghost use Rattle.stranger_machine.specs.declared.turn.Notice.TheVariants.{Tick};
ghost use Rattle.stranger_machine.specs.Machine.{is_of_station};
ghost use Rattle.stranger_machine.specs.Table.{noted, stranger_at, with_stranger};
ghost use Rattle.stranger_machine.specs.Turns.{after_of};
ghost use Rattle.mme_tables.specs.Waiting.{due_ids};
ghost use Rattle.mme_owners.specs.Subscribers.{due_slots, slots_stepped, tick_settled, with_stepped, AreOnward, IsCounting};
ghost use Rattle.mme_owners.specs.Touched.{KeepsPlace};
ghost use Rattle.mme_owners.specs.Noticed.{slots_noticed, OutlivesNotice};
ghost use Rattle.mme_owners.specs.Owners.{with_one, IsFitIf, IsWaitAfter};
ghost use Rattle.mme_owners.specs.Placed.{AreApart};
ghost use Rattle.mme_answering.specs.Settled.{IsApart, IsFor, IsWaiting, MayPass, settled_clock, settled_strangers, settled_subscribers, starts_of, steps_of};

use crate::prepared::Prepared;
use identity_slots::AssociationId;
use mme_owners::{Owners, Stepped};
use std::alloc::AllocError;
use stranger_machine::{After, Notice};

// For T3470 of how many strangers room is made.
fn starts_of(prepared: &Prepared) -> usize
    ensures value { result ≡ starts_of prepared.now }
    ensures small { result < 2 ^ 63 }
{
    match prepared {
        Prepared::Nobody | Prepared::Subscriber(_) | Prepared::Everyone(_, _) => 0,
        Prepared::Stranger(_, _, _) => 1,
        Prepared::Tick(due, _) => due.len(),
    }
}

// For how many steps room is made.
fn steps_of(prepared: &Prepared) -> usize
    ensures { result ≡ steps_of prepared.now }
{
    match prepared {
        Prepared::Nobody => 0,
        Prepared::Subscriber(_) | Prepared::Stranger(_, _, _) => 1,
        Prepared::Everyone(_, stepped) | Prepared::Tick(_, stepped) => stepped.len(),
    }
}

// Room for T3470 of `strangers` strangers and for `steps` steps of subscribers, where there are some. Refused, all but the room is
// as it was.
fn reserve(owners: &mut Owners, strangers: usize, steps: usize) -> Result<(), AllocError>
    requires strangers { strangers < 2 ^ 63 }
    requires steps { steps ≤ slots }
    ensures clock { owners.new.clock ≡ owners.old.clock }
    ensures strangers { owners.new.strangers ≡ owners.old.strangers }
    ensures subscribers { owners.new.subscribers ≡ owners.old.subscribers }
    ensures room { OnOk result (strangers + 2 * steps ≤ owners.new.room) }
    ensures places { OnOk result (strangers + steps ≤ owners.new.places) }
{
    if strangers == 0 && steps == 0 {
        return Ok(());
    }
    owners.reserve(strangers, steps)
}

// A stranger is what was prepared, and the subscriber that it calls. Refused, all are as they were.
#[inline(never)]
fn settle_turn(
    owners: &mut Owners,
    id: AssociationId,
    after: After,
    called: Option<Stepped>,
) -> Result<(), AllocError>
    requires wait { IsWaitAfter id after }
    requires fits { IsFitIf owners.old.subscribers called }
    requires apart { AreApart (with_stranger id (after_of after (stranger_at id owners.old.strangers)) owners.old.strangers)
        (with_one called owners.old.subscribers) }
    requires room { 3 ≤ owners.old.room }
    requires places { 2 ≤ owners.old.places }
    ensures clock { owners.new.clock ≡ owners.old.clock }
    ensures strangers { OnOk result
        (owners.new.strangers ≡ with_stranger id (after_of after (stranger_at id owners.old.strangers)) owners.old.strangers) }
    ensures subscribers { OnOk result (owners.new.subscribers ≡ with_one called owners.old.subscribers) }
    ensures err { OnErr result (owners.new ≡ owners.old) }
{
    owners.settle_turn(id, after, called)
}

// All strangers have taken a notice of a station, and those subscribers whom it touches are what was prepared. Refused, all are as
// they were.
#[inline(never)]
fn settle_noticed(
    owners: &mut Owners,
    notice: Notice,
    stepped: Vec<Stepped>,
) -> Result<(), AllocError>
    requires station { is_of_station notice ≡ true }
    requires slots { slots_stepped stepped.items ≡ slots_noticed notice owners.old.subscribers }
    requires kept { Every (OutlivesNotice notice owners.old.subscribers) stepped.items }
    requires counting { Every (λ x. IsCounting x.solo) stepped.items }
    requires onward { AreOnward owners.old.subscribers stepped.items }
    requires room { 2 * length stepped.items ≤ owners.old.room }
    requires places { length stepped.items ≤ owners.old.places }
    ensures clock { owners.new.clock ≡ owners.old.clock }
    ensures strangers { OnOk result (owners.new.strangers ≡ noted notice owners.old.strangers) }
    ensures subscribers { OnOk result (owners.new.subscribers ≡ with_stepped stepped.items owners.old.subscribers) }
    ensures err { OnErr result (owners.new ≡ owners.old) }
{
    owners.settle_noticed(&notice, stepped)
}

// A tick for all, where those who are due are what was prepared.
#[inline(never)]
fn tick(owners: &mut Owners, due: Vec<AssociationId>, stepped: Vec<Stepped>)
    requires clock { owners.old.clock < 2 ^ 62 }
    requires strangers { due.items ≡ due_ids owners.old.strangers }
    requires slots { slots_stepped stepped.items ≡ due_slots owners.old.subscribers }
    requires kept { Every (KeepsPlace owners.old.subscribers) stepped.items }
    requires counting { Every (λ x. IsCounting x.solo) stepped.items }
    requires onward { AreOnward owners.old.subscribers stepped.items }
    requires room { length due.items + 2 * length stepped.items ≤ owners.old.room }
    requires places { length stepped.items ≤ owners.old.places }
    ensures clock { owners.new.clock ≡ owners.old.clock + 1 }
    ensures strangers { owners.new.strangers ≡ noted Tick owners.old.strangers }
    ensures subscribers { owners.new.subscribers ≡ tick_settled stepped.items owners.old.subscribers }
{
    owners.tick(due, stepped);
}

/// Leaves the prepared ones; if memory is refused, all are as they were.
///
/// Room for countdowns, for associations and for a stranger comes first, and what a notice of a station ends is closed.
pub fn settle(owners: &mut Owners, prepared: Prepared) -> Result<(), AllocError>
    requires fits { IsFor prepared owners.old.strangers owners.old.subscribers }
    requires apart { IsApart prepared owners.old.strangers owners.old.subscribers }
    requires waiting { IsWaiting prepared }
    requires clock { MayPass prepared owners.old.clock }
    ensures strangers { OnOk result (owners.new.strangers ≡ settled_strangers prepared owners.old.strangers) }
    ensures subscribers { OnOk result (owners.new.subscribers ≡ settled_subscribers prepared owners.old.subscribers) }
    ensures clock { OnOk result (owners.new.clock ≡ settled_clock prepared owners.old.clock) }
    ensures same_strangers { OnErr result (owners.new.strangers ≡ owners.old.strangers) }
    ensures same_subscribers { OnErr result (owners.new.subscribers ≡ owners.old.subscribers) }
    ensures same_clock { OnErr result (owners.new.clock ≡ owners.old.clock) }
{
    // (that there are no more of them than slots)
    let _ = owners.len();
    if let Err(fault) = reserve(owners, starts_of(&prepared), steps_of(&prepared)) {
        // (where the scope ended it, each part of it would be ended here)
        drop(prepared);
        return Err(fault);
    }
    match prepared {
        Prepared::Nobody => {}
        Prepared::Subscriber(called) => owners.settle(called),
        Prepared::Stranger(id, after, called) => return settle_turn(owners, id, after, called),
        Prepared::Everyone(notice, stepped) => return settle_noticed(owners, notice, stepped),
        Prepared::Tick(due, stepped) => tick(owners, due, stepped),
    }
    Ok(())
}
