//! What strangers and subscribers do at an event, worked out before any of it is taken.
//!
//! A call that isn't one of each step stands out of line (`inline(never)`), so that a step doesn't clear its locals.

ghost use Rattle.std.specs.Prelude.{◌≡◌, ◌<◌, ◌++◌, List, length, slice_get, IfOk, OnOk, OnErr, false, true};
ghost use Rattle.std.specs.Option.{option_map_or};
ghost use Rattle.identity_slots.specs.declared.profile.Profile.{Profile};
ghost use Rattle.mme_types.specs.declared.stations.StationState.{StationState};
ghost use Rattle.mme_types.specs.Events.{entry_lists, item_of, message_lists};
ghost use Rattle.mme_types.specs.Events as items;
ghost use Rattle.sorted_list.specs.Ordered.{Every};
ghost use Rattle.stranger_machine.specs.declared.table.Known.{Known};
ghost use Rattle.stranger_machine.specs.declared.turn.Notice.TheVariants as notices;
ghost use Rattle.stranger_machine.specs.Machine.{is_of_station};
ghost use Rattle.stranger_machine.specs.Table.{stranger_at};
ghost use Rattle.stranger_machine.specs.Turns.{call_of, turn_of};
ghost use Rattle.mme_tables.specs.Waiting.{due_ids};
ghost use Rattle.mme_owners.specs.SubscriberLaws.{some_give};
ghost use Rattle.mme_owners.specs.Subscribers.{IsCounting, IsOnwardAt, due_slots};
ghost use Rattle.mme_owners.specs.Touched.{touched_slots};
ghost use Rattle.mme_routing.specs.Destinations.{Beginner as BeginnerInSpecs, Everyone, Stranger as StrangerInSpecs, for_one, if_called, item_of_notice};
ghost use Rattle.mme_routing.specs.Seen.{destination_of};
ghost use Rattle.mme_answering.specs.declared.prepared.Prepared.TheVariants.{Everyone as EveryoneInCode};
ghost use Rattle.mme_answering.specs.InUse.{AreInUse};
ghost use Rattle.mme_answering.specs.Prepares.{Prepares, PreparesEach, PreparesOne, PreparesTurn};
ghost use Rattle.mme_answering.specs.Sending.{each_sent, event_sent, turn_sent, SendsSome};
ghost use Rattle.mme_answering.specs.Settled.{is_own, is_seen_still, item_sent, sent_at, solo_at};

use crate::out::{Outs, Owner};
use crate::prepared::Prepared;
use crate::sending::{send_all, send_due};
use identity_slots::{AssociationId, Provision, Slot};
use laws_subscriber::{clocks_are_kept, connections_come_so};
use mme_owners::{Due, Owners, Stepped, Subscribers};
use mme_routing::Destination;
use mme_tables::Strangers;
use mme_types::{EnbWorld, Entry, SoloEvent, StationNumber, UeMessage};
use s1ap_elements::AssociationToReset;
use std::alloc::{AllocError, Global};
use stranger_machine::{Call, Notice, Turn, begins, receives};

// A subscriber's step, on a copy: its state after it; what it sends stands after what is sent so far.
#[tactic(auto, using(crate::proofs::Sent::sends_none))]
fn prepare_step(
    alloc: Global,
    subscribers: &mut Subscribers,
    slot: Slot,
    event: &SoloEvent,
    stations: &EnbWorld,
    outs: &mut Outs,
) -> Result<Stepped, AllocError>
    requires slot { slot < length subscribers.old.subscribers }
    requires in_use { AreInUse subscribers.old.subscribers }
    ensures slot { IfOk result (λ x. x.slot ≡ slot) }
    ensures after { IfOk result (λ x. solo_at slot (item_of event.now stations.now) subscribers.old.subscribers ≡ Some x.solo) }
    ensures counting { IfOk result (λ x. IsCounting x.solo) }
    ensures onward { IfOk result (λ x. IsOnwardAt subscribers.old.subscribers x) }
    ensures sends { OnOk result (outs.new ≡ outs.old ++ sent_at slot (item_of event.now stations.now) subscribers.old.subscribers) }
    ensures err { OnErr result
        (SendsSome (sent_at slot (item_of event.now stations.now) subscribers.old.subscribers) outs.old outs.new) }
    ensures same { subscribers.new ≡ subscribers.old }
{
    clocks_are_kept();
    let mut draft = subscribers.prepare(slot, event, stations)?;
    send_all(outs, Owner::Subscriber(slot), &mut draft.sent)?;
    Ok(Stepped::new(slot, draft))
}

// The step of each of some slots; what they send stands after what is sent so far.
#[inline(never)]
fn prepare_each(
    alloc: Global,
    subscribers: &mut Subscribers,
    called: &[Slot],
    event: &SoloEvent,
    stations: &EnbWorld,
    outs: &mut Outs,
) -> Result<Vec<Stepped>, AllocError>
    requires called { Every (λ k. k < length subscribers.old.subscribers) called.now }
    requires in_use { AreInUse subscribers.old.subscribers }
    ensures prepares { IfOk result
        (λ xs. PreparesEach (item_of event.now stations.now) called.now subscribers.old.subscribers outs.old outs.new xs.items) }
    ensures err { OnErr result (SendsSome
        (some_give (item_sent (item_of event.now stations.now)) called.now subscribers.old.subscribers) outs.old outs.new) }
    ensures same { subscribers.new ≡ subscribers.old }
{
    let mut stepped = Vec::new(alloc);
    for slot in called {
        let one = prepare_step(alloc, subscribers, *slot, event, stations, outs)?;
        stepped.push(one)?;
    }
    Ok(stepped)
}

// The step of one, if its slot is provisioned.
fn prepare_one(
    alloc: Global,
    subscribers: &mut Subscribers,
    slot: Slot,
    event: &SoloEvent,
    stations: &EnbWorld,
    outs: &mut Outs,
) -> Result<Option<Stepped>, AllocError>
    requires { AreInUse subscribers.old.subscribers }
    ensures prepares { IfOk result
        (λ x. PreparesOne (for_one slot (item_of event.now stations.now)) subscribers.old.subscribers outs.old outs.new x) }
    ensures err { OnErr result
        (SendsSome (each_sent (for_one slot (item_of event.now stations.now)) 0 subscribers.old.subscribers) outs.old outs.new) }
    ensures same { subscribers.new ≡ subscribers.old }
{
    let place = slot.get() as usize;
    if place >= subscribers.len() {
        return Ok(None);
    }
    let one = prepare_step(alloc, subscribers, slot, event, stations, outs)?;
    Ok(Some(one))
}

// Whether a slot is provisioned, and a look at its connection tells that an event leaves its subscriber as it is and that nothing
// is sent: a message alone is looked at.
fn is_still(owners: &Owners, slot: Slot, event: &SoloEvent) -> bool
    ensures { (stations : List StationState) → result
        ≡ option_map_or (is_seen_still (item_of event.now stations)) (slice_get owners.now.subscribers slot) false }
{
    if slot.get() as usize >= owners.len() {
        return false;
    }
    match event {
        SoloEvent::Message(message) => owners.is_still(slot, message),
        _ => false,
    }
}

// The step of the one whose slot an event goes to, if the slot is provisioned and the event may do something.
fn prepare_own(
    alloc: Global,
    owners: &mut Owners,
    slot: Slot,
    event: &SoloEvent,
    stations: &EnbWorld,
    outs: &mut Outs,
) -> Result<Option<Stepped>, AllocError>
    requires { AreInUse owners.old.subscribers }
    ensures prepares { IfOk result
        (λ x. PreparesOne (for_one slot (item_of event.now stations.now)) owners.old.subscribers outs.old outs.new x) }
    ensures err { OnErr result
        (SendsSome (each_sent (for_one slot (item_of event.now stations.now)) 0 owners.old.subscribers) outs.old outs.new) }
    ensures same { owners.new ≡ owners.old }
{
    if is_still(owners, slot, event) {
        return Ok(None);
    }
    let subscribers = &mut owners.records.subscribers;
    prepare_one(alloc, subscribers, slot, event, stations, outs)
}

// The step of the one whom a stranger calls, if it calls.
#[inline(never)]
fn prepare_called(
    alloc: Global,
    subscribers: &mut Subscribers,
    call: &Option<Call>,
    stations: &EnbWorld,
    outs: &mut Outs,
) -> Result<Option<Stepped>, AllocError>
    requires { AreInUse subscribers.old.subscribers }
    ensures prepares { IfOk result
        (λ x. PreparesOne (if_called (call_of stations.now call.now)) subscribers.old.subscribers outs.old outs.new x) }
    ensures err { OnErr result
        (SendsSome (each_sent (if_called (call_of stations.now call.now)) 0 subscribers.old.subscribers) outs.old outs.new) }
    ensures same { subscribers.new ≡ subscribers.old }
{
    match call {
        Some(call) => {
            let event = &call.event;
            prepare_one(alloc, subscribers, call.slot, event, stations, outs)
        }
        None => Ok(None),
    }
}

// What is to become of a stranger by its turn, and of the one whom it calls, if it calls.
#[inline(never)]
fn prepare_turn(
    alloc: Global,
    subscribers: &mut Subscribers,
    id: AssociationId,
    turn: Turn<'_>,
    stations: &EnbWorld,
    outs: &mut Outs,
) -> Result<Prepared, AllocError>
    requires { AreInUse subscribers.old.subscribers }
    ensures prepares { IfOk result
        (λ p. (ks : List Known) → PreparesTurn id (turn_of stations.now (stranger_at id ks) turn.entry)
        ks subscribers.old.subscribers outs.old outs.new p) }
    ensures err { OnErr result
        ((ks : List Known) → SendsSome (turn_sent id (turn_of stations.now (stranger_at id ks) turn.entry)
        subscribers.old.subscribers) outs.old outs.new) }
    ensures same { subscribers.new ≡ subscribers.old }
{
    let Turn {
        after,
        mut sent,
        call,
    } = turn;
    send_all(outs, Owner::Stranger(id), &mut sent)?;
    let called = prepare_called(alloc, subscribers, &call, stations, outs)?;
    Ok(Prepared::Stranger(id, after, called))
}

// A tick of those alone, strangers and subscribers, who are due; and what all send.
#[inline(never)]
fn prepare_tick(
    alloc: Global,
    strangers: &Strangers,
    subscribers: &mut Subscribers,
    due: Due,
    stations: &EnbWorld,
    event: &SoloEvent,
    outs: &mut Outs,
) -> Result<Prepared, AllocError>
    requires tick { item_of event.now stations.now ≡ items.Tick }
    requires due_strangers { due.strangers.items ≡ due_ids strangers.now.strangers }
    requires due_slots { due.slots.items ≡ due_slots subscribers.old.subscribers }
    requires in_use { AreInUse subscribers.old.subscribers }
    ensures prepares { IfOk result
        (λ p. (ps : List Profile) → Prepares ps (Everyone notices.Tick)
        strangers.now.strangers subscribers.old.subscribers outs.old outs.new p) }
    ensures err { OnErr result
        ((ps : List Profile) → SendsSome (event_sent ps (Everyone notices.Tick)
        strangers.now.strangers subscribers.old.subscribers) outs.old outs.new) }
    ensures same { subscribers.new ≡ subscribers.old }
{
    connections_come_so();
    let Due {
        strangers: ended,
        slots,
    } = due;
    send_due(alloc, strangers, ended.as_slice(), outs)?;
    let called = slots.as_slice();
    let stepped = prepare_each(alloc, subscribers, called, event, stations, outs)?;
    Ok(Prepared::Tick(ended, stepped))
}

// What a notice of a station is to a subscriber.
fn event_of(notice: &Notice) -> SoloEvent<'_>
    requires { is_of_station notice.now ≡ true }
    ensures { (stations : List StationState) → item_of result stations ≡ item_of_notice notice.entry.now }
{
    match notice {
        Notice::Gone(station) => SoloEvent::StationGone(*station),
        Notice::Listed(station, items) => SoloEvent::ConnectionsGone(*station, items.as_slice()),
        Notice::Tick => unreachable!(),
    }
}

// The slots of those whose connection a RESET of a part of a station means.
#[inline(never)]
fn listed(
    owners: &Owners,
    station: StationNumber,
    list: &[AssociationToReset],
) -> Result<Vec<Slot>, AllocError>
    ensures { IfOk result
        (λ touched. touched.items ≡ touched_slots (items.ConnectionsGone station list.now) owners.now.subscribers) }
{
    owners.listed(station, list)
}

// The slots of those whom a notice of a station may touch.
fn touched_by(owners: &Owners, notice: &Notice) -> Result<Vec<Slot>, AllocError>
    requires { is_of_station notice.now ≡ true }
    ensures { IfOk result (λ touched. touched.items ≡ touched_slots (item_of_notice notice.now) owners.now.subscribers) }
{
    match notice {
        Notice::Gone(station) => owners.concerned(*station),
        Notice::Listed(station, items) => listed(owners, *station, items.as_slice()),
        Notice::Tick => unreachable!(),
    }
}

// What a notice of a station makes of those subscribers whom it touches, by the event that it is to them, and what they send;
// strangers send nothing at it.
fn prepare_all(
    alloc: Global,
    subscribers: &mut Subscribers,
    stations: &EnbWorld,
    notice: &Notice,
    touched: Vec<Slot>,
    event: &SoloEvent,
    outs: &mut Outs,
) -> Result<Vec<Stepped>, AllocError>
    requires station { is_of_station notice.now ≡ true }
    requires touched { touched.items ≡ touched_slots (item_of_notice notice.now) subscribers.old.subscribers }
    requires event { item_of event.now stations.now ≡ item_of_notice notice.now }
    requires in_use { AreInUse subscribers.old.subscribers }
    ensures prepares { IfOk result
        (λ xs. (ps : List Profile) (ks : List Known) → Prepares ps (Everyone notice.now)
        ks subscribers.old.subscribers outs.old outs.new (EveryoneInCode notice.now xs)) }
    ensures err { OnErr result
        ((ps : List Profile) (ks : List Known) → SendsSome (event_sent ps (Everyone notice.now)
        ks subscribers.old.subscribers) outs.old outs.new) }
    ensures same { subscribers.new ≡ subscribers.old }
{
    connections_come_so();
    let called = touched.as_slice();
    prepare_each(alloc, subscribers, called, event, stations, outs)
}

// What is to become of the stranger who begins with a message.
#[tactic(auto, using(crate::proofs::Sent::sends_none))]
#[inline(never)]
fn prepare_beginner(
    alloc: Global,
    strangers: &Strangers,
    subscribers: &mut Subscribers,
    id: AssociationId,
    entry: &Entry<&[u8]>,
    stations: &EnbWorld,
    outs: &mut Outs,
) -> Result<Prepared, AllocError>
    requires { AreInUse subscribers.old.subscribers }
    ensures prepares { IfOk result
        (λ p. (ps : List Profile) → Prepares ps (BeginnerInSpecs id (entry_lists entry.now))
        strangers.now.strangers subscribers.old.subscribers outs.old outs.new p) }
    ensures err { OnErr result
        ((ps : List Profile) → SendsSome (event_sent ps (BeginnerInSpecs id (entry_lists entry.now))
        strangers.now.strangers subscribers.old.subscribers) outs.old outs.new) }
    ensures same { subscribers.new ≡ subscribers.old }
{
    let turn = begins(alloc, id, strangers.find(id), entry)?;
    prepare_turn(alloc, subscribers, id, turn, stations, outs)
}

// What is to become of the stranger whom a message is for.
#[tactic(auto, using(crate::proofs::Sent::sends_none))]
#[inline(never)]
fn prepare_stranger(
    alloc: Global,
    provision: &Provision,
    strangers: &Strangers,
    subscribers: &mut Subscribers,
    message: &UeMessage<&[u8]>,
    stations: &EnbWorld,
    outs: &mut Outs,
) -> Result<Prepared, AllocError>
    requires { AreInUse subscribers.old.subscribers }
    ensures prepares { IfOk result
        (λ p. Prepares provision.now.profiles (StrangerInSpecs (message_lists message.now))
        strangers.now.strangers subscribers.old.subscribers outs.old outs.new p) }
    ensures err { OnErr result
        (SendsSome (event_sent provision.now.profiles (StrangerInSpecs (message_lists message.now))
        strangers.now.strangers subscribers.old.subscribers) outs.old outs.new) }
    ensures same { subscribers.new ≡ subscribers.old }
{
    let id = message.mme_ue_id;
    let turn = receives(alloc, provision, strangers.find(id), message)?;
    prepare_turn(alloc, subscribers, id, turn, stations, outs)
}

// What is to become of all at a tick.
#[tactic(auto, using(crate::proofs::Sent::sends_none))]
#[inline(never)]
fn prepare_due(
    alloc: Global,
    owners: &mut Owners,
    stations: &EnbWorld,
    event: &SoloEvent,
    outs: &mut Outs,
) -> Result<Prepared, AllocError>
    requires tick { item_of event.now stations.now ≡ items.Tick }
    requires in_use { AreInUse owners.old.subscribers }
    ensures prepares { IfOk result
        (λ p. (ps : List Profile) → Prepares ps (Everyone notices.Tick)
        owners.old.strangers owners.old.subscribers outs.old outs.new p) }
    ensures err { OnErr result
        ((ps : List Profile) → SendsSome (event_sent ps (Everyone notices.Tick)
        owners.old.strangers owners.old.subscribers) outs.old outs.new) }
    ensures same { owners.new ≡ owners.old }
{
    let due = owners.due()?;
    let strangers = &owners.records.strangers;
    let subscribers = &mut owners.records.subscribers;
    prepare_tick(alloc, strangers, subscribers, due, stations, event, outs)
}

// What is to become of all, where an event goes to everyone.
#[tactic(auto, using(crate::proofs::Sent::sends_none))]
#[inline(never)]
fn prepare_everyone<'a>(
    alloc: Global,
    owners: &mut Owners,
    stations: &EnbWorld,
    destination: Destination<'a>,
    outs: &mut Outs,
) -> Result<Prepared, AllocError>
    requires everyone { is_own destination ≡ false }
    requires in_use { AreInUse owners.old.subscribers }
    ensures prepares { IfOk result
        (λ p. (ps : List Profile) → Prepares ps (destination_of stations.now destination.entry)
        owners.old.strangers owners.old.subscribers outs.old outs.new p) }
    ensures err { OnErr result
        ((ps : List Profile) → SendsSome (event_sent ps (destination_of stations.now destination.entry)
        owners.old.strangers owners.old.subscribers) outs.old outs.new) }
    ensures same { owners.new ≡ owners.old }
{
    match destination {
        Destination::Everyone(Notice::Tick) => {
            prepare_due(alloc, owners, stations, &SoloEvent::Tick, outs)
        }
        Destination::Everyone(notice) => {
            let touched = touched_by(owners, &notice)?;
            let event = &event_of(&notice);
            let subscribers = &mut owners.records.subscribers;
            let stepped = prepare_all(alloc, subscribers, stations, &notice, touched, event, outs)?;
            Ok(Prepared::Everyone(notice, stepped))
        }
        _ => unreachable!(),
    }
}

/// Works out what becomes of those whom an event reaches, and adds what their machines send to the output, strangers' by id, then
/// subscribers' by slot. Nobody has changed yet. If memory is refused, the first of these messages have been added, in this order
/// (`SendsSome`).
pub fn prepare<'a>(
    alloc: Global,
    provision: &Provision,
    owners: &mut Owners,
    stations: &EnbWorld,
    destination: Destination<'a>,
    outs: &mut Outs,
) -> Result<Prepared, AllocError>
    requires in_use { AreInUse owners.old.subscribers }
    ensures prepares { IfOk result
        (λ p. Prepares provision.now.profiles (destination_of stations.now destination.entry)
        owners.old.strangers owners.old.subscribers outs.old outs.new p) }
    ensures err { OnErr result
        (SendsSome (event_sent provision.now.profiles (destination_of stations.now destination.entry)
        owners.old.strangers owners.old.subscribers) outs.old outs.new) }
    ensures same { owners.new ≡ owners.old }
{
    let strangers = &owners.records.strangers;
    let subscribers = &mut owners.records.subscribers;
    match destination {
        Destination::Nobody => Ok(Prepared::Nobody),
        Destination::Subscriber(slot, event) => {
            match prepare_own(alloc, owners, slot, &event, stations, outs)? {
                Some(stepped) => Ok(Prepared::Subscriber(stepped)),
                None => Ok(Prepared::Nobody),
            }
        }
        Destination::Beginner(id, entry) => {
            prepare_beginner(alloc, strangers, subscribers, id, &entry, stations, outs)
        }
        Destination::Stranger(message) => {
            prepare_stranger(
                alloc,
                provision,
                strangers,
                subscribers,
                &message,
                stations,
                outs,
            )
        }
        everyone => prepare_everyone(alloc, owners, stations, everyone, outs),
    }
}
