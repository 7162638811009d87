//! Subscribers by slot, each asleep until something is for it.

ghost use Rattle.std.specs.Prelude.{◌≡◌, ◌+◌, ◌<◌, ◌≤◌, ◌^◌, ◌++◌, ◌∷◌, [], length, slice_get, IfOk, OnErr, OnOk, Some, None, option_map};
ghost use Rattle.identity_slots.specs.Ids.{slots};
ghost use Rattle.mme_types.specs.Events.{item_of};
ghost use Rattle.mme_tables.specs.Whereabouts.{nowhere};
ghost use Rattle.emm_machine.specs.Ticks.{countdowns};
ghost use Rattle.emm_machine.specs.Words.{states_of};
ghost use Rattle.sorted_list.specs.Ordered.{Every};
ghost use Rattle.mme_owners.specs.Changed.{changed_at};
ghost use Rattle.mme_owners.specs.Given.{TakesOneVector};
ghost use Rattle.mme_owners.specs.Lent.{lent_now};
ghost use Rattle.mme_owners.specs.Records.{renewed, touched_views, views, with_records, IsSubscriberTable};
ghost use Rattle.mme_owners.specs.Subscribers.{countdowns_at, due_slots, slots_stepped, step_at, tick_settled, with_solo, with_stepped, AreCounting, AreOnward, IsCounting, IsOnwardAt};

use crate::lent::LentSubscriber;
use crate::record::Record;
use crate::spare::{Spares, free};
use crate::stepped::Stepped;
use emm_machine::{States, Subscriber};
use emm_state::Draft;
use identity_slots::{ProvisionFault, Slot, Vector};
use mme_tables::Connections;
use mme_types::{EnbWorld, SoloEvent};
use std::alloc::{AllocError, Global};
use std::marker::Model;

// One has a new state; answers the countdowns that it had until now. The box of the step before is a spare one.
fn settle_one(
    records: &mut Vec<Record>,
    clock: u64,
    spares: &mut Spares,
    stepped: Stepped,
) -> (Option<u64>, Option<u64>)
    requires table { IsSubscriberTable clock records.old.items }
    requires slot { stepped.slot < length records.old.items }
    requires onward { IsOnwardAt (views clock records.old.items) stepped }
    ensures records { records.new.items ≡ changed_at stepped.slot (renewed clock stepped.solo) records.old.items }
    ensures before { countdowns_at stepped.slot (views clock records.old.items) ≡ Some result }
{
    let slot = stepped.slot();
    let place = slot.get() as usize;
    let (before, kept) = records[place].replace(clock, stepped.into_draft());
    spares.keep(kept);
    before
}

// One who was due has a new state.
fn settle_due(records: &mut Vec<Record>, clock: u64, due: Stepped)
    requires slot { due.slot < length records.old.items }
    requires onward { IsOnwardAt (touched_views records.old.items) due }
    ensures { records.new.items ≡ changed_at due.slot (renewed clock due.solo) records.old.items }
{
    let slot = due.slot();
    let place = slot.get() as usize;
    free(records[place].renew(clock, due.into_draft()));
}

// One has a vector more. Refused, it is woken at most.
fn give_one(
    records: &mut Vec<Record>,
    clock: u64,
    alloc: Global,
    slot: Slot,
    vector: Vector,
) -> Result<(), ProvisionFault>
    requires table { IsSubscriberTable clock records.old.items }
    requires slot { slot < length records.old.items }
    ensures table { IsSubscriberTable clock records.new.items }
    ensures takes { TakesOneVector slot vector (views clock records.old.items) result (views clock records.new.items) }
{
    let place = slot.get() as usize;
    records[place].give(clock, alloc, vector)
}

// Each who was due has the state that it was prepared for.
fn settle_all(records: &mut Vec<Record>, clock: u64, stepped: Vec<Stepped>)
    requires slots { Every (λ x. x.slot < length records.old.items) stepped.items }
    requires onward { AreOnward (touched_views records.old.items) stepped.items }
    ensures { records.new.items ≡ with_records clock stepped.items records.old.items }
{
    for one in stepped {
        settle_due(records, clock, one);
    }
}

/// Subscribers by slot: `states` and `prepare` answer what the list says, and `prepare` doesn't change it. `give` is
/// refused as full exactly if the subscriber takes no more vectors. `settle` and `tick` leave the prepared states, and at a tick
/// each other subscriber with a tick less, without memory.
///
/// A contract sees the clock, by which the table tells what its own are now, and each subscriber as it is now.
#[derive(Drop)]
pub struct Subscribers {
    records: Vec<Record>,
    clock: u64,
    // the boxes of steps that others have replaced, for the next ones; what they have means nothing
    spares: Spares,
}

impl Model for Subscribers {
    ghost use Rattle.mme_owners.specs.Subscribers.{SubscriberTable};

    ghost Value = { SubscriberTable };

    ghost use Rattle.mme_owners.specs.Records.{views, IsSubscriberTable};

    ghost view = { λ t. record { clock = t.clock; subscribers = views t.clock t.records.items } };

    ghost invariant = { λ t. IsSubscriberTable t.clock t.records.items };
}

impl Subscribers {
    /// Nobody, at this clock.
    pub fn new(alloc: Global, clock: u64) -> Subscribers
        ensures clock { result.clock ≡ clock }
        ensures subscribers { result.subscribers ≡ [] }
    {
        Subscribers {
            records: Vec::new(alloc),
            clock,
            spares: Spares::new(),
        }
    }

    /// A subscriber of whom no countdown runs has the next slot, and so has its phone, which is nowhere. Refused, all is as it was.
    pub fn push(
        &mut self,
        subscriber: Subscriber,
        connections: &mut Connections,
    ) -> Result<(), AllocError>
        requires slots { length self.old.subscribers < slots }
        requires off { countdowns subscriber.solo ≡ (None, None) }
        requires many { length connections.old.whereabouts ≡ length self.old.subscribers }
        ensures clock { self.new.clock ≡ self.old.clock }
        ensures ok { OnOk result (self.new.subscribers ≡ self.old.subscribers ++ subscriber ∷ []) }
        ensures phone { OnOk result (connections.new.whereabouts ≡ connections.old.whereabouts ++ nowhere ∷ []) }
        ensures phone_strangers { connections.new.associations ≡ connections.old.associations }
        ensures phone_room { connections.new.room ≡ connections.old.room }
        ensures err { OnErr result (self.new ≡ self.old) }
        ensures same { OnErr result (connections.new ≡ connections.old) }
    {
        let touched = self.clock;
        self.records.reserve(1)?;
        connections.push()?;
        self.records.push_reserved(Record {
            subscriber,
            touched,
        });
        Ok(())
    }

    /// How many there are. Each countdown that runs has from 1 to MOBILE_REACHABLE_TICKS left.
    pub fn len(&self) -> usize
        ensures value { result ≡ length self.now.subscribers }
        ensures few { length self.now.subscribers ≤ slots }
        ensures counting { AreCounting self.now.subscribers }
    {
        self.records.len()
    }

    /// The states of a slot, if it is somebody's; takes no memory.
    pub fn states(&self, slot: Slot) -> Option<States>
        ensures { result ≡ option_map (λ w. states_of w.solo) (slice_get self.now.subscribers slot) }
    {
        let place = slot.get() as usize;
        if place >= self.records.len() {
            return None;
        }
        Some(self.records[place].subscriber.states())
    }

    /// The subscriber of a slot, if it is somebody's, as it was when it was touched, and the ticks since then. Takes no memory.
    pub fn look<'a>(&'a self, slot: Slot) -> Option<LentSubscriber<'a>>
        ensures { option_map lent_now result ≡ slice_get self.entry.now.subscribers slot }
    {
        let clock = self.clock;
        let place = slot.get() as usize;
        if place >= self.records.len() {
            return None;
        }
        let own = &self.records[place];
        Some(LentSubscriber {
            subscriber: &own.subscriber,
            slept: clock - own.touched,
        })
    }

    /// What an event would leave and send for a slot; nothing changes.
    pub fn prepare(
        &mut self,
        slot: Slot,
        event: &SoloEvent,
        world: &EnbWorld,
    ) -> Result<Box<Draft>, AllocError>
        requires { slot < length self.old.subscribers }
        ensures step { IfOk result (λ d. step_at slot (item_of event.now world.now) self.old.subscribers ≡ Some d.value) }
        ensures onward { IfOk result (λ d. IsOnwardAt self.old.subscribers (record { slot = slot; solo = d.value.solo })) }
        ensures same { self.new ≡ self.old }
    {
        let clock = self.clock;
        let place = slot.get() as usize;
        let own = &mut self.records[place];
        own.wake(clock);
        let spare = self.spares.take(own.subscriber.has_context());
        own.subscriber.prepare(spare, event, world)
    }

    /// The state of a slot is the one that was prepared; answers the countdowns that it had until now. Takes no memory.
    pub fn settle(&mut self, stepped: Stepped) -> (Option<u64>, Option<u64>)
        requires slot { stepped.slot < length self.old.subscribers }
        requires counting { IsCounting stepped.solo }
        requires onward { IsOnwardAt self.old.subscribers stepped }
        ensures clock { self.new.clock ≡ self.old.clock }
        ensures subscribers { self.new.subscribers ≡ with_solo stepped.slot stepped.solo self.old.subscribers }
        ensures before { countdowns_at stepped.slot self.old.subscribers ≡ Some result }
    {
        let spares = &mut self.spares;
        settle_one(&mut self.records, self.clock, spares, stepped)
    }

    /// The subscriber of a slot has one vector more, after all others; no other is touched. Full where 64 of its vectors aren't
    /// spent or 2^62 were given, then NoMemory where room was refused; then each is as it was, and the secrets of the vector are
    /// overwritten.
    pub fn give(&mut self, alloc: Global, slot: Slot, vector: Vector) -> Result<(), ProvisionFault>
        requires { slot < length self.old.subscribers }
        ensures takes { TakesOneVector slot vector self.old.subscribers result self.new.subscribers }
        ensures clock { self.new.clock ≡ self.old.clock }
    {
        give_one(&mut self.records, self.clock, alloc, slot, vector)
    }

    /// The states of slots are those that were prepared, one after the other. Takes no memory.
    pub fn settle_all(&mut self, stepped: Vec<Stepped>)
        requires slots { Every (λ x. x.slot < length self.old.subscribers) stepped.items }
        requires counting { Every (λ x. IsCounting x.solo) stepped.items }
        requires onward { AreOnward self.old.subscribers stepped.items }
        ensures clock { self.new.clock ≡ self.old.clock }
        ensures subscribers { self.new.subscribers ≡ with_stepped stepped.items self.old.subscribers }
    {
        for one in stepped {
            self.settle(one);
        }
    }

    /// One tick: those who are due have the state that was prepared, all others have a tick less. Only those who are due are
    /// touched. Takes no memory.
    pub fn tick(&mut self, stepped: Vec<Stepped>)
        requires clock { self.old.clock < 2 ^ 62 }
        requires due { slots_stepped stepped.items ≡ due_slots self.old.subscribers }
        requires counting { Every (λ x. IsCounting x.solo) stepped.items }
        requires onward { AreOnward self.old.subscribers stepped.items }
        ensures clock { self.new.clock ≡ self.old.clock + 1 }
        ensures subscribers { self.new.subscribers ≡ tick_settled stepped.items self.old.subscribers }
    {
        let next = self.clock + 1;
        settle_all(&mut self.records, next, stepped);
        self.clock = next;
    }
}
