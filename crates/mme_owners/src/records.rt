//! Strangers and subscribers, and the one queue of their countdowns.

ghost use Rattle.std.specs.Prelude.{◌≡◌, ◌+◌, ◌*◌, ◌<◌, ◌≤◌, ◌^◌, ◌++◌, ◌∷◌, ◌↔◌, [], false, length, map, slice_get, IfOk, IsSome, None, OnErr, OnOk, option_map, true};
ghost use Rattle.identity_slots.specs.Ids.{slots};
ghost use Rattle.mme_tables.specs.Whereabouts.{nowhere};
ghost use Rattle.emm_machine.specs.Ticks.{countdowns};
ghost use Rattle.emm_machine.specs.Words.{states_of};
ghost use Rattle.sorted_list.specs.Ordered.{Every, Rising, put, without};
ghost use Rattle.sorted_list.specs.Sorted.{lowest_from};
ghost use Rattle.stranger_machine.specs.Machine.{closes, is_of_station};
ghost use Rattle.stranger_machine.specs.Table.{known_id, noted, stranger_at};
ghost use Rattle.stranger_machine.specs.declared.turn.Notice.TheVariants.{Tick};
ghost use Rattle.mme_tables.specs.Waiting.{due_ids, wait_at, wait_of};
ghost use Rattle.mme_owners.specs.Subscribers.{due_slots, one_less, slots_stepped, tick_settled, with_solo, with_stepped, AreCounting, AreOnward, IsCounting, IsOnwardAt};
ghost use Rattle.mme_owners.specs.Given.{TakesOneVector};
ghost use Rattle.mme_owners.specs.Owners.{IsStart, NobodyIsDue};

use crate::retiming::{restart, retime_all};
use crate::stepped::Stepped;
use crate::subscribers::Subscribers;
use emm_machine::{States, Subscriber};
use identity_slots::{AssociationId, ProvisionFault, Slot, Vector};
use mme_tables::{Connections, Due, Strangers, change_wait, find_due, retime, stop_wait, wait_of};
use std::alloc::{AllocError, Global};
use std::marker::Model;
use stranger_machine::{Notice, Stranger};
use timer_queue::Timers;

/// Strangers and subscribers, and the queue of their countdowns; a contract sees the clock, each stranger and each subscriber as it
/// is now, and for how many countdowns there is room. The tables are lent apart, so that a step of a subscriber can be worked out
/// while the stranger that calls it is lent; whoever changes one owes that the queue still has its countdowns.
#[derive(Drop)]
pub struct Records {
    /// The strangers that aren't closed.
    pub strangers: Strangers,
    /// The subscribers, by slot.
    pub subscribers: Subscribers,
    timers: Timers,
    alloc: Global,
}

impl Model for Records {
    ghost use Rattle.mme_owners.specs.Owners.{RecordsView, AreRecords};

    ghost Value = { RecordsView };

    ghost view = { λ t. record {
      clock = t.timers.clock;
      strangers = t.strangers.strangers;
      subscribers = t.subscribers.subscribers;
      room = t.timers.room;
    } };

    ghost invariant = { λ t. AreRecords t.timers t.strangers t.subscribers };
}

// An id has 32 bits.
fn id_is_small(id: AssociationId)
    ensures { id < 2 ^ 32 }
{
    // (a contract has the range of a number that is read)
    let _ = id.get();
}

impl Records {
    /// Nobody, at this clock of at most 2^62; takes no memory.
    pub(crate) fn new(alloc: Global, clock: u64) -> Records
        requires { clock ≤ 2 ^ 62 }
        ensures clock { result.clock ≡ clock }
        ensures strangers { result.strangers ≡ [] }
        ensures subscribers { result.subscribers ≡ [] }
    {
        let strangers = Strangers::new(alloc, clock);
        let subscribers = Subscribers::new(alloc, clock);
        let timers = Timers::new(alloc, clock);
        Records {
            strangers,
            subscribers,
            timers,
            alloc,
        }
    }

    /// A subscriber of whom no countdown runs has the next slot, and so has its phone, which is nowhere. Refused, all is as it was.
    pub(crate) fn push(
        &mut self,
        subscriber: Subscriber,
        connections: &mut Connections,
    ) -> Result<(), AllocError>
        requires slots { length self.old.subscribers < slots }
        requires off { countdowns subscriber.solo ≡ (None, None) }
        requires many { length connections.old.whereabouts ≡ length self.old.subscribers }
        ensures clock { self.new.clock ≡ self.old.clock }
        ensures strangers { self.new.strangers ≡ self.old.strangers }
        ensures ok { OnOk result (self.new.subscribers ≡ self.old.subscribers ++ subscriber ∷ []) }
        ensures phone { OnOk result (connections.new.whereabouts ≡ connections.old.whereabouts ++ nowhere ∷ []) }
        ensures phone_strangers { connections.new.associations ≡ connections.old.associations }
        ensures phone_room { connections.new.room ≡ connections.old.room }
        ensures err { OnErr result (self.new ≡ self.old) }
        ensures same { OnErr result (connections.new ≡ connections.old) }
    {
        self.subscribers.push(subscriber, connections)
    }

    /// How many subscribers there are. Each countdown of theirs that runs has from 1 to MOBILE_REACHABLE_TICKS left.
    pub(crate) fn len(&self) -> usize
        ensures value { result ≡ length self.now.subscribers }
        ensures few { length self.now.subscribers ≤ slots }
        ensures counting { AreCounting self.now.subscribers }
    {
        self.subscribers.len()
    }

    /// The strangers' ids rise.
    pub(crate) fn ids_rise(&self)
        ensures { Rising known_id self.now.strangers }
    {
        self.strangers.clock();
    }

    /// The lowest id of a stranger of at least `least`. The ids rise.
    pub(crate) fn first_from(&self, least: u64) -> Option<AssociationId>
        ensures value { result ≡ option_map known_id (lowest_from known_id least self.now.strangers) }
        ensures order { Rising known_id self.now.strangers }
    {
        self.strangers.first_from(least)
    }

    /// Whether a notice of a station closes the stranger with an id, unless it is closed.
    pub(crate) fn is_closed_by(&self, id: AssociationId, notice: &Notice) -> bool
        requires { is_of_station notice.now ≡ true }
        ensures { IsSome (stranger_at id self.now.strangers) → result ≡ closes id notice.now }
    {
        self.strangers.is_closed_by(id, notice)
    }

    /// The ticks that T3470 of the stranger with an id has left, if it waits. Takes no memory.
    pub(crate) fn left(&self, id: AssociationId) -> Option<u32>
        ensures { result ≡ wait_at id self.now.strangers }
    {
        self.strangers.left(id)
    }

    /// The states of a slot, if it is somebody's; takes no memory.
    pub(crate) fn states(&self, slot: Slot) -> Option<States>
        ensures { result ≡ option_map (λ w. states_of w.solo) (slice_get self.now.subscribers slot) }
    {
        self.subscribers.states(slot)
    }

    /// Whether the next tick ends somebody's countdown. Only the front of the queue is looked at; takes no memory.
    pub(crate) fn is_due(&self) -> bool
        ensures { (result ≡ false) ↔ NobodyIsDue self.now.strangers self.now.subscribers }
    {
        self.timers.is_due()
    }

    /// Who has a countdown that the next tick ends: strangers by rising id, subscribers by rising slot. Only the front of the queue
    /// is looked at.
    pub(crate) fn due(&self) -> Result<Due, AllocError>
        ensures strangers { IfOk result (λ due. due.strangers.items ≡ due_ids self.now.strangers) }
        ensures slots { IfOk result (λ due. due.slots.items ≡ due_slots self.now.subscribers) }
    {
        // (that there are no more of them than slots)
        let _ = self.subscribers.len();
        find_due(self.alloc, &self.timers)
    }

    /// Room for T3470 of `strangers` strangers and for `steps` steps of subscribers. Refused, all but the room is as it was.
    pub(crate) fn reserve(&mut self, strangers: usize, steps: usize) -> Result<(), AllocError>
        requires strangers { strangers < 2 ^ 63 }
        requires steps { steps ≤ slots }
        ensures clock { self.new.clock ≡ self.old.clock }
        ensures strangers { self.new.strangers ≡ self.old.strangers }
        ensures subscribers { self.new.subscribers ≡ self.old.subscribers }
        ensures room { OnOk result (strangers + 2 * steps ≤ self.new.room) }
        ensures kept { self.old.room ≤ self.new.room }
    {
        self.timers.reserve(strangers + 2 * steps)
    }

    /// The state of a slot is the one that was prepared, where there is room. Takes no memory.
    pub(crate) fn settle(&mut self, stepped: Stepped)
        requires slot { stepped.slot < length self.old.subscribers }
        requires counting { IsCounting stepped.solo }
        requires onward { IsOnwardAt self.old.subscribers stepped }
        requires room { 2 ≤ self.old.room }
        ensures clock { self.new.clock ≡ self.old.clock }
        ensures strangers { self.new.strangers ≡ self.old.strangers }
        ensures subscribers { self.new.subscribers ≡ with_solo stepped.slot stepped.solo self.old.subscribers }
    {
        // (that there are no more of them than slots)
        let _ = self.subscribers.len();
        let slot = stepped.slot();
        let left = stepped.countdowns();
        let before = self.subscribers.settle(stepped);
        retime(&mut self.timers, slot.get(), before, left);
    }

    /// The states of slots are those that were prepared, one after the other, where there is room. Takes no memory.
    pub(crate) fn settle_all(&mut self, stepped: Vec<Stepped>)
        requires slots { Every (λ x. x.slot < length self.old.subscribers) stepped.items }
        requires counting { Every (λ x. IsCounting x.solo) stepped.items }
        requires onward { AreOnward self.old.subscribers stepped.items }
        requires room { 2 * length stepped.items ≤ self.old.room }
        ensures clock { self.new.clock ≡ self.old.clock }
        ensures strangers { self.new.strangers ≡ self.old.strangers }
        ensures subscribers { self.new.subscribers ≡ with_stepped stepped.items self.old.subscribers }
    {
        // (that there are no more of them than slots)
        let _ = self.subscribers.len();
        retime_all(&mut self.timers, stepped.as_slice());
        self.subscribers.settle_all(stepped);
    }

    /// The subscriber of a slot has one vector more, after all others; no other is touched. Full where 64 of its vectors aren't
    /// spent or 2^62 were given, then NoMemory where room was refused; then all is as it was, and the secrets of the vector are
    /// overwritten.
    pub(crate) fn give(
        &mut self,
        alloc: Global,
        slot: Slot,
        vector: Vector,
    ) -> Result<(), ProvisionFault>
        requires { slot < length self.old.subscribers }
        ensures takes { TakesOneVector slot vector self.old.subscribers result self.new.subscribers }
        ensures rest { self.new ≡ record self.old { subscribers = self.new.subscribers } }
    {
        self.subscribers.give(alloc, slot, vector)
    }

    /// The stranger with an id is closed, and T3470 stops, if it ran.
    pub(crate) fn close(&mut self, id: AssociationId)
        ensures clock { self.new.clock ≡ self.old.clock }
        ensures strangers { self.new.strangers ≡ without known_id id self.old.strangers }
        ensures subscribers { self.new.subscribers ≡ self.old.subscribers }
        ensures room { self.old.room ≤ self.new.room }
    {
        // (that there are no more of them than slots)
        let _ = self.subscribers.len();
        let before = self.strangers.left(id);
        self.strangers.close(id);
        stop_wait(&mut self.timers, id, before);
    }

    /// The stranger with an id is that, and T3470 runs as it says, where there is room for a countdown; refused, all are as they
    /// were.
    pub(crate) fn put(&mut self, id: AssociationId, stranger: Stranger) -> Result<(), AllocError>
        requires wait { IsStart id (wait_of stranger) }
        requires room { 1 ≤ self.old.room }
        ensures clock { self.new.clock ≡ self.old.clock }
        ensures ok { OnOk result (self.new.strangers ≡ put known_id (record { id = id; stranger = stranger }) self.old.strangers) }
        ensures subscribers { self.new.subscribers ≡ self.old.subscribers }
        ensures room { self.old.room ≤ self.new.room + 1 }
        ensures err { OnErr result (self.new ≡ self.old) }
    {
        // (that there are no more of them than slots, and that the strangers' ids rise)
        let _ = self.subscribers.len();
        let _ = self.strangers.clock();
        id_is_small(id);
        let before = self.strangers.left(id);
        let left = wait_of(&stranger);
        self.strangers.put(id, stranger)?;
        change_wait(&mut self.timers, id, before, left);
        Ok(())
    }

    /// One tick, where those are the strangers whose T3470 it ends, and each subscriber that has a countdown which it ends has the
    /// state that was prepared; all others have a tick less. Only those who are due are touched. Takes no memory.
    pub(crate) fn tick(&mut self, due: &[AssociationId], stepped: Vec<Stepped>)
        requires clock { self.old.clock < 2 ^ 62 }
        requires strangers { due.now ≡ due_ids self.old.strangers }
        requires slots { slots_stepped stepped.items ≡ due_slots self.old.subscribers }
        requires counting { Every (λ x. IsCounting x.solo) stepped.items }
        requires onward { AreOnward self.old.subscribers stepped.items }
        requires room { length due.now + 2 * length stepped.items ≤ self.old.room }
        ensures clock { self.new.clock ≡ self.old.clock + 1 }
        ensures strangers { self.new.strangers ≡ noted Tick self.old.strangers }
        ensures subscribers { self.new.subscribers ≡ tick_settled stepped.items self.old.subscribers }
    {
        // (that there are no more of them than slots, and that the strangers' ids rise)
        let _ = self.subscribers.len();
        let _ = self.strangers.clock();
        self.timers.pass();
        self.strangers.tick(due);
        restart(&mut self.timers, &self.strangers, due);
        retime_all(&mut self.timers, stepped.as_slice());
        self.subscribers.tick(stepped);
    }

    /// One tick that ends nobody's countdown: each that runs has a tick less. Nobody is touched; takes no memory.
    pub(crate) fn pass(&mut self)
        requires clock { self.old.clock < 2 ^ 62 }
        requires nobody { NobodyIsDue self.old.strangers self.old.subscribers }
        ensures clock { self.new.clock ≡ self.old.clock + 1 }
        ensures strangers { self.new.strangers ≡ noted Tick self.old.strangers }
        ensures subscribers { self.new.subscribers ≡ map one_less self.old.subscribers }
    {
        // (that there are no more of them than slots, and that the strangers' ids rise)
        let _ = self.subscribers.len();
        let _ = self.strangers.clock();
        let timers = &mut self.timers;
        timers.pass();
        self.strangers.tick(&[]);
        self.subscribers.tick(Vec::new(self.alloc));
    }
}
