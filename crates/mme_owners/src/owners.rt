//! Strangers and subscribers, the one queue of their countdowns, and the one map of their associations.

ghost use Rattle.std.specs.Prelude.{◌≡◌, ◌+◌, ◌*◌, ◌<◌, ◌≤◌, ◌==◌, ◌^◌, ◌++◌, ◌∷◌, ◌↔◌, ℕ, [], false, length, map, slice_get, if◌then◌else◌, IfOk, IsSome, None, OnErr, OnOk, Some, option_map, true};
ghost use Rattle.identity_slots.specs.Ids.{slots, station_in};
ghost use Rattle.mme_tables.specs.Whereabouts.{nowhere, waits_at, NoneConnected};
ghost use Rattle.mme_types.specs.Events.{ConnectionsGone, Message, StationGone, message_lists};
ghost use Rattle.emm_machine.specs.Still.{still};
ghost use Rattle.emm_machine.specs.Ticks.{countdowns};
ghost use Rattle.emm_machine.specs.Words.{states_of};
ghost use Rattle.sorted_list.specs.Ordered.{Every, Rising, without};
ghost use Rattle.sorted_list.specs.Sorted.{lowest_from};
ghost use Rattle.stranger_machine.specs.Machine.{closes, is_of_station, noted_station};
ghost use Rattle.stranger_machine.specs.Table.{known_id, noted, stranger_at, with_stranger};
ghost use Rattle.stranger_machine.specs.Turns.{after_of};
ghost use Rattle.stranger_machine.specs.declared.turn.Notice.TheVariants.{Tick};
ghost use Rattle.mme_tables.specs.Waiting.{due_ids};
ghost use Rattle.mme_owners.specs.Subscribers.{due_slots, one_less, slots_stepped, tick_settled, with_solo, with_stepped, AreCounting, AreOnward, IsCounting, IsOnwardAt};
ghost use Rattle.mme_owners.specs.Touched.{all_whereabouts, touched_slots, whereabouts, KeepsPlace};
ghost use Rattle.mme_owners.specs.Noticed.{slots_noticed, OutlivesNotice};
ghost use Rattle.mme_owners.specs.Given.{TakesOneVector};
ghost use Rattle.mme_owners.specs.Lent.{lent_now};
ghost use Rattle.mme_owners.specs.Owners.{with_one, IsFitIf, IsFreeIf, IsWaitAfter, NobodyIsDue};
ghost use Rattle.mme_owners.specs.Placed.{AreApart, IsOn, NoneWaitsIf};

use crate::lent::LentSubscriber;
use crate::noticed::note;
use crate::placing::{leave, place, place_all, place_of, vacate};
use crate::records::Records;
use crate::stepped::Stepped;
use emm_machine::{States, Subscriber, connection_of};
use identity_slots::{AssociationId, ProvisionFault, Slot, Vector};
use mme_tables::{Connections, Due};
use mme_types::{Connection, StationNumber, UeBody, UeMessage};
use s1ap_elements::AssociationToReset;
use std::alloc::{AllocError, Global};
use std::marker::Model;
use stranger_machine::{After, Notice};

/// Strangers and subscribers; one queue has exactly the countdowns that run (`AreRecords`), and one map the associations
/// (`ArePlaced`). `is_due` says whether the next tick ends a countdown, `due` gives whose; `pass` is a tick that ends none.
/// `is_still` says whether a look tells that a message changes nothing; `concerned` and `listed` answer, likewise, the slots that
/// the loss of a station, or its RESET of a part, may change (`touched_slots`). `settle`, `settle_turn`, `settle_noticed` and
/// `tick` take no memory if there is room, except for a new stranger and to close what a notice ends; they take countdowns of 1
/// to MOBILE_REACHABLE_TICKS and states that ask for no spent vector (`AreOnward`), as all prepared ones are.
///
/// A contract sees the clock, each stranger and each subscriber as it is now, and for how many countdowns and changes of
/// associations there is room.
#[derive(Drop)]
pub struct Owners {
    /// The records of both, with the queue.
    pub records: Records,
    connections: Connections,
}

impl Model for Owners {
    ghost use Rattle.mme_owners.specs.Owners.{OwnersView};
    ghost use Rattle.mme_owners.specs.Placed.{ArePlaced};

    ghost Value = { OwnersView };

    ghost view = { λ t. record {
      clock = t.records.clock;
      strangers = t.records.strangers;
      subscribers = t.records.subscribers;
      room = t.records.room;
      places = t.connections.room;
    } };

    ghost invariant = { λ t. ArePlaced t.records.strangers t.records.subscribers t.connections };
}

// The state of the one that a stranger calls, if it calls one, is what was prepared, and so is the place of its phone. Takes no
// memory.
fn settle_called(records: &mut Records, connections: &mut Connections, called: Option<Stepped>)
    requires many { connections.old.whereabouts ≡ all_whereabouts records.old.subscribers }
    requires fits { IsFitIf records.old.subscribers called }
    requires free { IsFreeIf records.old.subscribers called }
    requires alone { NoneWaitsIf called connections.old.associations }
    requires room { 2 ≤ records.old.room }
    requires places { 0 < connections.old.room }
    ensures clock { records.new.clock ≡ records.old.clock }
    ensures strangers { records.new.strangers ≡ records.old.strangers }
    ensures subscribers { records.new.subscribers ≡ with_one called records.old.subscribers }
    ensures phones { connections.new.whereabouts ≡ all_whereabouts records.new.subscribers }
    ensures waits { (id : ℕ) → waits_at id connections.new.associations ≡ waits_at id connections.old.associations }
    ensures places { connections.old.room ≤ connections.new.room + 1 }
{
    if let Some(stepped) = called {
        place(connections, stepped.slot(), stepped.solo());
        records.settle(stepped);
    }
}

// A stranger waits where it is said, if it waits. Takes no memory.
fn begin_wait(connections: &mut Connections, id: AssociationId, place: Option<Connection>)
    requires own { IsOn id place }
    requires free { IsSome place → NoneConnected id connections.old.whereabouts }
    requires alone { waits_at id connections.old.associations ≡ None }
    requires places { 0 < connections.old.room }
    ensures phones { connections.new.whereabouts ≡ connections.old.whereabouts }
    ensures waits { (other : ℕ) → waits_at other connections.new.associations
        ≡ (if id == other then place else waits_at other connections.old.associations) }
{
    if let Some(place) = place {
        connections.begin_wait(place);
    }
}

impl Owners {
    /// Nobody, at this clock of at most 2^62; takes no memory.
    pub fn new(alloc: Global, clock: u64) -> Owners
        requires { clock ≤ 2 ^ 62 }
        ensures clock { result.clock ≡ clock }
        ensures strangers { result.strangers ≡ [] }
        ensures subscribers { result.subscribers ≡ [] }
    {
        let records = Records::new(alloc, clock);
        let connections = Connections::new(alloc);
        Owners {
            records,
            connections,
        }
    }

    /// A subscriber of whom no countdown runs and whose phone is nowhere has the next slot. Refused, all is as it was.
    pub fn push(&mut self, subscriber: Subscriber) -> Result<(), AllocError>
        requires slots { length self.old.subscribers < slots }
        requires off { countdowns subscriber.solo ≡ (None, None) }
        requires away { whereabouts subscriber.solo ≡ nowhere }
        ensures clock { self.new.clock ≡ self.old.clock }
        ensures strangers { self.new.strangers ≡ self.old.strangers }
        ensures ok { OnOk result (self.new.subscribers ≡ self.old.subscribers ++ subscriber ∷ []) }
        ensures err { OnErr result (self.new ≡ self.old) }
    {
        self.records.push(subscriber, &mut self.connections)
    }

    /// The subscriber of a slot has one vector more, after all others; no other is touched. Full where 64 of its vectors aren't
    /// spent or 2^62 were given, then NoMemory where room was refused; then all is as it was, and the secrets of the vector are
    /// overwritten.
    pub fn give(&mut self, alloc: Global, slot: Slot, vector: Vector) -> Result<(), ProvisionFault>
        requires { slot < length self.old.subscribers }
        ensures takes { TakesOneVector slot vector self.old.subscribers result self.new.subscribers }
        ensures rest { self.new ≡ record self.old { subscribers = self.new.subscribers } }
    {
        self.records.give(alloc, slot, vector)
    }

    /// How many subscribers there are. Each countdown of theirs that runs has from 1 to MOBILE_REACHABLE_TICKS left.
    pub fn len(&self) -> usize
        ensures value { result ≡ length self.now.subscribers }
        ensures few { length self.now.subscribers ≤ slots }
        ensures counting { AreCounting self.now.subscribers }
    {
        self.records.len()
    }

    /// The states of a slot, if it is somebody's; takes no memory.
    pub fn states(&self, slot: Slot) -> Option<States>
        ensures { result ≡ option_map (λ w. states_of w.solo) (slice_get self.now.subscribers slot) }
    {
        self.records.states(slot)
    }

    /// Lends the subscriber of a slot, if there is one, in its last stored state with the number of ticks since, which alone make
    /// its current state (`lent_now`).
    ///
    /// Takes no memory.
    pub fn look<'a>(&'a self, slot: Slot) -> Option<LentSubscriber<'a>>
        ensures { option_map lent_now result ≡ slice_get self.entry.now.subscribers slot }
    {
        self.records.subscribers.look(slot)
    }

    /// Whether a message leaves a slot's subscriber as it is and nothing is sent for it (`still`): so UE CONTEXT RELEASE COMPLETE,
    /// and what a station only reports on the phone's connection, which is found by its MME UE S1AP ID. Takes no memory.
    pub fn is_still(&self, slot: Slot, message: &UeMessage<&[u8]>) -> bool
        requires { slot < length self.now.subscribers }
        ensures { option_map (λ w. still w.solo (Message (message_lists message.now))) (slice_get self.now.subscribers slot)
            ≡ Some result }
    {
        match message.body {
            UeBody::UeContextReleaseComplete => true,
            UeBody::Notice => self.connections.has(slot, &connection_of(message)),
            UeBody::Uplink { nas: _, tai: _ }
            | UeBody::UeContextReleaseRequest { cause: _ }
            | UeBody::InitialContextSetupFailure
            | UeBody::PathSwitch => false,
        }
    }

    /// Whether the next tick ends somebody's countdown. Only the front of the queue is looked at; takes no memory.
    pub fn is_due(&self) -> bool
        ensures { (result ≡ false) ↔ NobodyIsDue self.now.strangers self.now.subscribers }
    {
        self.records.is_due()
    }

    /// Who has a countdown that the next tick ends: strangers by rising id, subscribers by rising slot. Only the front of the queue
    /// is looked at.
    pub fn due(&self) -> Result<Due, AllocError>
        ensures strangers { IfOk result (λ due. due.strangers.items ≡ due_ids self.now.strangers) }
        ensures slots { IfOk result (λ due. due.slots.items ≡ due_slots self.now.subscribers) }
    {
        self.records.due()
    }

    /// The slots of those whom the loss of a station may touch, by rising slot: who is connected there, or is paged. It leaves all
    /// others as they are. Only those who are answered are looked at.
    pub fn concerned(&self, station: StationNumber) -> Result<Vec<Slot>, AllocError>
        ensures { IfOk result (λ touched. touched.items ≡ touched_slots (StationGone station) self.now.subscribers) }
    {
        self.connections.concerned(station)
    }

    /// The slots of those whose connection a RESET of a part of a station means, by rising slot (TS 36.413 clause 8.7.1.2.2). It
    /// leaves all others as they are. Each item is looked up.
    pub fn listed(
        &self,
        station: StationNumber,
        items: &[AssociationToReset],
    ) -> Result<Vec<Slot>, AllocError>
        ensures { IfOk result (λ touched. touched.items ≡ touched_slots (ConnectionsGone station items.now) self.now.subscribers) }
    {
        self.connections.listed(station, items)
    }

    /// Room for T3470 of `strangers` strangers and for `steps` steps of subscribers. Refused, all but the room is as it was.
    pub fn reserve(&mut self, strangers: usize, steps: usize) -> Result<(), AllocError>
        requires strangers { strangers < 2 ^ 63 }
        requires steps { steps ≤ slots }
        ensures clock { self.new.clock ≡ self.old.clock }
        ensures strangers { self.new.strangers ≡ self.old.strangers }
        ensures subscribers { self.new.subscribers ≡ self.old.subscribers }
        ensures room { OnOk result (strangers + 2 * steps ≤ self.new.room) }
        ensures places { OnOk result (strangers + steps ≤ self.new.places) }
    {
        self.records.reserve(strangers, steps)?;
        self.connections.reserve(strangers + steps)
    }

    /// The state of a slot is the one that was prepared, where there is room, and with it no two have one id. Takes no memory.
    pub fn settle(&mut self, stepped: Stepped)
        requires slot { stepped.slot < length self.old.subscribers }
        requires apart { AreApart self.old.strangers (with_solo stepped.slot stepped.solo self.old.subscribers) }
        requires counting { IsCounting stepped.solo }
        requires onward { IsOnwardAt self.old.subscribers stepped }
        requires room { 2 ≤ self.old.room }
        requires places { 0 < self.old.places }
        ensures clock { self.new.clock ≡ self.old.clock }
        ensures strangers { self.new.strangers ≡ self.old.strangers }
        ensures subscribers { self.new.subscribers ≡ with_solo stepped.slot stepped.solo self.old.subscribers }
    {
        settle_called(&mut self.records, &mut self.connections, Some(stepped));
    }

    /// All have taken a notice of a station: it closes strangers, and those whom it touches have the states that were prepared, in
    /// which each is connected as it was, where it isn't ended, or no longer. The associations that it ends are closed at once, and
    /// that alone takes memory; refused, all are as they were.
    pub fn settle_noticed(
        &mut self,
        notice: &Notice,
        stepped: Vec<Stepped>,
    ) -> Result<(), AllocError>
        requires station { is_of_station notice.now ≡ true }
        requires slots { slots_stepped stepped.items ≡ slots_noticed notice.now self.old.subscribers }
        requires kept { Every (OutlivesNotice notice.now self.old.subscribers) stepped.items }
        requires counting { Every (λ x. IsCounting x.solo) stepped.items }
        requires onward { AreOnward self.old.subscribers stepped.items }
        requires room { 2 * length stepped.items ≤ self.old.room }
        requires places { length stepped.items ≤ self.old.places }
        ensures clock { self.new.clock ≡ self.old.clock }
        ensures strangers { OnOk result (self.new.strangers ≡ noted notice.now self.old.strangers) }
        ensures subscribers { OnOk result (self.new.subscribers ≡ with_stepped stepped.items self.old.subscribers) }
        ensures err { OnErr result (self.new ≡ self.old) }
    {
        self.records.ids_rise();
        vacate(&mut self.connections, notice)?;
        let states = stepped.as_slice();
        place_all(&mut self.connections, states);
        self.records.settle_all(stepped);
        note(&mut self.records, notice);
        Ok(())
    }

    /// A stranger is what was prepared, and the subscriber that it calls, where there is room, and with both no two have one id:
    /// where the stranger is claimed, its association is closed before its subscriber has it, and where it waits, opened after the
    /// subscriber who held the id has lost it. Refused, all are as they were.
    pub fn settle_turn(
        &mut self,
        id: AssociationId,
        after: After,
        called: Option<Stepped>,
    ) -> Result<(), AllocError>
        requires wait { IsWaitAfter id after }
        requires fits { IsFitIf self.old.subscribers called }
        requires apart { AreApart (with_stranger id (after_of after (stranger_at id self.old.strangers)) self.old.strangers)
            (with_one called self.old.subscribers) }
        requires room { 3 ≤ self.old.room }
        requires places { 2 ≤ self.old.places }
        ensures clock { self.new.clock ≡ self.old.clock }
        ensures strangers { OnOk result
            (self.new.strangers ≡ with_stranger id (after_of after (stranger_at id self.old.strangers)) self.old.strangers) }
        ensures subscribers { OnOk result (self.new.subscribers ≡ with_one called self.old.subscribers) }
        ensures err { OnErr result (self.new ≡ self.old) }
    {
        self.records.ids_rise();
        match after {
            After::Stays => settle_called(&mut self.records, &mut self.connections, called),
            After::Closed => {
                self.close(id);
                settle_called(&mut self.records, &mut self.connections, called);
            }
            After::Is(stranger) => {
                let place = place_of(id, &stranger);
                self.records.put(id, stranger)?;
                let connections = &mut self.connections;
                connections.end_wait(id);
                settle_called(&mut self.records, connections, called);
                begin_wait(connections, id, place);
            }
        }
        Ok(())
    }

    // The stranger with an id is closed, T3470 stops, if it ran, and so does its association.
    fn close(&mut self, id: AssociationId)
        ensures clock { self.new.clock ≡ self.old.clock }
        ensures strangers { self.new.strangers ≡ without known_id id self.old.strangers }
        ensures subscribers { self.new.subscribers ≡ self.old.subscribers }
        ensures room { self.old.room ≤ self.new.room }
        ensures places { self.old.places ≤ self.new.places }
    {
        self.records.ids_rise();
        self.records.close(id);
        self.connections.end_wait(id);
    }

    /// One tick, where those are the strangers whose T3470 it ends, and each subscriber that has a countdown which it ends has the
    /// state that was prepared, in which it is connected as it was, or no longer; all others have a tick less. Only those who are
    /// due are touched. Takes no memory.
    pub fn tick(&mut self, due: Vec<AssociationId>, stepped: Vec<Stepped>)
        requires clock { self.old.clock < 2 ^ 62 }
        requires strangers { due.items ≡ due_ids self.old.strangers }
        requires slots { slots_stepped stepped.items ≡ due_slots self.old.subscribers }
        requires kept { Every (KeepsPlace self.old.subscribers) stepped.items }
        requires counting { Every (λ x. IsCounting x.solo) stepped.items }
        requires onward { AreOnward self.old.subscribers stepped.items }
        requires room { length due.items + 2 * length stepped.items ≤ self.old.room }
        requires places { length stepped.items ≤ self.old.places }
        ensures clock { self.new.clock ≡ self.old.clock + 1 }
        ensures strangers { self.new.strangers ≡ noted Tick self.old.strangers }
        ensures subscribers { self.new.subscribers ≡ tick_settled stepped.items self.old.subscribers }
    {
        self.records.ids_rise();
        place_all(&mut self.connections, stepped.as_slice());
        let ended = due.as_slice();
        self.records.tick(ended, stepped);
        leave(&mut self.connections, &self.records, ended);
    }

    /// One tick that ends nobody's countdown: each that runs has a tick less. Nobody is touched; takes no memory. The strangers'
    /// ids rise.
    pub fn pass(&mut self)
        requires clock { self.old.clock < 2 ^ 62 }
        requires nobody { NobodyIsDue self.old.strangers self.old.subscribers }
        ensures clock { self.new.clock ≡ self.old.clock + 1 }
        ensures strangers { self.new.strangers ≡ noted Tick self.old.strangers }
        ensures subscribers { self.new.subscribers ≡ map one_less self.old.subscribers }
        ensures order { Rising known_id self.old.strangers }
    {
        self.records.ids_rise();
        self.records.pass();
    }
}
