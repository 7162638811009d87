//! The MME.

ghost use Rattle.std.specs.Prelude.{◌≡◌, ◌≢◌, ◌⊎◌, ◌<◌, ◌≤◌, ◌+◌, ◌^◌, ◌↔◌, ℕ, [], length, slice_get, false, true, IfOk, IfErr, IfSome, IsNone, OnOk, OnErr, Ok, Err, Some, None};
ghost use Rattle.identity_slots.specs.Provisioned.{slot_of_imsi};
ghost use Rattle.s1ap_pdus.specs.Pdus.{decoded};
ghost use Rattle.mme_types.specs.Stations.{station_at};
ghost use Rattle.emm_machine.specs.SubscriberView.{SubscriberView};
ghost use Rattle.sorted_list.specs.Ordered.{Distinct, Every, Rising};
ghost use Rattle.stranger_machine.specs.Table.{known_id, stranger_at};
ghost use Rattle.mme_core.specs.declared.event.Event.{Event};
ghost use Rattle.mme_core.specs.declared.event.Event.TheVariants.{Tick};
ghost use Rattle.mme_core.specs.declared.event.StepFault.TheVariants.{NoMemory};
ghost use Rattle.mme_core.specs.Projection.{AllInOrder, AreInOrder, alone_after, is_slot, is_station, is_stranger, projection, silence, station_run, station_told, states_along, states_at, states_run, stranger_run, stranger_told, subscriber_told, told};
ghost use Rattle.mme_routing.specs.Outcomes.{outcome_of};
ghost use Rattle.mme_routing.specs.Seen.{destination_of, seen_outcome};
ghost use Rattle.mme_answering.specs.Prepares.{Prepares};
ghost use Rattle.association_table.specs.Table.{association_id};
ghost use Rattle.laws_apart.specs.Associations.{associations};
ghost use Rattle.mme_core.specs.Apart.{AreApart};
ghost use Rattle.mme_core.specs.EndingRuns.{IsEndingRun};
ghost use Rattle.mme_core.specs.FreshRuns.{AreInUse, IsFreshRun};
ghost use Rattle.mme_core.specs.GuardedRuns.{IsGuardedRun};
ghost use Rattle.mme_core.specs.Kept.{IsKnownTimed};
ghost use Rattle.mme_core.specs.Faults.{HasEachFault};
ghost use Rattle.mme_core.specs.Quiet.{IsQuiet};
ghost use Rattle.mme_core.specs.Ready.{IsRefused, LeadsTo, TakesEvent, ready_sight, ready_world};
ghost use Rattle.mme_answering.specs.Short.{AreShort};
ghost use Rattle.mme_core.specs.World.{clock_after, event_fault, events_taken, fresh_world, is_message, replies, replies_given, reply, slot_named, strangers_in, world_of, world_after, world_run};

use crate::config::Config;
use crate::event::{Event, StepFault};
use crate::laws::{ids_are_apart, worlds_are_kept};
use crate::provisioning::begin;
use crate::station::{settle_station, station_outs};
use emm_machine::{
    States, accepted_counts_are_fresh, sent_counts_are_fresh, vector_makes_one_context,
};
use identity_slots::{Provision, Slot};
use laws_apart::{associations_are_a_map, no_two_share_an_id};
use laws_subscriber::{
    clocks_are_kept, keys_go_to_the_proved, protected_forms_are_marked, registered_by_proof,
    silent_phones_end, soundness_is_kept, unproved_leaves,
};
use mme_answering::{Outs, Prepared, pass, prepare, settle};
use mme_owners::Owners;
use mme_routing::{Destination, Outcome, outcome_of};
use mme_types::{EnbWorld, SentOctets, SharedNetwork, StationNumber, StationState};
use nas_elements::Imsi;
use std::alloc::{AllocError, Global};
use std::marker::Model;
use std::mem;

/// The last tick of the clock.
const LAST_TICK: u64 = 1 << 62;

/// What an MME is but for its strangers and subscribers; a contract sees what every owner may see.
#[derive(Drop)]
pub(crate) struct Surroundings {
    pub(crate) config: Config,
    pub(crate) clock: u64,
    pub(crate) stations: EnbWorld,
    pub(crate) provision: Provision,
    // the octets of S1 SETUP RESPONSE, if it has a written form
    pub(crate) setup_response: Option<SentOctets>,
    // the network, as all subscribers share it
    pub(crate) shared: SharedNetwork,
    pub(crate) alloc: Global,
}

impl Model for Surroundings {
    ghost use Rattle.std.specs.Prelude.{◌≡◌, length};
    ghost use Rattle.mme_core.specs.Sight.{Sight};

    ghost Value = { Sight };

    ghost view = { λ s. record { config = s.config; clock = s.clock; stations = s.stations; profiles = s.provision.profiles } };

    ghost use Rattle.s1ap_pdus.specs.Pdus.{encoded};
    ghost use Rattle.mme_routing.specs.Outcomes.{setup_response as response_of};

    ghost invariant = { λ s. (length s.stations ≡ 128)
        × (s.setup_response ≡ encoded (response_of s.config.network))
        × (s.shared ≡ s.config.network) };
}

/// An MME with its stations, strangers and subscribers; a contract sees what every owner may see, the strangers that aren't
/// closed, and each subscriber.
#[derive(Drop)]
pub struct Mme {
    pub(crate) surroundings: Surroundings,
    pub(crate) owners: Owners,
    // room for what is sent next; what it has means nothing
    pub(crate) room: Outs,
}

impl Model for Mme {
    ghost use Rattle.std.specs.Prelude.{◌≤◌};
    ghost use Rattle.mme_core.specs.Apart.{AreApart};
    ghost use Rattle.mme_core.specs.Kept.{IsKept};
    ghost use Rattle.mme_core.specs.World.{World, world_of};

    ghost Value = { World };

    ghost view = { λ m. world_of m.surroundings m.owners };

    ghost invariant = { λ m. (m.owners.clock ≤ m.surroundings.clock)
        × IsKept (world_of m.surroundings m.owners)
        × AreApart (world_of m.surroundings m.owners) };
}

/// What an event makes of the station that it is of, if it is of one, and of the clock.
#[derive(Drop)]
pub(crate) struct Moves {
    station: Option<StationNumber>,
    state: Option<StationState>,
    clock: u64,
}

/// What an event that isn't refused leads to, before it is taken: what it makes of its station and the clock, what is to become of
/// those whom it goes to, and what is sent.
#[derive(Drop)]
pub(crate) struct Ready {
    moves: Moves,
    prepared: Prepared,
    outs: Outs,
}

impl Mme {
    /// An MME whose stations are down, whose strangers are closed and whose subscribers were never seen.
    pub fn new(alloc: Global, config: Config, provision: Provision) -> Result<Mme, AllocError>
        ensures { IfOk result (λ m. m ≡ fresh_world config provision) }
    {
        worlds_are_kept();
        ids_are_apart();
        let mut provision = provision;
        match begin(alloc, &config.network, &mut provision) {
            Ok(begun) => {
                let clock = config.clock;
                let surroundings = Surroundings {
                    config,
                    clock,
                    stations: begun.stations,
                    provision,
                    setup_response: begun.setup_response,
                    shared: begun.shared,
                    alloc,
                };
                Ok(Mme {
                    surroundings,
                    owners: begun.owners,
                    room: Outs::new(alloc),
                })
            }
            Err(fault) => {
                // (where the scope ended them, each part of them would be ended here)
                drop(provision);
                drop(config);
                Err(fault)
            }
        }
    }

    /// The slot of an IMSI, none exactly if it isn't provisioned.
    ///
    /// Takes no memory.
    pub fn slot_of_imsi(&self, imsi: Imsi) -> Option<Slot>
        ensures { result ≡ slot_of_imsi imsi self.now.sight.profiles }
    {
        self.surroundings.slot_of_imsi(imsi)
    }

    /// The states of a slot, none exactly if it isn't provisioned.
    ///
    /// Takes no memory.
    pub fn states(&self, slot: Slot) -> Option<States>
        ensures value { result ≡ states_at slot self.now }
        ensures none { IsNone result ↔ (length self.now.sight.profiles ≤ slot) }
    {
        self.owners.states(slot)
    }

    /// What always holds (`IsKept`): the strangers' ids rise, there are 128 stations and as many subscribers as profiles, each with
    /// its profile and the MME's network, each waiting stranger has ticks of T3470 left, no vector of a standing context can become
    /// one again, and each subscriber's state is sound, with the countdown of its phase alone. And no two phones share an
    /// association's id (`AreApart`): each stands once in the list of all associations.
    pub fn well_kept(&self)
        ensures strangers { Rising known_id self.now.strangers }
        ensures stations { length self.now.sight.stations ≡ 128 }
        ensures subscribers { length self.now.subscribers ≡ length self.now.sight.profiles }
        ensures in_use { AreInUse self.now.subscribers }
        ensures timed { Every IsKnownTimed self.now.strangers }
        ensures apart { AreApart self.now }
        ensures associations { Distinct association_id (associations self.now.strangers self.now.subscribers) }
    {
        associations_are_a_map();
        // (a contract has the invariant where a field is used)
        let _ = &self.surroundings;
    }

    /// One event: answers exactly its whole output (`reply`), in the order of owners, and leaves what `world_after` says; or
    /// answers the `StepFault` that is due, or lack of memory, and changes nothing. An event that is refused (the station is down,
    /// or up already, the clock is spent, nobody has the IMSI) has that fault whatever memory there is (`fault`). No message is
    /// longer than 16,388 octets (`short`).
    ///
    /// A tick that ends nobody's countdown is passed at once.
    pub fn step(&mut self, event: &Event<'_>) -> Result<Outs, StepFault>
        ensures reply { IfOk result (λ outs. reply self.old event.now ≡ Ok outs) }
        ensures after { OnOk result (self.new ≡ world_after self.old event.now) }
        ensures order { IfOk result (λ outs. AreInOrder outs) }
        ensures short { IfOk result (λ outs. AreShort outs) }
        ensures fault { IfSome (event_fault self.old.sight event.now) (λ fault. result ≡ Err fault) }
        ensures refused { IfErr result (λ fault. fault ≢ NoMemory → reply self.old event.now ≡ Err fault) }
        ensures err { OnErr result (self.new ≡ self.old) }
    {
        if self.is_quiet(event) {
            return Ok(self.pass());
        }
        match event {
            Event::In(_, _) => self.step_message(event),
            _ => self.step_without_message(event),
        }
    }

    /// Events in order, each by `step`, from any state: of every owner at once what `laws_mme::runs` says, of subscribers by
    /// `told`, `states`, `each_states` (EMM, ECM, ESM), `absent`, `fresh`, `guarded` and `ends`, of strangers by `strangers` and
    /// `stranger_states`, of stations by `stations` and `station_states`. By `order`, the station's outputs stand first, then
    /// strangers' by id, then subscribers' by slot, and nothing else is sent. A refused event has its fault whatever memory there
    /// is (`faults`).
    ///
    /// Room for all replies is made first, and a refused run has taken no event. Each event that is refused for another cause than
    /// memory has that fault for its reply.
    pub fn run(&mut self, events: &[Event]) -> Result<Vec<Result<Outs, StepFault>>, AllocError>
        ensures count { IfOk result (λ rs. length rs.items ≡ length events.now) }
        ensures replies { IfOk result (λ rs. replies_given rs.items ≡ replies self.old (events_taken events.now rs.items)) }
        ensures faults { IfOk result (λ rs. HasEachFault self.old events.now rs.items) }
        ensures after { IfOk result (λ rs. self.new ≡ world_run self.old (events_taken events.now rs.items)) }
        ensures told { IfOk result (λ rs. (slot : ℕ) (w : SubscriberView) → slice_get self.old.subscribers slot ≡ Some w →
            told (is_slot slot) (replies_given rs.items)
            ≡ subscriber_told w (projection slot self.old.sight (strangers_in self.old) (events_taken events.now rs.items))) }
        ensures fresh { IfOk result (λ rs. (slot : ℕ) (w : SubscriberView) → slice_get self.old.subscribers slot ≡ Some w →
            IsFreshRun w (projection slot self.old.sight (strangers_in self.old) (events_taken events.now rs.items))) }
        ensures guarded { IfOk result (λ rs. (slot : ℕ) (w : SubscriberView) → slice_get self.old.subscribers slot ≡ Some w →
            IsGuardedRun w (projection slot self.old.sight (strangers_in self.old) (events_taken events.now rs.items))) }
        ensures ends { IfOk result (λ rs. (slot : ℕ) (w : SubscriberView) → slice_get self.old.subscribers slot ≡ Some w →
            IsEndingRun w (projection slot self.old.sight (strangers_in self.old) (events_taken events.now rs.items))) }
        ensures each_states { IfOk result (λ rs. (slot : ℕ) (w : SubscriberView) → slice_get self.old.subscribers slot ≡ Some w →
            states_along slot self.old (events_taken events.now rs.items)
            ≡ states_run w (projection slot self.old.sight (strangers_in self.old) (events_taken events.now rs.items))) }
        ensures states { IfOk result (λ rs. (slot : ℕ) (w : SubscriberView) → slice_get self.old.subscribers slot ≡ Some w →
            slice_get self.new.subscribers slot
            ≡ Some (alone_after w (projection slot self.old.sight (strangers_in self.old) (events_taken events.now rs.items)))) }
        ensures absent { IfOk result (λ rs. (slot : ℕ) → slice_get self.old.subscribers slot ≡ None →
            told (is_slot slot) (replies_given rs.items) ≡ silence (events_taken events.now rs.items)) }
        ensures strangers { IfOk result (λ rs. (id : ℕ) →
            told (is_stranger id) (replies_given rs.items)
            ≡ stranger_told self.old.sight id (stranger_at id self.old.strangers) (events_taken events.now rs.items)) }
        ensures stranger_states { IfOk result (λ rs. (id : ℕ) →
            stranger_at id self.new.strangers
            ≡ stranger_run self.old.sight id (stranger_at id self.old.strangers) (events_taken events.now rs.items)) }
        ensures stations { IfOk result
            (λ rs. (e : ℕ) → told (is_station e) (replies_given rs.items)
            ≡ station_told self.old.sight e (events_taken events.now rs.items)) }
        ensures station_states { IfOk result (λ rs. (e : ℕ) → e < 128 →
            station_at self.new.sight.stations e
            ≡ station_run self.old.sight e (station_at self.old.sight.stations e) (events_taken events.now rs.items)) }
        ensures order { IfOk result (λ rs. AllInOrder rs.items) }
        ensures err { OnErr result (self.new ≡ self.old) }
    {
        sent_counts_are_fresh();
        accepted_counts_are_fresh();
        vector_makes_one_context();
        soundness_is_kept();
        protected_forms_are_marked();
        registered_by_proof();
        keys_go_to_the_proved();
        unproved_leaves();
        clocks_are_kept();
        silent_phones_end();
        let mut replies = Vec::with_capacity(self.surroundings.alloc, events.len())?;
        for event in events {
            let reply = self.step(event);
            replies.push_reserved(reply);
        }
        Ok(replies)
    }

    /// Takes what an event sent, for its room, and doesn't change the MME.
    ///
    /// Zeros stand in place of its octets before these are freed, since some carry a key. Takes no memory.
    pub fn take_back(&mut self, sent: Outs)
        ensures { self.new ≡ self.old }
    {
        let mut sent = sent;
        sent.clear();
        self.room = sent;
    }

    // Room for what is sent.
    fn take_room(&mut self) -> Outs
        ensures none { result ≡ [] }
        ensures same { self.new ≡ self.old }
    {
        let nothing = Outs::new(self.surroundings.alloc);
        let mut room = mem::replace(&mut self.room, nothing);
        room.clear();
        room
    }

    // Whether an event is a tick that isn't refused, and that ends nobody's countdown.
    fn is_quiet(&self, event: &Event<'_>) -> bool
        ensures { result ≡ true → IsQuiet self.now event.now }
    {
        let Event::Tick = event else {
            return false;
        };
        if !self.surroundings.may_tick() {
            return false;
        }
        !self.owners.is_due()
    }

    // Such a tick: nothing is sent for it. Takes no memory. Out of line, so that no other event clears its locals.
    #[inline(never)]
    fn pass(&mut self) -> Outs
        requires { IsQuiet self.old Tick }
        ensures none { result ≡ [] }
        ensures silent { reply self.old Tick ≡ Ok [] }
        ensures after { self.new ≡ world_after self.old Tick }
    {
        worlds_are_kept();
        ids_are_apart();
        pass(&mut self.owners);
        self.surroundings.pass_silently()
    }

    // What a message leads to, on copies.
    fn ready_for_message(&mut self, event: &Event<'_>) -> Result<Ready, StepFault>
        requires { is_message event.now ≡ true }
        ensures leads { IfOk result (λ r. LeadsTo self.old event.now r) }
        ensures refused { IfErr result (λ fault. IsRefused self.old event.now fault) }
        ensures same { self.new ≡ self.old }
    {
        let outs = self.take_room();
        self.surroundings
            .ready_for_message(&mut self.owners, event, outs)
    }

    // What an event that is no message leads to, on copies.
    fn ready_without_message(&mut self, event: &Event<'_>) -> Result<Ready, StepFault>
        requires { is_message event.now ≡ false }
        ensures leads { IfOk result (λ r. LeadsTo self.old event.now r) }
        ensures refused { IfErr result (λ fault. IsRefused self.old event.now fault) }
        ensures same { self.new ≡ self.old }
    {
        let outs = self.take_room();
        self.surroundings
            .ready_without_message(&mut self.owners, event, outs)
    }

    // A message. Out of line, so that no other event clears its locals.
    #[inline(never)]
    fn step_message(&mut self, event: &Event<'_>) -> Result<Outs, StepFault>
        requires { is_message event.now ≡ true }
        ensures { TakesEvent self.old event.now result self.new }
    {
        let ready = self.ready_for_message(event)?;
        self.take(ready)
    }

    // An event that is no message. Out of line, so that a message doesn't clear its locals.
    #[inline(never)]
    fn step_without_message(&mut self, event: &Event<'_>) -> Result<Outs, StepFault>
        requires { is_message event.now ≡ false }
        ensures { TakesEvent self.old event.now result self.new }
    {
        let ready = self.ready_without_message(event)?;
        self.take(ready)
    }

    // What was prepared for an event is so. Room for steps and for a stranger comes first; refused, all is as it was.
    #[inline(always)]
    fn take(&mut self, ready: Ready) -> Result<Outs, StepFault>
        requires { (event : Event) × LeadsTo self.old event ready }
        ensures after { OnOk result (self.new ≡ ready_world ready self.old) }
        ensures outs { IfOk result (λ outs. outs ≡ ready.outs) }
        ensures short { IfOk result (λ outs. AreShort outs) }
        ensures memory { IfErr result (λ fault. fault ≡ NoMemory) }
        ensures err { OnErr result (self.new ≡ self.old) }
    {
        worlds_are_kept();
        ids_are_apart();
        no_two_share_an_id();
        let Ready {
            moves,
            prepared,
            outs,
        } = ready;
        settle(&mut self.owners, prepared)?;
        self.surroundings.move_on(moves);
        // The caller is told this of all messages.
        outs.are_short();
        Ok(outs)
    }
}

impl Surroundings {
    // The slot of an IMSI, if it is provisioned.
    fn slot_of_imsi(&self, imsi: Imsi) -> Option<Slot>
        ensures { result ≡ slot_of_imsi imsi self.now.profiles }
    {
        self.provision.slot_of_imsi(imsi)
    }

    // Whether the clock is before its last tick.
    fn may_tick(&self) -> bool
        ensures { (result ≡ true) ↔ (self.now.clock < 2 ^ 62) }
    {
        self.clock < LAST_TICK
    }

    // One tick, for which nothing is sent.
    fn pass_silently(&mut self) -> Outs
        requires { self.old.clock < 2 ^ 62 }
        ensures moved { self.new ≡ record self.old { clock = self.old.clock + 1 } }
        ensures none { result ≡ [] }
    {
        self.clock += 1;
        Outs::new(self.alloc)
    }

    // The slot of the IMSI that an event names, if it names one that is provisioned. It is looked up once for each event.
    fn slot_named(&self, event: &Event<'_>) -> Option<Slot>
        ensures { result ≡ slot_named self.now event.now }
    {
        match event {
            Event::Data(imsi) | Event::Cancel(imsi) => self.slot_of_imsi(*imsi),
            Event::Up(_) | Event::Lost(_) | Event::In(_, _) | Event::Tick => None,
        }
    }

    // Why an event is refused, lack of memory apart, where that is the slot that it names.
    fn fault_of(&self, event: &Event<'_>, named: &Option<Slot>) -> Option<StepFault>
        requires { named.now ≡ slot_named self.now event.now }
        ensures { result ≡ event_fault self.now event.now }
    {
        match event {
            Event::Up(station) => match self.stations.get(*station) {
                StationState::Down => None,
                StationState::Up | StationState::Ready(_) => Some(StepFault::AlreadyUp),
            },
            Event::Lost(station) | Event::In(station, _) => match self.stations.get(*station) {
                StationState::Down => Some(StepFault::NotUp),
                StationState::Up | StationState::Ready(_) => None,
            },
            Event::Tick if self.clock >= LAST_TICK => Some(StepFault::ClockSpent),
            Event::Tick => None,
            Event::Data(_) | Event::Cancel(_) => match named {
                Some(_) => None,
                None => Some(StepFault::UnknownImsi),
            },
        }
    }

    // What comes of a message of a station that isn't down.
    fn outcome<'a>(
        &self,
        station: StationNumber,
        octets: &'a [u8],
    ) -> Result<Outcome<'a>, AllocError>
        ensures { IfOk result (λ h. seen_outcome self.now.stations h
            ≡ outcome_of self.now.config.network self.now.profiles station (station_at self.now.stations station)
            (decoded octets.entry.now)) }
    {
        let state = self.stations.get(station);
        let network = &self.config.network;
        outcome_of(
            self.alloc,
            network,
            &self.setup_response,
            &self.provision,
            station,
            state,
            octets,
        )
    }

    // The clock after an event that isn't refused.
    fn clock_after(&self, event: &Event<'_>) -> u64
        requires { event_fault self.now event.now ≡ None }
        ensures value { result ≡ clock_after self.now.clock event.now }
        ensures least { self.now.clock ≤ result }
    {
        match event {
            Event::Tick => self.clock + 1,
            _ => self.clock,
        }
    }

    // What an event that is no message leads to, on copies: nothing is sent for its station. What is sent stands in the room that
    // is given.
    fn ready_without_message(
        &self,
        owners: &mut Owners,
        event: &Event<'_>,
        outs: Outs,
    ) -> Result<Ready, StepFault>
        requires other { is_message event.now ≡ false }
        requires none { outs ≡ [] }
        requires rising { Rising known_id owners.old.strangers }
        requires in_use { AreInUse owners.old.subscribers }
        ensures leads { IfOk result (λ r. LeadsTo (world_of self.now owners.old) event.now r) }
        ensures refused { IfErr result (λ fault. IsRefused (world_of self.now owners.old) event.now fault) }
        ensures same { owners.new ≡ owners.old }
    {
        let named = self.slot_named(event);
        if let Some(fault) = self.fault_of(event, &named) {
            return Err(fault);
        }
        let moves = Moves {
            station: event.station(),
            state: event.state(),
            clock: self.clock_after(event),
        };
        let mut outs = outs;
        let destination = event.destination(&named);
        let prepared = prepare(
            self.alloc,
            &self.provision,
            owners,
            &self.stations,
            destination,
            &mut outs,
        )?;
        Ok(Ready {
            moves,
            prepared,
            outs,
        })
    }

    // What a message leads to, on copies. What is sent stands in the room that is given.
    fn ready_for_message<'a>(
        &'a self,
        owners: &mut Owners,
        event: &'a Event<'_>,
        outs: Outs,
    ) -> Result<Ready, StepFault>
        requires message { is_message event.now ≡ true }
        requires none { outs ≡ [] }
        requires rising { Rising known_id owners.old.strangers }
        requires in_use { AreInUse owners.old.subscribers }
        ensures leads { IfOk result (λ r. LeadsTo (world_of self.entry.now owners.old) event.entry.now r) }
        ensures refused { IfErr result (λ fault. IsRefused (world_of self.entry.now owners.old) event.entry.now fault) }
        ensures same { owners.new ≡ owners.old }
    {
        let Event::In(station, octets) = event else {
            unreachable!()
        };
        if let Some(fault) = self.fault_of(event, &None) {
            return Err(fault);
        }
        let clock = self.clock_after(event);
        let Outcome {
            state,
            sent,
            destination,
        } = self.outcome(*station, octets)?;
        let moves = Moves {
            station: Some(*station),
            state,
            clock,
        };
        let mut outs = station_outs(outs, moves.station, sent)?;
        let prepared = prepare(
            self.alloc,
            &self.provision,
            owners,
            &self.stations,
            destination,
            &mut outs,
        )?;
        Ok(Ready {
            moves,
            prepared,
            outs,
        })
    }

    // The station that an event was of has its new state, and the clock is the one after it.
    #[inline(always)]
    fn move_on(&mut self, moves: Moves)
        ensures { self.new ≡ ready_sight moves self.old }
    {
        settle_station(&mut self.stations, moves.station, moves.state);
        self.clock = moves.clock;
    }
}
