//! One subscriber.

ghost use Rattle.std.specs.Prelude.{◌≡◌, ◌≢◌, ◌↔◌, ◌≤◌, Err, IfErr, IfOk, OnErr, OnOk, is_some, length, min, option_map, slice_get, true};
ghost use Rattle.emm_state.specs.Does.{Does};
ghost use Rattle.mme_types.specs.Events.{item_of};
ghost use Rattle.identity_slots.specs.Spending.{HasFrom};
ghost use Rattle.identity_slots.specs.declared.provision.ProvisionFault.TheVariants.{Full, NoMemory};
ghost use Rattle.emm_state.specs.Taking.{vectors_spent, IsOnward};
ghost use Rattle.emm_machine.specs.Forgetting.{goes_on, left_for};
ghost use Rattle.emm_machine.specs.Given.{is_stocked, with_given};
ghost use Rattle.emm_machine.specs.Steps.{row, solo_step, spent};
ghost use Rattle.emm_machine.specs.Ticks.{AreAbove, countdowns, ticks_after};
ghost use Rattle.emm_machine.specs.Words.{ecm_of, emm_of, fresh_solo, pages_in, states_of};

use crate::laws::in_use_is_kept;
use crate::messages::message_of;
use crate::passing::age;
use emm_network::{cancelled, connections_gone, data_waits, displaced, station_gone, tick};
use emm_state::{Asked, Context, Counter, Draft, Phase, Repeat, Setting, Solo, StepStop, or_stop};
use emm_uplink::{claim, initial};
use esm_machine::{Bearer, BearerState};
use identity_slots::{KeptVectors, Profile, ProvisionFault, Slot, Vector, Vectors};
use mme_types::{Answers, Connection, EnbWorld, SharedNetwork, SoloEvent, StationNumber};
use nas_elements::UeCapability;
use per_bits::Octets;
use s1ap_elements::{Cause, NasCause, Tai};
use std::alloc::{AllocError, Global};
use std::marker::Model;
use std::mem;

/// The state of mobility management (TS 24.301 clause 5.1.3.4).
#[derive(Clone, Copy, PartialEq, Eq, Debug)]
pub enum EmmState {
    Deregistered,
    CommonProcedureInitiated,
    Registered,
    DeregisteredInitiated,
}

/// Whether the phone has a connection (TS 23.401 clause 4.6.3).
#[derive(Clone, Copy, PartialEq, Eq, Debug)]
pub enum EcmState {
    Idle,
    Connected,
}

/// The states of a subscriber.
#[derive(Clone, Copy, PartialEq, Eq, Debug)]
pub struct States {
    pub emm: EmmState,
    pub ecm: EcmState,
    /// The state of the default bearer (TS 24.301 clause 6.1.3.3).
    pub esm: BearerState,
}

fn emm_of(phase: Phase) -> EmmState
    ensures { result ≡ emm_of phase }
{
    match phase {
        Phase::Deregistered => EmmState::Deregistered,
        Phase::Authenticating
        | Phase::SecurityMode
        | Phase::EsmInformation
        | Phase::Accepting
        | Phase::Updating => EmmState::CommonProcedureInitiated,
        Phase::Registered => EmmState::Registered,
        Phase::Detaching => EmmState::DeregisteredInitiated,
    }
}

// A phone that was never here, the first `next_vector` of whose vectors are taken.
fn solo_at_rest(next_vector: usize) -> Solo
    ensures { result ≡ record fresh_solo { next_vector = next_vector } }
{
    Solo {
        phase: Phase::Deregistered,
        connection: None,
        context: None,
        associations: Counter::new(),
        tmsis: Counter::new(),
        tmsi: None,
        next_vector,
        tai: Tai {
            plmn: Octets::new([0; 3]),
            tac: Octets::new([0; 2]),
        },
        asked: Asked {
            capability: UeCapability::new(&[0, 0]),
            combined_attach: false,
            initial_update: false,
        },
        bearer: Bearer::new(),
        repeat: None,
        procedure: None,
        reachable: None,
    }
}

// Whether a context goes on as the other one.
fn goes_on(old: &Option<Context>, new: &Option<Context>) -> bool
    ensures { result ≡ goes_on old.now new.now }
{
    let Some(old) = old else {
        return true;
    };
    match new {
        Some(new) => old.place == new.place,
        None => false,
    }
}

// How many vectors are spent.
fn vectors_spent(solo: &Solo) -> usize
    ensures { result ≡ vectors_spent solo.now }
{
    match solo.phase {
        Phase::Authenticating => solo.next_vector.saturating_sub(1),
        Phase::Deregistered
        | Phase::SecurityMode
        | Phase::EsmInformation
        | Phase::Accepting
        | Phase::Updating
        | Phase::Registered
        | Phase::Detaching => solo.next_vector,
    }
}

// The row of an event.
#[tactic(auto, using(emm_state::specs::TakingLaws::from_next), unfolding(crate::specs::Steps::row))]
fn row(
    draft: &mut Draft,
    alloc: Global,
    setting: &Setting,
    vectors: &KeptVectors,
    event: &SoloEvent,
    world: &EnbWorld,
) -> Result<(), StepStop>
    requires { HasFrom (vectors_spent draft.old.solo) setting.now.vectors vectors.now }
    ensures { Does result draft.new (row setting.now (item_of event.now world.now) draft.old) }
{
    match event {
        SoloEvent::Nothing => Ok(()),
        SoloEvent::Initial(entry) => initial(draft, alloc, setting, vectors, entry),
        SoloEvent::Claim(id, entry) => or_stop(claim(draft, alloc, setting, vectors, *id, entry)),
        SoloEvent::Message(message) => message_of(draft, alloc, setting, vectors, message),
        SoloEvent::Displaced(id) => {
            displaced(draft, *id);
            Ok(())
        }
        SoloEvent::StationGone(station) => {
            station_gone(draft, *station);
            Ok(())
        }
        SoloEvent::ConnectionsGone(station, items) => {
            connections_gone(draft, *station, items);
            Ok(())
        }
        SoloEvent::Tick => tick(draft, alloc, setting),
        SoloEvent::Data => or_stop(data_waits(draft, alloc, setting, world)),
        SoloEvent::Cancel => cancelled(draft, alloc),
    }
}

// The step of a state, on a copy in a box, which is the spare one if there is one.
#[tactic(auto, unfolding(crate::specs::Steps::solo_step))]
fn drafted(
    alloc: Global,
    spare: Option<Box<Draft>>,
    setting: &Setting,
    vectors: &KeptVectors,
    solo: &Solo,
    event: &SoloEvent,
    world: &EnbWorld,
) -> Result<Box<Draft>, AllocError>
    requires { HasFrom (vectors_spent solo.now) setting.now.vectors vectors.now }
    ensures { IfOk result (λ d. d.value ≡ solo_step setting.now solo.now (item_of event.now world.now)) }
{
    let mut draft = Draft::from_state(alloc, spare, solo)?;
    match row(&mut draft, alloc, setting, vectors, event, world) {
        Ok(()) => Ok(draft),
        Err(StepStop::NoMemory) => Err(AllocError),
        Err(StepStop::Spent) => spent(alloc, solo),
    }
}

// Where a downlink count is spent the registration ends.
fn spent(alloc: Global, solo: &Solo) -> Result<Box<Draft>, AllocError>
    ensures { IfOk result (λ d. d.value ≡ spent solo.now) }
{
    let mut draft = Draft::from_state(alloc, None, solo)?;
    draft.fall(alloc, Cause::Nas(NasCause::Unspecified))?;
    draft.wipe();
    Ok(draft)
}

/// A subscriber; what these calls answer are parts of its state and of what no step changes, and a copy is equal.
///
/// A contract sees what no step changes of it, and the state of its machine.
pub struct Subscriber {
    setting: Setting,
    // Those are spent that the state asks for no more, and no others.
    vectors: KeptVectors,
    // The box of the step that was settled last, so that a state is settled where it stands. What the box has beside the state
    // means nothing.
    state: Box<Draft>,
    alloc: Global,
}

impl Model for Subscriber {
    ghost use Rattle.emm_machine.specs.SubscriberView.{SubscriberView};

    ghost Value = { SubscriberView };

    ghost use Rattle.emm_machine.specs.Forgetting.{AreSpentFor};

    ghost view = { λ s. record { setting = s.setting; solo = s.state.value.solo } };

    ghost invariant = { λ s. AreSpentFor s.setting.vectors s.state.value.solo s.vectors };
}

impl Drop for Subscriber {
    // The secrets of its vectors and the keys of its context are overwritten before they are freed.
    fn drop(self) {
        let Subscriber {
            setting: _,
            mut vectors,
            mut state,
            alloc: _,
        } = self;
        vectors.spend_before(usize::MAX);
        state.solo.forget();
    }
}

impl Subscriber {
    /// A subscriber who was never seen, with this network, profile and vectors.
    pub fn new(
        alloc: Global,
        network: &SharedNetwork,
        slot: Slot,
        profile: &Profile,
        vectors: Vectors,
    ) -> Result<Subscriber, AllocError>
        ensures { IfOk result (λ s. s ≡ record {
          setting = record { network = network.now; slot = slot; profile = profile.now; vectors = vectors };
          solo = fresh_solo;
        }) }
    {
        Subscriber::at_rest(alloc, network, slot, profile, vectors.into_kept())
    }

    /// A subscriber with some vectors spent, whose phone isn't here and has no context.
    #[tactic(auto, using(crate::proofs::Spending::are_spent_at_rest))]
    pub fn at_rest(
        alloc: Global,
        network: &SharedNetwork,
        slot: Slot,
        profile: &Profile,
        vectors: KeptVectors,
    ) -> Result<Subscriber, AllocError>
        ensures { IfOk result (λ s. s ≡ record {
          setting = record { network = network.now; slot = slot; profile = profile.now; vectors = vectors.given };
          solo = record fresh_solo { next_vector = vectors.spent };
        }) }
    {
        let setting = Setting {
            network: network.clone()?,
            slot,
            profile: *profile,
            vectors: vectors.given(),
        };
        let solo = solo_at_rest(vectors.spent());
        Ok(Subscriber {
            setting,
            vectors,
            state: Draft::of(alloc, solo)?,
            alloc,
        })
    }

    /// What no step changes of it.
    pub fn setting(&self) -> &Setting
        ensures { result.now ≡ self.entry.now.setting }
    {
        &self.setting
    }

    /// Its state.
    pub fn solo(&self) -> &Solo
        ensures { result.now ≡ self.entry.now.solo }
    {
        &self.state.solo
    }

    /// How many vectors are spent, of those that it was given.
    pub fn spent(&self) -> usize
        ensures { result ≡ min (vectors_spent self.now.solo) (length self.now.setting.vectors) }
    {
        self.vectors.spent()
    }

    /// The vector at a place, from 0, that the state asks for yet, if there is one. Takes no memory.
    #[tactic(auto, using(crate::proofs::Spending::are_unspent))]
    pub fn vector(&self, place: usize) -> Option<&Vector>
        requires { vectors_spent self.now.solo ≤ place }
        ensures { option_map (λ v. v.now) result ≡ slice_get self.entry.now.setting.vectors place }
    {
        self.vectors.get(place)
    }

    /// Answers the step of an event without taking it.
    ///
    /// It stands in a box until it is settled: in the spare one, where there is one. Nothing changes.
    #[tactic(auto, using(crate::proofs::Spending::are_unspent))]
    pub fn prepare(
        &self,
        spare: Option<Box<Draft>>,
        event: &SoloEvent,
        world: &EnbWorld,
    ) -> Result<Box<Draft>, AllocError>
        ensures step { IfOk result (λ d. d.value ≡ solo_step self.now.setting self.now.solo (item_of event.now world.now)) }
        ensures onward { IfOk result (λ d. IsOnward self.now.solo d.value.solo) }
    {
        in_use_is_kept();
        drafted(
            self.alloc,
            spare,
            &self.setting,
            &self.vectors,
            &self.state.solo,
            event,
            world,
        )
    }

    /// Takes a prepared state, or any that asks for no spent vector (`onward`), without memory, and answers the box of the state
    /// before, without its context if that has ended (`left_for`).
    ///
    /// What was sent is to be taken out before, since it would stay in memory with that box. The secrets of a vector that is spent
    /// are overwritten, and so are the keys of a context that goes on no longer.
    #[tactic(auto, using(crate::proofs::Spending::are_spent_on))]
    pub fn settle(&mut self, draft: Box<Draft>) -> Box<Draft>
        requires onward { IsOnward self.old.solo draft.value.solo }
        ensures state { self.new ≡ record self.old { solo = draft.value.solo } }
        ensures spare { result.value.solo ≡ left_for draft.value.solo self.old.solo }
    {
        let mut spare = mem::replace(&mut self.state, draft);
        mem::swap(&mut spare.sent, &mut self.state.sent);
        let settled = &self.state.solo;
        self.vectors.spend_before(vectors_spent(settled));
        if !goes_on(&spare.solo.context, &settled.context) {
            spare.solo.forget();
        }
        spare
    }

    /// One event: answers the messages of `solo_step`, in order, each with its station, its octets and what its NAS message is
    /// protected under, and leaves that step's state. Where memory is refused nothing changes.
    pub fn step(&mut self, event: &SoloEvent, world: &EnbWorld) -> Result<Answers, AllocError>
        ensures answers { IfOk result
            (λ answers. answers ≡ (solo_step self.old.setting self.old.solo (item_of event.now world.now)).sent) }
        ensures state { OnOk result
            (self.new ≡ record self.old { solo = (solo_step self.old.setting self.old.solo (item_of event.now world.now)).solo }) }
        ensures err { OnErr result (self.new ≡ self.old) }
    {
        let mut draft = self.prepare(None, event, world)?;
        let sent = mem::replace(&mut draft.sent, Answers::new(self.alloc));
        let mut left = self.settle(draft);
        left.solo.forget();
        Ok(sent)
    }

    /// One vector more, after all others, or nothing changes: `Full` exactly where 64 are unspent or 2^62 were given
    /// (`is_stocked`).
    ///
    /// NoMemory where room was refused. The secrets of a refused vector are overwritten.
    #[tactic(auto, using(crate::proofs::Spending::are_spent_given, crate::proofs::Spending::is_full))]
    pub fn give(&mut self, alloc: Global, vector: Vector) -> Result<(), ProvisionFault>
        ensures full { (result ≡ Err Full) ↔ (is_stocked self.old ≡ true) }
        ensures fault { IfErr result (λ fault. fault ≢ NoMemory → fault ≡ Full) }
        ensures given { OnOk result (self.new ≡ with_given vector self.old) }
        ensures err { OnErr result (self.new ≡ self.old) }
    {
        self.vectors.give(alloc, vector)?;
        self.vectors.spend_before(vectors_spent(&self.state.solo));
        self.setting.vectors = self.vectors.given();
        Ok(())
    }

    /// Requires that each countdown has more than so many ticks left, and leaves what these leave (`solo_aged`), without memory.
    ///
    /// No countdown ends, so nothing is sent.
    #[tactic(auto, using(crate::specs::TickLaws::ticks_are_aged, crate::specs::TickLaws::spent_aged))]
    pub fn pass(&mut self, ticks: u64)
        requires { AreAbove ticks (countdowns self.old.solo) }
        ensures { self.new ≡ record self.old { solo = ticks_after self.old.setting ticks self.old.solo } }
    {
        if ticks == 0 {
            return;
        }
        age(&mut self.state.solo, ticks);
    }

    /// Whether the phone has a security context.
    pub fn has_context(&self) -> bool
        ensures { result ≡ is_some self.now.solo.context }
    {
        self.state.solo.context.is_some()
    }

    /// The connection: its association, station and eNB UE S1AP ID.
    pub fn connection(&self) -> Option<Connection>
        ensures { result ≡ self.now.solo.connection }
    {
        self.state.solo.connection
    }

    /// The ticks left of a procedure, and until a phone that is idle is taken to be gone.
    #[tactic(auto, unfolding(crate::specs::Ticks::countdowns))]
    pub fn countdowns(&self) -> (Option<u64>, Option<u64>)
        ensures { result ≡ countdowns self.now.solo }
    {
        let procedure = match self.state.solo.procedure {
            Some(countdown) => Some(u64::from(countdown.left)),
            None => None,
        };
        let reachable = match self.state.solo.reachable {
            Some(left) => Some(u64::from(left)),
            None => None,
        };
        (procedure, reachable)
    }

    /// The states.
    pub fn states(&self) -> States
        ensures { result ≡ states_of self.now.solo }
    {
        States {
            emm: emm_of(self.state.solo.phase),
            ecm: if self.state.solo.connection.is_some() {
                EcmState::Connected
            } else {
                EcmState::Idle
            },
            esm: self.state.solo.bearer.state(),
        }
    }

    /// Whether the paging to repeat goes to a station.
    pub fn pages_at(&self, station: StationNumber) -> bool
        ensures { result ≡ pages_in self.now.solo.repeat station }
    {
        match &self.state.solo.repeat {
            Some(Repeat::Paging(stations)) => stations.contain(station),
            Some(Repeat::Nas(_, _)) | None => false,
        }
    }

    /// An equal subscriber.
    pub fn copy(&self) -> Result<Subscriber, AllocError>
        ensures { IfOk result (λ s. s ≡ self.now) }
    {
        Ok(Subscriber {
            setting: self.setting.clone()?,
            vectors: self.vectors.clone()?,
            state: Draft::from_state(self.alloc, None, &self.state.solo)?,
            alloc: self.alloc,
        })
    }
}
