//! What a subscriber's machine keeps.

ghost use Rattle.std.specs.Prelude.{◌≡◌, ◌<◌, ◌==◌, not, filter, IfOk, None, Some};
ghost use Rattle.std.specs.List.{list_any};
ghost use Rattle.identity_slots.specs.Ids.{next_counter, id_of_slot};
ghost use Rattle.nas_elements.specs.Codes.{no_key_set};
ghost use Rattle.emm_state.specs.Forgetting.{without_keys};
ghost use Rattle.emm_state.specs.KeySets.{ksi_of};
ghost use Rattle.emm_state.specs.Phases.{is};
ghost use Rattle.emm_state.specs.Timers.{repeats_of, ticks_of};

use eps_keys::{Kasme, Kenb, NextHop};
use esm_machine::Bearer;
use identity_slots::{AssociationId, Slot, Tmsi};
use mme_types::s1ap::elements::Tai;
use mme_types::{Connection, NasOctets, RadioKeys, StationNumber};
use nas_elements::UeCapability;
use nas_messages::{SecurityHeader, codes, timers};
use nas_security::{Eia2, SecurityContext};
use std::alloc::{AllocError, Global};
use std::marker::Model;

/// What the machine is about (TS 24.301 clause 5.1.3.4).
#[derive(Clone, Copy, PartialEq, Eq, Debug)]
pub enum Phase {
    Deregistered,
    /// AUTHENTICATION REQUEST was sent.
    Authenticating,
    /// SECURITY MODE COMMAND was sent.
    SecurityMode,
    /// ESM INFORMATION REQUEST was sent.
    EsmInformation,
    /// ATTACH ACCEPT was sent.
    Accepting,
    /// TRACKING AREA UPDATE ACCEPT was sent.
    Updating,
    Registered,
    /// The network's DETACH REQUEST was sent.
    Detaching,
}

impl Phase {
    /// Whether it is this one.
    pub fn is(self, phase: Phase) -> bool
        ensures { result ≡ is phase self }
    {
        self == phase
    }
}

/// A security context with the place of the vector that it was made of. KeNB is zero until a message's count gave it.
#[derive(Drop)]
pub struct Context {
    pub place: usize,
    pub security: SecurityContext<Eia2>,
    pub kasme: Kasme,
    pub radio: RadioKeys,
}

impl Context {
    // Zeros stand in place of its keys. It is out of line, so that it is done also where nobody looks at the context again.
    #[inline(never)]
    fn forget(&mut self)
        ensures { self.new ≡ without_keys self.old }
    {
        self.security = SecurityContext::new(Eia2::forgotten(), 0, 0, None);
        self.kasme.forget();
        self.radio = RadioKeys {
            kenb: Kenb::new([0; 32]),
            next_hop: Some(NextHop::new([0; 32])),
            chaining_count: 0,
        };
    }
}

/// The key set identifier of the vector at a place: those of keys go round (TS 24.301 clause 9.9.3.21).
pub fn ksi_of(place: usize) -> u8
    ensures value { result ≡ ksi_of place }
    ensures small { result < no_key_set }
{
    (place % codes::NO_KEY_SET as usize) as u8
}

/// A timer of a procedure (TS 24.301 clause 10.2).
#[derive(Clone, Copy, PartialEq, Eq, Debug)]
pub enum NasTimer {
    T3413,
    T3422,
    T3450,
    T3460,
    T3489,
}

impl NasTimer {
    /// Its length in ticks.
    pub fn ticks(self) -> u32
        ensures { result ≡ ticks_of self }
    {
        match self {
            NasTimer::T3413 => timers::T3413_TICKS,
            NasTimer::T3422 => timers::T3422_TICKS,
            NasTimer::T3450 => timers::T3450_TICKS,
            NasTimer::T3460 => timers::T3460_TICKS,
            NasTimer::T3489 => timers::T3489_TICKS,
        }
    }

    /// How often its message is sent again.
    pub fn repeats(self) -> u32
        ensures { result ≡ repeats_of self }
    {
        match self {
            NasTimer::T3413 => timers::T3413_REPEATS,
            NasTimer::T3422 => timers::T3422_REPEATS,
            NasTimer::T3450 => timers::T3450_REPEATS,
            NasTimer::T3460 => timers::T3460_REPEATS,
            NasTimer::T3489 => timers::T3489_REPEATS,
        }
    }
}

/// A countdown that runs: the ticks left, and how often its message may still be sent again.
#[derive(Clone, Copy)]
pub struct Countdown {
    pub timer: NasTimer,
    pub left: u32,
    pub repeats: u32,
}

/// How a NAS message is sent.
#[derive(Clone, Copy)]
pub enum Protection {
    Plain,
    Under(SecurityHeader),
}

/// Stations in order; a contract sees the list of their numbers.
#[derive(Drop)]
pub struct Stations {
    items: Vec<StationNumber>,
}

impl Model for Stations {
    ghost use Rattle.std.specs.Prelude.{ℕ, List};

    ghost Value = { List ℕ };

    ghost view = { λ s. s.items.items };
}

impl Stations {
    /// These stations.
    pub fn new(items: Vec<StationNumber>) -> Stations
        ensures { result ≡ items.items }
    {
        Stations { items }
    }

    /// The same stations once more.
    pub fn copy(&self, alloc: Global) -> Result<Stations, AllocError>
        ensures { IfOk result (λ s. s ≡ self.now) }
    {
        Ok(Stations {
            items: Vec::from_slice(alloc, self.items.as_slice())?,
        })
    }

    /// Whether this one is among them.
    pub fn contain(&self, station: StationNumber) -> bool
        ensures { result ≡ list_any (λ e. e == station) self.now }
    {
        self.items.as_slice().iter().any(|other| *other == station)
    }

    /// All but this one.
    pub fn remove(&mut self, station: StationNumber)
        ensures { self.new ≡ filter (λ e. not (e == station)) self.old }
    {
        remove_from(&mut self.items, station);
    }

    /// The stations.
    pub fn as_slice(&self) -> &[StationNumber]
        ensures { result.now ≡ self.now }
    {
        self.items.as_slice()
    }
}

fn remove_from(items: &mut Vec<StationNumber>, station: StationNumber)
    ensures { items.new.items ≡ filter (λ e. not (e == station)) items.old.items }
{
    items.retain(|other| *other != station);
}

/// What is sent when a countdown has expired.
#[derive(Drop)]
pub enum Repeat {
    /// A NAS message to the phone.
    Nas(Protection, NasOctets),
    /// PAGING to each of these stations.
    Paging(Stations),
}

impl Repeat {
    /// The same once more.
    pub fn copy(&self, alloc: Global) -> Result<Repeat, AllocError>
        ensures { IfOk result (λ r. r ≡ self.now) }
    {
        match self {
            Repeat::Nas(protection, nas) => Ok(Repeat::Nas(*protection, nas.copy(alloc)?)),
            Repeat::Paging(stations) => Ok(Repeat::Paging(stations.copy(alloc)?)),
        }
    }
}

/// What the last ATTACH REQUEST and TRACKING AREA UPDATE REQUEST asked for.
#[derive(Clone, Copy)]
pub struct Asked {
    /// The phone's algorithms.
    pub capability: UeCapability,
    /// A combined attach (TS 24.301 clause 9.9.3.11).
    pub combined_attach: bool,
    /// The update came in an INITIAL UE MESSAGE.
    pub initial_update: bool,
}

/// How many ids a slot has given, which goes round; a contract sees the number.
#[derive(Clone, Copy)]
pub struct Counter {
    count: u32,
}

impl Model for Counter {
    ghost use Rattle.std.specs.Prelude.{ℕ, ◌<◌};
    ghost use Rattle.identity_slots.specs.Ids.{counters};

    ghost Value = { ℕ };

    ghost view = { λ c. c.count };

    ghost invariant = { λ c. c.count < counters };

    ghost inverse = { λ n. record { count = n } };
}

impl Counter {
    /// None was given.
    pub fn new() -> Counter
        ensures { result ≡ 0 }
    {
        Counter { count: 0 }
    }

    /// A counter of a slot that has given this many.
    pub fn of(count: u16) -> Counter
        ensures { result ≡ count }
    {
        Counter {
            count: u32::from(count),
        }
    }

    /// How many were given.
    pub fn get(self) -> u16
        ensures { result ≡ self }
    {
        self.count as u16
    }

    /// The slot's next association, and the counter after it.
    pub fn association(self, slot: Slot) -> (AssociationId, Counter)
        ensures id { result.0 ≡ id_of_slot slot (next_counter self) }
        ensures counter { result.1 ≡ next_counter self }
    {
        let (id, count) = AssociationId::after(slot, self.count);
        (id, Counter { count })
    }

    /// The slot's next M-TMSI, and the counter after it.
    pub fn tmsi(self, slot: Slot) -> (Tmsi, Counter)
        ensures tmsi { result.0 ≡ id_of_slot slot (next_counter self) }
        ensures counter { result.1 ≡ next_counter self }
    {
        let (tmsi, count) = Tmsi::after(slot, self.count);
        (tmsi, Counter { count })
    }
}

/// The state of a subscriber's machine.
#[derive(Drop)]
pub struct Solo {
    pub phase: Phase,
    pub connection: Option<Connection>,
    pub context: Option<Context>,
    pub associations: Counter,
    pub tmsis: Counter,
    pub tmsi: Option<Tmsi>,
    /// The place of the vector that the next challenge takes.
    pub next_vector: usize,
    /// The tracking area that was accepted last.
    pub tai: Tai,
    pub asked: Asked,
    pub bearer: Bearer,
    pub repeat: Option<Repeat>,
    pub procedure: Option<Countdown>,
    /// The ticks until a phone that is idle is taken to be gone.
    pub reachable: Option<u32>,
}

// A context that ends: its keys are overwritten.
fn forget(context: &mut Option<Context>)
    ensures { context.new ≡ None }
{
    if let Some(ending) = context {
        ending.forget();
        *context = None;
    }
}

// A security context is copied where there is none. It is out of line, so that a step in a box that has one doesn't clear its
// locals.
#[inline(never)]
fn place_context(to: &mut Option<Context>, from: &Context)
    ensures { to.new ≡ Some from.now }
{
    *to = Some(Context {
        place: from.place,
        security: from.security,
        kasme: from.kasme.copy(),
        radio: from.radio.copy(),
    });
}

// A security context, of some 600 octets, is copied where it is to stand.
fn copy_context(to: &mut Option<Context>, from: &Option<Context>)
    ensures { to.new ≡ from.now }
{
    let Some(from) = from else {
        forget(to);
        return;
    };
    match to {
        Some(to) => {
            to.place = from.place;
            to.security = from.security;
            to.kasme.copy_from(&from.kasme);
            to.radio = from.radio.copy();
        }
        None => place_context(to, from),
    }
}

impl Solo {
    /// What is sent when the countdown has expired, once more.
    pub(crate) fn repeat_copy(&self, alloc: Global) -> Result<Option<Repeat>, AllocError>
        ensures { IfOk result (λ r. r ≡ self.now.repeat) }
    {
        match &self.repeat {
            Some(repeat) => Ok(Some(repeat.copy(alloc)?)),
            None => Ok(None),
        }
    }

    /// The same state with this to be sent again.
    pub(crate) fn with_repeat(&self, repeat: Option<Repeat>) -> Solo
        ensures { result ≡ record self.now { repeat = repeat } }
    {
        let mut context = None;
        if let Some(from) = &self.context {
            place_context(&mut context, from);
        }
        Solo {
            phase: self.phase,
            connection: self.connection,
            context,
            associations: self.associations,
            tmsis: self.tmsis,
            tmsi: self.tmsi,
            next_vector: self.next_vector,
            tai: self.tai,
            asked: self.asked,
            bearer: self.bearer,
            repeat,
            procedure: self.procedure,
            reachable: self.reachable,
        }
    }

    /// The same state as another one, with this to be sent again; takes no memory.
    pub(crate) fn begin(&mut self, other: &Solo, repeat: Option<Repeat>)
        ensures { self.new ≡ record other.now { repeat = repeat } }
    {
        copy_context(&mut self.context, &other.context);
        self.phase = other.phase;
        self.connection = other.connection;
        self.associations = other.associations;
        self.tmsis = other.tmsis;
        self.tmsi = other.tmsi;
        self.next_vector = other.next_vector;
        self.tai = other.tai;
        self.asked = other.asked;
        self.bearer = other.bearer;
        self.repeat = repeat;
        self.procedure = other.procedure;
        self.reachable = other.reachable;
    }

    /// There is no security context any more, and zeros stand where its keys were; takes no memory.
    pub fn forget(&mut self)
        ensures { self.new ≡ record self.old { context = None } }
    {
        forget(&mut self.context);
    }

    /// The same state once more.
    pub fn copy(&self, alloc: Global) -> Result<Solo, AllocError>
        ensures { IfOk result (λ s. s ≡ self.now) }
    {
        let repeat = self.repeat_copy(alloc)?;
        Ok(self.with_repeat(repeat))
    }
}
