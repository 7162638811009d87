//! States of phones' machines, made of the parts of a snapshot.

ghost use Rattle.std.specs.Prelude.{◌≡◌, ◌≤◌, ◌<◌, ◌^◌, map, length, option_map, IfOk, true};
ghost use Rattle.s1ap_elements.specs.Phones.{named_tai, typed_tai};
ghost use Rattle.laws_subscriber.specs.Sound.{keys_after};
ghost use Rattle.snapshot_formats.specs.Contexts.{typed_saved_connection, typed_saved_context, typed_saved_radio};
ghost use Rattle.snapshot_formats.specs.Subscribers.{typed_saved_asked, typed_saved_bearer, typed_saved_bearer_state, typed_saved_countdown, typed_saved_repeat, typed_saved_request, typed_saved_state};
ghost use Rattle.snapshot_states.specs.Fit.{fits_asked};
ghost use Rattle.snapshot_states.specs.States.{named_asked, named_bearer, named_bearer_state, named_connection, named_context, named_countdown, named_protection, named_radio, named_repeat, named_request, named_state, next_of};

use crate::numbers::{phase_of, timer_of};
use emm_state::{
    Asked, Context, Countdown, Counter, Phase, Protection, Repeat, Solo, Stations, ksi_of,
};
use eps_keys::{Kasme, Kenb, NextHop};
use esm_machine::{Bearer, BearerState, Request};
use identity_slots::{AssociationId, StationNumber, Tmsi};
use mme_types::{Connection, NasOctets, RadioKeys};
use nas_elements::UeCapability;
use nas_messages::SecurityHeader;
use nas_security::{Eia2, SecurityContext};
use per_bits::Items;
use snapshot_formats::{
    HeaderCode, SavedAsked, SavedBearer, SavedBearerState, SavedConnection, SavedContext,
    SavedCountdown, SavedKeys, SavedRadio, SavedRepeat, SavedRequest, SavedState, SavedTrail,
    StationIndex,
};
use std::alloc::{AllocError, Global};

fn connection_of(saved: &SavedConnection) -> Connection
    ensures { result ≡ named_connection (typed_saved_connection saved.now) }
{
    Connection {
        id: AssociationId::new(saved.id.get() as u32),
        station: StationNumber::new(saved.station.get() as u8),
        enb_ue_id: saved.enb_ue_id,
    }
}

// The keys for the radio, derived, or as they are.
fn radio_of(kasme: &Kasme, saved: &SavedRadio) -> RadioKeys
    ensures { result ≡ named_radio kasme.now (typed_saved_radio saved.now) }
{
    match saved {
        SavedRadio::Verbatim(keys) => verbatim(keys),
        SavedRadio::Derived(trail) => derived(kasme, trail.count.get() as u32, trail.moves.get()),
    }
}

fn verbatim(keys: &SavedKeys) -> RadioKeys
    ensures { result ≡ record { kenb = keys.now.kenb; next_hop = keys.now.next_hop; chaining_count = keys.now.chaining_count } }
{
    let next_hop = match keys.next_hop {
        Some(hop) => Some(NextHop::new(hop.get())),
        None => None,
    };
    RadioKeys {
        kenb: Kenb::new(keys.kenb.get()),
        next_hop,
        chaining_count: keys.chaining_count.get() as u8,
    }
}

fn derived(kasme: &Kasme, count: u32, moves: u64) -> RadioKeys
    requires { moves ≤ 2 ^ 62 }
    ensures { result ≡ keys_after moves kasme.now count }
{
    let kenb = kasme.kenb(count);
    let next_hop = match moves {
        0 => None,
        _ => Some(kasme.hop_at(&kenb, moves + 1)),
    };
    RadioKeys {
        kenb,
        next_hop,
        chaining_count: ((moves + 1) % 8) as u8,
    }
}

fn context_of(saved: &SavedContext) -> Context
    ensures { result ≡ named_context (typed_saved_context saved.now) }
{
    let kasme = Kasme::new(saved.kasme.octets);
    let place = saved.place.get() as usize;
    let up_last = match saved.up_last {
        Some(count) => Some(count.get() as u32),
        None => None,
    };
    let integrity = Eia2::new(&kasme.nas_integrity_key());
    Context {
        place,
        security: SecurityContext::new(
            integrity,
            ksi_of(place),
            saved.down_next.get() as u32,
            up_last,
        ),
        radio: radio_of(&kasme, &saved.radio),
        kasme,
    }
}

fn asked_of(saved: &SavedAsked) -> Asked
    requires { fits_asked (typed_saved_asked saved.now) ≡ true }
    ensures { result ≡ named_asked (typed_saved_asked saved.now) }
{
    Asked {
        capability: UeCapability::new(saved.capability.octets),
        combined_attach: saved.combined_attach.set,
        initial_update: saved.initial_update.set,
    }
}

fn request_of(saved: SavedRequest) -> Request
    ensures { result ≡ named_request (typed_saved_request saved) }
{
    Request {
        transaction: saved.transaction.get() as u8,
        dual: saved.dual.set,
        information: saved.information.set,
    }
}

#[tactic(auto, unfolding(crate::specs::States::named_bearer_state))]
fn bearer_state_of(saved: SavedBearerState) -> BearerState
    ensures { result ≡ named_bearer_state (typed_saved_bearer_state saved) }
{
    match saved {
        SavedBearerState::Inactive => BearerState::Inactive,
        SavedBearerState::ActivePending => BearerState::ActivePending,
        SavedBearerState::Active => BearerState::Active,
    }
}

fn bearer_of(saved: &SavedBearer) -> Bearer
    ensures { result ≡ named_bearer (typed_saved_bearer saved.now) }
{
    let request = match saved.request {
        Some(request) => Some(request_of(request)),
        None => None,
    };
    Bearer::of(bearer_state_of(saved.state), request)
}

#[tactic(auto, unfolding(nas_messages::specs::Protection::header_of))]
fn protection_of(header: Option<HeaderCode>) -> Protection
    ensures { result ≡ named_protection header }
{
    let Some(code) = header else {
        return Protection::Plain;
    };
    match code.get() {
        1 => Protection::Under(SecurityHeader::IntegrityProtected),
        2 => Protection::Under(SecurityHeader::IntegrityProtectedCiphered),
        3 => Protection::Under(SecurityHeader::NewContext),
        4 => Protection::Under(SecurityHeader::NewContextCiphered),
        _ => Protection::Plain,
    }
}

fn stations_of(alloc: Global, saved: &Items<StationIndex, 0, 128>) -> Result<Stations, AllocError>
    ensures { IfOk result (λ s. s ≡ map (λ e. e) saved.now) }
{
    let mut stations = Vec::with_capacity(alloc, saved.len())?;
    for station in saved.as_slice() {
        stations.push(StationNumber::new(station.get() as u8))?;
    }
    Ok(Stations::new(stations))
}

fn repeat_of(alloc: Global, saved: &SavedRepeat) -> Result<Repeat, AllocError>
    ensures { IfOk result (λ r. r ≡ named_repeat (typed_saved_repeat saved.now)) }
{
    match saved {
        SavedRepeat::Nas(nas) => {
            let octets = Vec::from_slice(alloc, nas.nas.octets)?;
            Ok(Repeat::Nas(protection_of(nas.header), NasOctets::new(octets)))
        }
        SavedRepeat::Paging(stations) => Ok(Repeat::Paging(stations_of(alloc, stations)?)),
    }
}

fn countdown_of(saved: SavedCountdown) -> Countdown
    ensures { result ≡ named_countdown (typed_saved_countdown saved) }
{
    Countdown {
        timer: timer_of(saved.timer),
        left: saved.left.get() as u32,
        repeats: saved.repeats.get() as u32,
    }
}

/// The place of the vector that is taken next, where so many are spent.
pub(crate) fn next_of(phase: Phase, spent: usize) -> usize
    requires { spent ≤ 2 ^ 62 }
    ensures { result ≡ next_of phase spent }
{
    match phase {
        Phase::Authenticating => spent + 1,
        _ => spent,
    }
}

/// The state that is stored, of a phone of which so many vectors are spent.
pub(crate) fn state_of(alloc: Global, spent: usize, saved: &SavedState) -> Result<Solo, AllocError>
    requires spent { spent ≤ 2 ^ 62 }
    requires asked { fits_asked (typed_saved_asked saved.now.asked) ≡ true }
    ensures { IfOk result (λ s. s ≡ named_state spent (typed_saved_state saved.now)) }
{
    let repeat = match &saved.waits.repeat {
        Some(repeat) => Some(repeat_of(alloc, repeat)?),
        None => None,
    };
    let phase = phase_of(saved.link.phase);
    let connection = match &saved.link.connection {
        Some(connection) => Some(connection_of(connection)),
        None => None,
    };
    let context = match &saved.link.context {
        Some(context) => Some(context_of(context)),
        None => None,
    };
    let tmsi = match saved.ids.tmsi {
        Some(tmsi) => Some(Tmsi::new(tmsi.get() as u32)),
        None => None,
    };
    let procedure = match saved.waits.procedure {
        Some(countdown) => Some(countdown_of(countdown)),
        None => None,
    };
    let reachable = match saved.waits.reachable {
        Some(left) => Some(left.get() as u32),
        None => None,
    };
    Ok(Solo {
        phase,
        connection,
        context,
        associations: Counter::of(saved.ids.associations.get() as u16),
        tmsis: Counter::of(saved.ids.tmsis.get() as u16),
        tmsi,
        next_vector: next_of(phase, spent),
        tai: saved.tai,
        asked: asked_of(&saved.asked),
        bearer: bearer_of(&saved.bearer),
        repeat,
        procedure,
        reachable,
    })
}
