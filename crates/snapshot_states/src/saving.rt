//! Parts of a snapshot, made of the states of phones' machines.

ghost use Rattle.std.specs.Prelude.{◌≡◌, map, option_map, IfOk, IfSome, true};
ghost use Rattle.eps_keys.specs.Hmac.{nas_integrity_key};
ghost use Rattle.emm_state.specs.Taking.{vectors_spent};
ghost use Rattle.laws_subscriber.specs.Sound.{keys_after, told_after};
ghost use Rattle.snapshot_formats.specs.Contexts.{typed_saved_connection, typed_saved_context, typed_saved_radio};
ghost use Rattle.snapshot_formats.specs.Subscribers.{typed_saved_asked, typed_saved_bearer, typed_saved_bearer_state, typed_saved_countdown, typed_saved_repeat, typed_saved_request, typed_saved_state};
ghost use Rattle.snapshot_states.specs.Fit.{fits};
ghost use Rattle.snapshot_states.specs.Saving.{HasOwnKey, with_clocks};
ghost use Rattle.snapshot_states.specs.States.{named_asked, named_bearer, named_bearer_state, named_connection, named_context, named_countdown, named_phase, named_protection, named_radio, named_repeat, named_request, named_state, next_of};

use crate::fit::is_state;
use crate::numbers::{phase_number, timer_number};
use crate::restoring::next_of;
use crate::taking::{fits_asked, fits_link};
use emm_state::{Asked, Context, Countdown, Phase, Protection, Repeat, Solo, Stations, ksi_of};
use eps_keys::{Kasme, Kenb, NextHop};
use esm_machine::{Bearer, BearerState, Request};
use mme_types::{Connection, RadioKeys};
use nas_messages::SecurityHeader;
use per_bits::{Items, OctetString, Octets, SizedString, Whole};
use snapshot_formats::{
    Flag, GREATEST_LONG, HeaderCode, LentKey, Long, SavedAsked, SavedBearer, SavedBearerState,
    SavedConnection, SavedContext, SavedCountdown, SavedIds, SavedKeys, SavedLink, SavedNas,
    SavedRadio, SavedRepeat, SavedRequest, SavedState, SavedTrail, SavedWaits, StationIndex,
    TicksLeft,
};
use std::alloc::{AllocError, Global};

/// A phone's countdowns as they are now, which its state has as they were before it slept.
#[derive(Clone, Copy)]
pub struct Clocks {
    /// Of the procedure that is under way.
    pub procedure: Option<Countdown>,
    /// The ticks, which are seconds, until a phone that is idle is taken to be gone (TS 24.301 clause 5.3.5).
    pub reachable: Option<u32>,
}

impl Clocks {
    /// Those that a state has.
    pub fn of(solo: &Solo) -> Clocks
        ensures { result ≡ record { procedure = solo.now.procedure; reachable = solo.now.reachable } }
    {
        Clocks {
            procedure: solo.procedure,
            reachable: solo.reachable,
        }
    }
}

fn connection_of(connection: &Connection) -> SavedConnection
    ensures { named_connection (typed_saved_connection result) ≡ connection.now }
{
    SavedConnection {
        id: Whole::new(u64::from(connection.id.get())),
        station: Whole::new(u64::from(connection.station.get())),
        enb_ue_id: connection.enb_ue_id,
    }
}

// How many path switches led to the next hop that a station was told last; none where they didn't.
fn moves_to(kasme: &Kasme, kenb: &Kenb, next_hop: &Option<NextHop>) -> Option<Long>
    ensures { IfSome result (λ moves. told_after moves kasme.now kenb.now ≡ next_hop.now) }
{
    let Some(hop) = next_hop else {
        return Some(Whole::new(0));
    };
    let number = kasme.number_of(kenb, hop)?;
    if number < 2 {
        return None;
    }
    Whole::try_new(number - 1)
}

// How keys for the radio come of KASME; none where they don't.
fn trail_of(kasme: &Kasme, keys: &RadioKeys) -> Option<SavedTrail>
    ensures { IfSome result (λ t. keys_after t.moves kasme.now t.count ≡ keys.now) }
{
    let count = kasme.count_of(&keys.kenb)?;
    let moves = moves_to(kasme, &keys.kenb, &keys.next_hop)?;
    if u64::from(keys.chaining_count) != (moves.get() + 1) % 8 {
        return None;
    }
    Some(SavedTrail {
        count: Whole::new(u64::from(count)),
        moves,
    })
}

// Keys for the radio as they are; none where the chaining count isn't one.
fn verbatim(keys: &RadioKeys) -> Option<SavedKeys>
    ensures { IfSome result (λ k. record { kenb = k.kenb; next_hop = k.next_hop; chaining_count = k.chaining_count } ≡ keys.now) }
{
    let next_hop = match &keys.next_hop {
        Some(hop) => Some(Octets::new(*hop.octets())),
        None => None,
    };
    let chaining_count = Whole::try_new(u64::from(keys.chaining_count))?;
    Some(SavedKeys {
        kenb: Octets::new(*keys.kenb.octets()),
        next_hop,
        chaining_count,
    })
}

// The keys for the radio: how they come of KASME, or as they are.
fn radio_of(kasme: &Kasme, keys: &RadioKeys) -> Option<SavedRadio>
    ensures { IfSome result (λ r. named_radio kasme.now (typed_saved_radio r) ≡ keys.now) }
{
    match trail_of(kasme, keys) {
        Some(trail) => Some(SavedRadio::Derived(trail)),
        None => Some(SavedRadio::Verbatim(verbatim(keys)?)),
    }
}

// A context; none where its key set identifier isn't that of its vector's place, or where its keys for the radio can't be stored.
fn context_of<'a>(context: &'a Context) -> Option<SavedContext<'a>>
    requires { context.now.security.integrity ≡ nas_integrity_key context.now.kasme }
    ensures { IfSome result (λ c. named_context (typed_saved_context c) ≡ context.entry.now) }
{
    if context.security.ksi() != ksi_of(context.place) {
        return None;
    }
    let place = Whole::try_new(context.place as u64)?;
    let radio = radio_of(&context.kasme, &context.radio)?;
    let up_last = match context.security.up_last() {
        Some(count) => Some(Whole::new(u64::from(count))),
        None => None,
    };
    Some(SavedContext {
        place,
        down_next: Whole::new(u64::from(context.security.down_next())),
        up_last,
        kasme: LentKey {
            octets: context.kasme.octets(),
        },
        radio,
    })
}

// What a machine is about, and where its phone is; none where the context can't be stored.
fn link_of<'a>(solo: &'a Solo) -> Option<SavedLink<'a>>
    requires { HasOwnKey solo.now.context }
    ensures phase { IfSome result (λ l. named_phase l.phase ≡ solo.entry.now.phase) }
    ensures connection { IfSome result (λ l.
        option_map named_connection (option_map typed_saved_connection l.connection) ≡ solo.entry.now.connection) }
    ensures context { IfSome result (λ l.
        option_map named_context (option_map typed_saved_context l.context) ≡ solo.entry.now.context) }
{
    let phase = phase_number(solo.phase);
    let connection = match &solo.connection {
        Some(connection) => Some(connection_of(connection)),
        None => None,
    };
    let context = match &solo.context {
        Some(context) => match context_of(context) {
            Some(context) => Some(context),
            None => return None,
        },
        None => None,
    };
    Some(SavedLink {
        phase,
        connection,
        context,
    })
}

fn ids_of(solo: &Solo) -> SavedIds
    ensures associations { result.associations ≡ solo.now.associations }
    ensures tmsis { result.tmsis ≡ solo.now.tmsis }
    ensures tmsi { result.tmsi ≡ solo.now.tmsi }
{
    let tmsi = match solo.tmsi {
        Some(tmsi) => Some(Whole::new(u64::from(tmsi.get()))),
        None => None,
    };
    SavedIds {
        associations: Whole::new(u64::from(solo.associations.get())),
        tmsis: Whole::new(u64::from(solo.tmsis.get())),
        tmsi,
    }
}

fn asked_of<'a>(asked: &'a Asked) -> SavedAsked<'a>
    ensures { named_asked (typed_saved_asked result) ≡ asked.entry.now }
{
    SavedAsked {
        capability: SizedString {
            octets: asked.capability.as_slice(),
        },
        combined_attach: Flag {
            set: asked.combined_attach,
        },
        initial_update: Flag {
            set: asked.initial_update,
        },
    }
}

fn request_of(request: Request) -> SavedRequest
    ensures { named_request (typed_saved_request result) ≡ request }
{
    SavedRequest {
        transaction: Whole::new(u64::from(request.transaction)),
        dual: Flag { set: request.dual },
        information: Flag {
            set: request.information,
        },
    }
}

#[tactic(auto, unfolding(crate::specs::States::named_bearer_state))]
fn bearer_state_of(state: BearerState) -> SavedBearerState
    ensures { named_bearer_state (typed_saved_bearer_state result) ≡ state }
{
    match state {
        BearerState::Inactive => SavedBearerState::Inactive,
        BearerState::ActivePending => SavedBearerState::ActivePending,
        BearerState::Active => SavedBearerState::Active,
    }
}

fn bearer_of(bearer: &Bearer) -> SavedBearer
    ensures { named_bearer (typed_saved_bearer result) ≡ bearer.now }
{
    let request = match bearer.request() {
        Some(request) => Some(request_of(request)),
        None => None,
    };
    SavedBearer {
        state: bearer_state_of(bearer.state()),
        request,
    }
}

// Under which header a message is protected anew; none where it is sent plain.
#[tactic(auto, unfolding(nas_messages::specs::Protection::header_of))]
fn header_of(protection: Protection) -> Option<HeaderCode>
    ensures { named_protection result ≡ protection }
{
    let Protection::Under(header) = protection else {
        return None;
    };
    match header {
        SecurityHeader::IntegrityProtected => Some(Whole::new(1)),
        SecurityHeader::IntegrityProtectedCiphered => Some(Whole::new(2)),
        SecurityHeader::NewContext => Some(Whole::new(3)),
        SecurityHeader::NewContextCiphered => Some(Whole::new(4)),
    }
}

// Stations to which PAGING is sent again; none where there are more than an MME has.
fn stations_of(
    alloc: Global,
    stations: &Stations,
) -> Result<Option<Items<StationIndex, 0, 128>>, AllocError>
    ensures { IfOk result (λ o. IfSome o (λ s. map (λ e. e) s ≡ stations.now)) }
{
    let mut numbers = Vec::with_capacity(alloc, stations.as_slice().len())?;
    for station in stations.as_slice() {
        numbers.push(Whole::new(u64::from(station.get())))?;
    }
    Ok(Items::try_new(numbers))
}

// What is sent again, its octets lent; none where it is PAGING to more stations than are stored.
fn repeat_of<'a>(alloc: Global, repeat: &'a Repeat) -> Result<Option<SavedRepeat<'a>>, AllocError>
    ensures { IfOk result (λ o. IfSome o (λ r. named_repeat (typed_saved_repeat r) ≡ repeat.entry.now)) }
{
    match repeat {
        Repeat::Nas(protection, nas) => Ok(Some(SavedRepeat::Nas(SavedNas {
            header: header_of(*protection),
            nas: OctetString {
                octets: nas.as_slice(),
            },
        }))),
        Repeat::Paging(stations) => match stations_of(alloc, stations)? {
            Some(stations) => Ok(Some(SavedRepeat::Paging(stations))),
            None => Ok(None),
        },
    }
}

// A countdown; none where it has ended, or has more ticks or repeats left than are stored.
fn countdown_of(countdown: Countdown) -> Option<SavedCountdown>
    ensures { IfSome result (λ c. named_countdown (typed_saved_countdown c) ≡ countdown) }
{
    let left = Whole::try_new(u64::from(countdown.left))?;
    let repeats = Whole::try_new(u64::from(countdown.repeats))?;
    Some(SavedCountdown {
        timer: timer_number(countdown.timer),
        left,
        repeats,
    })
}

// The countdown of a procedure, if one runs; none where that can't be stored.
fn procedure_of(procedure: Option<Countdown>) -> Option<Option<SavedCountdown>>
    ensures { IfSome result (λ p. option_map named_countdown (option_map typed_saved_countdown p) ≡ procedure) }
{
    match procedure {
        Some(countdown) => Some(Some(countdown_of(countdown)?)),
        None => Some(None),
    }
}

// The ticks until a phone is taken to be gone, if it is idle; none where there are none, or more than are stored.
fn reachable_of(reachable: Option<u32>) -> Option<Option<TicksLeft>>
    ensures { IfSome result (λ r. r ≡ reachable) }
{
    match reachable {
        Some(left) => Some(Some(Whole::try_new(u64::from(left))?)),
        None => Some(None),
    }
}

// What a machine waits for; none where that can't be stored.
fn waits_of<'a>(
    alloc: Global,
    repeat: &'a Option<Repeat>,
    clocks: Clocks,
) -> Result<Option<SavedWaits<'a>>, AllocError>
    ensures repeat { IfOk result (λ o. IfSome o (λ w.
        option_map named_repeat (option_map typed_saved_repeat w.repeat) ≡ repeat.entry.now)) }
    ensures procedure { IfOk result (λ o. IfSome o (λ w.
        option_map named_countdown (option_map typed_saved_countdown w.procedure) ≡ clocks.procedure)) }
    ensures reachable { IfOk result (λ o. IfSome o (λ w. w.reachable ≡ clocks.reachable)) }
{
    let Some(procedure) = procedure_of(clocks.procedure) else {
        return Ok(None);
    };
    let Some(reachable) = reachable_of(clocks.reachable) else {
        return Ok(None);
    };
    let Some(again) = repeat else {
        return Ok(Some(SavedWaits {
            repeat: None,
            procedure,
            reachable,
        }));
    };
    match repeat_of(alloc, again)? {
        Some(stored) => Ok(Some(SavedWaits {
            repeat: Some(stored),
            procedure,
            reachable,
        })),
        None => Ok(None),
    }
}

/// How many vectors are spent, by the state alone.
pub fn vectors_spent(solo: &Solo) -> usize
    ensures { result ≡ vectors_spent solo.now }
{
    match solo.phase {
        Phase::Authenticating => solo.next_vector.saturating_sub(1),
        _ => solo.next_vector,
    }
}

// How many vectors are spent; none where there are more than are stored, or where a challenge is out and no vector was taken.
fn spent_of(solo: &Solo) -> Option<usize>
    ensures spent { IfSome result (λ n. n ≡ vectors_spent solo.now) }
    ensures next { IfSome result (λ n. next_of solo.now.phase n ≡ solo.now.next_vector) }
{
    let spent = vectors_spent(solo);
    if spent as u64 > GREATEST_LONG {
        return None;
    }
    if next_of(solo.phase, spent) != solo.next_vector {
        return None;
    }
    Some(spent)
}

// Whether a restore takes what was made of a state.
#[tactic(auto, unfolding(crate::specs::Fit::fits))]
fn is_taken(solo: &Solo, clocks: Clocks, spent: usize, unspent: usize, saved: &SavedState) -> bool
    requires { named_state spent (typed_saved_state saved.now) ≡ with_clocks clocks solo.now }
    ensures { result ≡ fits spent unspent (typed_saved_state saved.now) }
{
    fits_link(spent as u64, &saved.link)
        && fits_asked(&saved.asked)
        && is_state(solo, clocks, unspent)
}

/// What is stored of a state with these countdowns, of a phone that has `unspent` vectors that aren't spent; none where a restore
/// wouldn't take it: where no phone's machine can be in that state, or where a number of it is greater than those that are stored.
/// The octets of a message that is sent again are lent. Keys for the radio that come of KASME are stored as how they come of it,
/// for which they are derived once more (TS 33.401 clause 7.2.8.1).
pub fn saved_state<'a>(
    alloc: Global,
    solo: &'a Solo,
    clocks: Clocks,
    unspent: usize,
) -> Result<Option<SavedState<'a>>, AllocError>
    requires { HasOwnKey solo.now.context }
    ensures state { IfOk result (λ o. IfSome o (λ s.
        named_state (vectors_spent solo.entry.now) (typed_saved_state s) ≡ with_clocks clocks solo.entry.now)) }
    ensures fits { IfOk result (λ o. IfSome o (λ s.
        fits (vectors_spent solo.entry.now) unspent (typed_saved_state s) ≡ true)) }
{
    let Some(spent) = spent_of(solo) else {
        return Ok(None);
    };
    let Some(link) = link_of(solo) else {
        return Ok(None);
    };
    let Some(waits) = waits_of(alloc, &solo.repeat, clocks)? else {
        return Ok(None);
    };
    let saved = SavedState {
        link,
        ids: ids_of(solo),
        tai: solo.tai,
        asked: asked_of(&solo.asked),
        bearer: bearer_of(&solo.bearer),
        waits,
    };
    if is_taken(solo, clocks, spent, unspent, &saved) {
        Ok(Some(saved))
    } else {
        Ok(None)
    }
}
