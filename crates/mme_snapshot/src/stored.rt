//! What of an MME stands in the parts of a snapshot.

ghost use Rattle.std.specs.Prelude.{◌≡◌, ◌+◌, ◌≤◌, ◌^◌, not, true, drop, length, map, IfOk, IfSome};
ghost use Rattle.per_bits.specs.Formats.{Value, items};
ghost use Rattle.per_bits.specs.Reading.{GivesWhole};
ghost use Rattle.per_bits.specs.Spelling.{SpellsWhole};
ghost use Rattle.per_bits.specs.Writing.{complete_write, write_at, write_each};
ghost use Rattle.per_streams.specs.Writing.{Wrote};
ghost use Rattle.identity_slots.specs.Ids.{is_of_slot};
ghost use Rattle.emm_state.specs.Taking.{vectors_spent};
ghost use Rattle.stranger_machine.specs.Lent.{lent_now as stranger_now};
ghost use Rattle.mme_owners.specs.Lent.{lent_now};
ghost use Rattle.snapshot_formats.specs.Formats.{saved_station, saved_subscriber, saved_vector};
ghost use Rattle.snapshot_formats.specs.Heads.{typed_saved_head, typed_saved_station, typed_saved_stranger, typed_saved_stranger_state, typed_saved_waiting};
ghost use Rattle.snapshot_formats.specs.Subscribers.{typed_saved_state};
ghost use Rattle.snapshot_formats.specs.declared.head.SavedStation.TheVariants.{Ready};
ghost use Rattle.snapshot_states.specs.Fit.{fits};
ghost use Rattle.snapshot_states.specs.Saving.{HasOwnKey};
ghost use Rattle.snapshot_states.specs.States.{named_state};
ghost use Rattle.mme_snapshot.specs.Images.{is_label, is_timed, known_of, named_head, named_kept, named_station, named_stranger};
ghost use Rattle.mme_snapshot.specs.Stored.{stored_subscriber, stored_vector};

use crate::fault::SaveFault;
use crate::part::spelled;
use emm_machine::Subscriber;
use identity_slots::{AssociationId, Vector, number_in, station_in};
use mme_core::Config;
use mme_owners::LentSubscriber;
use mme_types::{Apn, StationState};
use nas_elements::timers;
use per_bits::{
    BitWriter, Element, OctetString, Octets, PerError, SizedString, Whole, put_aligned, put_number,
    write_choice,
};
use s1ap_elements::SupportedTas;
use snapshot_formats::{
    GREATEST_LONG, LentKey, SavedHead, SavedNetwork, SavedState, SavedStation, SavedStranger,
    SavedStrangerState, SavedWaiting,
};
use snapshot_states::{Clocks, MOST_VECTORS, saved_state, stored_spent, stored_unspent};
use std::alloc::{AllocError, Global};
use stranger_machine::{KeptEntry, LentStranger, Stranger};

/// What stands first; none where a clock is past those that are stored.
pub(crate) fn stored_head<'a>(config: &'a Config, clock: u64) -> Option<SavedHead<'a>>
    ensures head { IfSome result (λ h. named_head (typed_saved_head h) ≡ record { config = config.entry.now; clock = clock }) }
    ensures label { IfSome result (λ h. is_label h.network.apn.octets.now ≡ true) }
{
    let network = &config.network;
    let _label = Apn::try_new(network.apn.as_slice())?;
    Some(SavedHead {
        network: SavedNetwork {
            plmn: network.plmn,
            group: network.group,
            code: network.code,
            apn: SizedString {
                octets: network.apn.as_slice(),
            },
            down: network.down,
            up: network.up,
        },
        began: Whole::try_new(config.clock)?,
        clock: Whole::try_new(clock)?,
    })
}

// The octets that spell the state of a station that is set up.
fn ready_octets(alloc: Global, areas: &SupportedTas) -> Result<Vec<u8>, PerError>
    ensures { GivesWhole (λ v. v.items) result (complete_write saved_station (typed_saved_station (Ready areas.now))) }
{
    let mut writer = BitWriter::new(alloc);
    write_choice(2, 2, areas, alloc, &mut writer)?;
    writer.finish()
}

/// The octets that spell the state of a station.
pub(crate) fn station_octets(alloc: Global, state: &StationState) -> Result<Vec<u8>, SaveFault>
    ensures { IfOk result (λ v. (s : Value saved_station) × (named_station s ≡ state.now) × SpellsWhole saved_station s v.items) }
{
    match state {
        StationState::Down => spelled(alloc, &SavedStation::Down, SaveFault::First),
        StationState::Up => spelled(alloc, &SavedStation::Up, SaveFault::First),
        StationState::Ready(areas) => match ready_octets(alloc, areas) {
            Ok(octets) => Ok(octets),
            Err(error) => Err(SaveFault::First.of(error)),
        },
    }
}

// A stranger that waits, with so much of T3470 left; none where that is no ticks or too many, or its id is made of another place.
fn stored_waiting<'a>(
    id: AssociationId,
    kept: &'a KeptEntry,
    left: u32,
    repeats: u32,
) -> Option<SavedWaiting<'a>>
    ensures kept { IfSome result (λ w. named_kept id (typed_saved_waiting w) ≡ kept.entry.now) }
    ensures left { IfSome result (λ w. w.left ≡ left) }
    ensures repeats { IfSome result (λ w. w.repeats ≡ repeats) }
{
    if kept.station.get() != station_in(id) || kept.enb_ue_id.get() != u64::from(number_in(id)) {
        return None;
    }
    Some(SavedWaiting {
        nas: OctetString {
            octets: kept.nas.as_slice(),
        },
        tai: kept.tai,
        left: Whole::try_new(u64::from(left))?,
        repeats: Whole::try_new(u64::from(repeats))?,
    })
}

// The state of a stranger as it is now.
fn stored_state<'a>(id: AssociationId, lent: LentStranger<'a>) -> Option<SavedStrangerState<'a>>
    ensures state { IfSome result (λ s. named_stranger id (typed_saved_stranger_state s) ≡ stranger_now lent.entry) }
    ensures timed { IfSome result (λ s. is_timed (stranger_now lent.entry) ≡ true) }
{
    match lent.stranger {
        Stranger::Waiting {
            kept,
            left,
            repeats,
        } => {
            let left = u64::from(*left).saturating_sub(lent.slept) as u32;
            if left == 0 || timers::T3470_TICKS < left || timers::T3470_REPEATS < *repeats {
                return None;
            }
            match stored_waiting(id, kept, left, *repeats) {
                Some(waiting) => Some(SavedStrangerState::Waiting(waiting)),
                None => None,
            }
        }
        Stranger::Held(slot) => Some(SavedStrangerState::Held(Whole::new(u64::from(slot.get())))),
    }
}

/// A stranger as it is now; none where a restore wouldn't take it.
pub(crate) fn stored_stranger<'a>(
    id: AssociationId,
    lent: LentStranger<'a>,
) -> Option<SavedStranger<'a>>
    ensures is { IfSome result (λ s. known_of (typed_saved_stranger s) ≡ record { id = id; stranger = stranger_now lent.entry }) }
    ensures nobodys { IfSome result (λ s. not (is_of_slot s.id) ≡ true) }
    ensures timed { IfSome result (λ s. is_timed (stranger_now lent.entry) ≡ true) }
{
    if id.is_of_slot() {
        return None;
    }
    match stored_state(id, lent) {
        Some(state) => Some(SavedStranger {
            id: Whole::new(u64::from(id.get())),
            state,
        }),
        None => None,
    }
}

// Writes a vector.
fn write_vector(alloc: Global, vector: &Vector, writer: &mut BitWriter) -> Result<(), PerError>
    ensures { Wrote result writer.new (write_at saved_vector (stored_vector vector.now) writer.old) }
{
    Octets::new(vector.rand).write(alloc, writer)?;
    Octets::new(vector.autn).write(alloc, writer)?;
    let xres = vector.xres.as_slice();
    put_number(4, 16, xres.len() as u64, writer)?;
    put_aligned(xres, writer)?;
    LentKey {
        octets: vector.kasme.octets(),
    }
    .write(alloc, writer)
}

/// What is stored of a subscriber, its secrets and what is sent again lent.
#[derive(Drop)]
pub(crate) struct Stored<'a> {
    pub subscriber: &'a Subscriber,
    /// How many of its vectors are spent, and how many aren't.
    pub spent: usize,
    pub unspent: usize,
    pub state: SavedState<'a>,
}

/// What is stored of a subscriber as it is now; none where a restore wouldn't take it, or a number is greater than those stored.
#[tactic(auto, unfolding(emm_machine::specs::Ticks::solo_aged))]
pub(crate) fn stored_subscriber<'a>(
    alloc: Global,
    lent: LentSubscriber<'a>,
) -> Result<Option<Stored<'a>>, AllocError>
    requires { HasOwnKey (lent_now lent).solo.context }
    ensures subscriber { IfOk result (λ o. IfSome o (λ s. s.subscriber.now.setting ≡ (lent_now lent.entry).setting)) }
    ensures asked { IfOk result (λ o. IfSome o (λ s. vectors_spent s.subscriber.now.solo ≤ s.spent)) }
    ensures spent { IfOk result (λ o. IfSome o (λ s. s.spent ≡ vectors_spent (lent_now lent.entry).solo)) }
    ensures all { IfOk result (λ o. IfSome o (λ s. s.spent + s.unspent ≡ length (lent_now lent.entry).setting.vectors)) }
    ensures state { IfOk result (λ o. IfSome o (λ s.
        named_state s.spent (typed_saved_state s.state) ≡ (lent_now lent.entry).solo)) }
    ensures fits { IfOk result (λ o. IfSome o (λ s. fits s.spent s.unspent (typed_saved_state s.state) ≡ true)) }
    ensures few { IfOk result (λ o. IfSome o (λ s. s.spent + s.unspent ≤ 2 ^ 63)) }
{
    let subscriber = lent.subscriber;
    let Some(spent) = stored_spent(subscriber) else {
        return Ok(None);
    };
    let Some(unspent) = stored_unspent(subscriber, spent) else {
        return Ok(None);
    };
    let clocks = Clocks {
        procedure: lent.procedure(),
        reachable: lent.reachable(),
    };
    match saved_state(alloc, subscriber.solo(), clocks, unspent) {
        Ok(Some(state)) => Ok(Some(Stored {
            subscriber,
            spent,
            unspent,
            state,
        })),
        Ok(None) => Ok(None),
        Err(fault) => Err(fault),
    }
}

// Writes each vector of a subscriber that isn't spent.
fn write_each_vector(alloc: Global, stored: &Stored, writer: &mut BitWriter) -> Result<(), PerError>
    requires asked { vectors_spent stored.now.subscriber.now.solo ≤ stored.now.spent }
    requires all { stored.now.spent + stored.now.unspent ≡ length stored.now.subscriber.now.setting.vectors }
    requires few { stored.now.spent + stored.now.unspent ≤ 2 ^ 63 }
    ensures { Wrote result writer.new (write_each (write_at saved_vector)
        (map stored_vector (drop stored.now.spent stored.now.subscriber.now.setting.vectors)) writer.old) }
{
    let subscriber = stored.subscriber;
    for place in stored.spent..stored.spent + stored.unspent {
        let Some(vector) = subscriber.vector(place) else {
            unreachable!();
        };
        write_vector(alloc, vector, writer)?;
    }
    Ok(())
}

// Writes how many vectors of a subscriber aren't spent, and each of them.
fn write_vectors(alloc: Global, stored: &Stored, writer: &mut BitWriter) -> Result<(), PerError>
    requires asked { vectors_spent stored.now.subscriber.now.solo ≤ stored.now.spent }
    requires all { stored.now.spent + stored.now.unspent ≡ length stored.now.subscriber.now.setting.vectors }
    requires few { stored.now.spent + stored.now.unspent ≤ 2 ^ 63 }
    ensures { Wrote result writer.new (write_at (items 0 65535 saved_vector)
        (map stored_vector (drop stored.now.spent stored.now.subscriber.now.setting.vectors)) writer.old) }
{
    put_number(0, MOST_VECTORS as u64, stored.unspent as u64, writer)?;
    write_each_vector(alloc, stored, writer)
}

/// Writes what is stored of a subscriber.
pub(crate) fn write_subscriber(
    alloc: Global,
    stored: &Stored,
    writer: &mut BitWriter,
) -> Result<(), PerError>
    requires asked { vectors_spent stored.now.subscriber.now.solo ≤ stored.now.spent }
    requires all { stored.now.spent + stored.now.unspent ≡ length stored.now.subscriber.now.setting.vectors }
    requires few { stored.now.spent + stored.now.unspent ≤ 2 ^ 63 }
    ensures { Wrote result writer.new (write_at saved_subscriber
        (stored_subscriber stored.now.subscriber.now.setting stored.now.spent (typed_saved_state stored.now.state)) writer.old) }
{
    let profile = &stored.subscriber.setting().profile;
    Octets::new(profile.imsi.octets()).write(alloc, writer)?;
    Octets::new(profile.address).write(alloc, writer)?;
    Octets::new(profile.gateway).write(alloc, writer)?;
    Octets::new(profile.teid).write(alloc, writer)?;
    put_number(0, GREATEST_LONG, stored.spent as u64, writer)?;
    write_vectors(alloc, stored, writer)?;
    stored.state.write(alloc, writer)
}
