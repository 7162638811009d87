//! An MME as octets, part after part.

ghost use Rattle.std.specs.Prelude.{◌≡◌, ◌+◌, ◌^◌, ◌≤◌, ◌++◌, [], length, slice_get, true, Ok, Some, IfOk, OnOk};
ghost use Rattle.nas_elements.specs.Digits.{is_imsi};
ghost use Rattle.per_bits.specs.Spelling.{SpellsWhole};
ghost use Rattle.sorted_list.specs.Sorted.{lowest_from};
ghost use Rattle.per_bits.specs.Formats.{Value, number};
ghost use Rattle.emm_machine.specs.SubscriberView.{SubscriberView};
ghost use Rattle.stranger_machine.specs.Table.{known_id, stranger_at};
ghost use Rattle.stranger_machine.specs.declared.state.Stranger.{Stranger};
ghost use Rattle.mme_core.specs.Remembered.{remembered};
ghost use Rattle.snapshot_formats.specs.Formats.{saved_head, saved_subscriber};
ghost use Rattle.snapshot_formats.specs.Subscribers.{typed_saved_state};
ghost use Rattle.emm_state.specs.Taking.{vectors_spent};
ghost use Rattle.mme_snapshot.specs.Images.{is_label, named_head};
ghost use Rattle.mme_snapshot.specs.Stored.{stored_subscriber};
ghost use Rattle.mme_snapshot.specs.Restored.{restored};
ghost use Rattle.mme_snapshot.specs.Saved.{AreStations, IsFirst, IsNextStranger, IsSavedPart, IsStranger, IsSubscriber, head_of, subscriber_from};

use crate::fault::SaveFault;
use crate::laws::parts_restore;
use crate::part::{Part, SavedOctets, spelled};
use crate::parts::is_placed;
use crate::restoring::VERSION;
use crate::stored::{
    Stored, station_octets, stored_head, stored_stranger, stored_subscriber, write_subscriber,
};
use identity_slots::{AssociationId, Slot};
use mme_core::Mme;
use mme_tables::Strangers;
use mme_types::StationState;
use nas_elements::Imsi;
use per_bits::{BitWriter, PerError, Whole};
use snapshot_formats::SavedRepeat;
use std::alloc::{AllocError, Global};

/// The octets for which a subscriber's part has room at once, beside its vectors and a message that is sent again; more grow.
const ROOM: usize = 512;

/// And those of a vector.
const ROOM_OF_VECTOR: usize = 100;

/// A part of a snapshot.
#[derive(Drop)]
pub struct SavedPart {
    pub octets: SavedOctets,
    /// The part that comes after it, if it isn't the last.
    pub next: Option<Part>,
}

// Further octets after these.
fn append(octets: &mut Vec<u8>, more: &[u8]) -> Result<(), SaveFault>
    ensures { OnOk result (octets.new.items ≡ octets.old.items ++ more.now) }
{
    match octets.extend_from_slice(more) {
        Ok(()) => Ok(()),
        Err(AllocError) => Err(SaveFault::NoMemory),
    }
}

// The states of all stations, one after another.
fn save_stations(alloc: Global, stations: &[StationState]) -> Result<Vec<u8>, SaveFault>
    ensures { IfOk result (λ v. AreStations stations.now v.items) }
{
    let mut octets = Vec::new(alloc);
    for state in stations {
        let part = station_octets(alloc, state)?;
        append(&mut octets, part.as_slice())?;
    }
    Ok(octets)
}

// How many strangers aren't closed.
fn count_of(strangers: &Strangers) -> u64
    ensures { result ≡ length strangers.now.strangers }
{
    let mut count = 0u64;
    let mut least = 0u64;
    while let Some(id) = strangers.first_from(least) {
        count += 1;
        least = u64::from(id.get()) + 1;
    }
    count
}

// The network, where the clock began, and where it is.
fn save_head(alloc: Global, mme: &Mme) -> Result<Vec<u8>, SaveFault>
    ensures { IfOk result (λ v. (h : Value saved_head) × (named_head h ≡ head_of mme.now) × (is_label h.0.1.1.1.0 ≡ true)
        × SpellsWhole saved_head h v.items) }
{
    let parts = mme.parts();
    match stored_head(parts.config, parts.clock) {
        Some(head) => spelled(alloc, &head, SaveFault::First),
        None => Err(SaveFault::First),
    }
}

// How many strangers there are.
fn save_stranger_count(alloc: Global, mme: &Mme) -> Result<Vec<u8>, SaveFault>
    ensures { IfOk result (λ v. SpellsWhole (number 0 4294967295) (length mme.now.strangers) v.items) }
{
    let owners = mme.parts().owners;
    match Whole::<0, 4294967295>::try_new(count_of(&owners.records.strangers)) {
        Some(count) => spelled(alloc, &count, SaveFault::First),
        None => Err(SaveFault::First),
    }
}

// What stands first.
fn save_first(alloc: Global, mme: &Mme) -> Result<Vec<u8>, SaveFault>
    ensures { IfOk result (λ v. IsFirst mme.now v.items) }
{
    let head = save_head(alloc, mme)?;
    let count = save_stranger_count(alloc, mme)?;
    let stations = save_stations(alloc, mme.parts().stations.as_slice())?;
    let mut octets = spelled(alloc, &Whole::<0, 255>::new(VERSION), SaveFault::First)?;
    append(&mut octets, head.as_slice())?;
    append(&mut octets, stations.as_slice())?;
    append(&mut octets, count.as_slice())?;
    Ok(octets)
}

// How many subscribers there are.
fn save_count(alloc: Global, mme: &Mme) -> Result<Vec<u8>, SaveFault>
    ensures { IfOk result (λ v. SpellsWhole (number 0 32768) (length mme.now.subscribers) v.items) }
{
    match Whole::<0, 32768>::try_new(mme.parts().owners.len() as u64) {
        Some(count) => spelled(alloc, &count, SaveFault::First),
        None => Err(SaveFault::First),
    }
}

// The part of a slot's subscriber, if there is one.
fn subscriber_from(mme: &Mme, slot: u32) -> Option<Part>
    ensures { result ≡ subscriber_from mme.now slot }
{
    if (slot as usize) < mme.parts().owners.len() {
        Some(Part::Subscriber(Slot::new(slot)))
    } else {
        None
    }
}

// The stranger with an id.
fn save_stranger(alloc: Global, mme: &Mme, id: AssociationId) -> Result<Vec<u8>, SaveFault>
    ensures { IfOk result (λ v. (s : Stranger) × (stranger_at id mme.now.strangers ≡ Some s)
        × IsStranger (record { id = id; stranger = s }) v.items) }
{
    let fault = SaveFault::Stranger(id);
    let owners = mme.parts().owners;
    let Some(lent) = owners.records.strangers.find(id) else {
        return Err(fault);
    };
    match stored_stranger(id, lent) {
        Some(stored) => spelled(alloc, &stored, fault),
        None => Err(fault),
    }
}

// The octets that spell what is stored of a subscriber, which stand in one place from the first on.
fn subscriber_octets(alloc: Global, stored: &Stored) -> Result<Vec<u8>, PerError>
    requires asked { vectors_spent stored.now.subscriber.now.solo ≤ stored.now.spent }
    requires all { stored.now.spent + stored.now.unspent ≡ length stored.now.subscriber.now.setting.vectors }
    requires few { stored.now.spent + stored.now.unspent ≤ 2 ^ 63 }
    ensures { IfOk result (λ v. SpellsWhole saved_subscriber
        (stored_subscriber stored.now.subscriber.now.setting stored.now.spent (typed_saved_state stored.now.state)) v.items) }
{
    let mut writer = BitWriter::with_room(alloc, room_for(stored))?;
    write_subscriber(alloc, stored, &mut writer)?;
    writer.finish()
}

// The room for what is stored of a subscriber.
fn room_for(stored: &Stored) -> usize {
    let repeat = match &stored.state.waits.repeat {
        Some(SavedRepeat::Nas(saved)) => {
            let nas = saved.nas.octets;
            nas.len()
        }
        Some(SavedRepeat::Paging(_)) | None => 0,
    };
    ROOM_OF_VECTOR
        .saturating_mul(stored.unspent)
        .saturating_add(ROOM)
        .saturating_add(repeat)
}

// An IMSI has fourteen or fifteen digits.
fn know_imsi(imsi: Imsi)
    ensures { is_imsi imsi ≡ true }
{
    let _ = imsi;
}

// The subscriber of a slot.
fn save_subscriber(alloc: Global, mme: &Mme, slot: Slot) -> Result<Vec<u8>, SaveFault>
    ensures { IfOk result (λ v. (x : SubscriberView) × (slice_get mme.now.subscribers slot ≡ Some x)
        × IsSubscriber mme.now slot x v.items) }
{
    let fault = SaveFault::Subscriber(slot);
    let owners = mme.parts().owners;
    let Some(lent) = owners.look(slot) else {
        return Err(fault);
    };
    know_imsi(lent.subscriber.setting().profile.imsi);
    let connection = lent.subscriber.solo().connection;
    if !is_placed(&owners.records.strangers, slot, connection) {
        return Err(fault);
    }
    match stored_subscriber(alloc, lent) {
        Ok(Some(stored)) => match subscriber_octets(alloc, &stored) {
            Ok(octets) => Ok(octets),
            Err(error) => Err(fault.of(error)),
        },
        Ok(None) => Err(fault),
        Err(AllocError) => Err(SaveFault::NoMemory),
    }
}

// A part whose octets are these.
fn part_of(octets: Vec<u8>, next: Option<Part>) -> SavedPart
    ensures octets { result.octets ≡ octets.items }
    ensures next { result.next ≡ next }
{
    SavedPart {
        octets: SavedOctets::new(octets),
        next,
    }
}

/// A part of the snapshot of an MME: its octets, and which part comes next. Parts in their order, from the first on, are the
/// snapshot (`parts_restore`), as long as nothing happens to the MME between them. First, Stranger or Subscriber where a restore
/// wouldn't take what it is about, and for a slot that nobody has; then NoMemory.
pub fn save_part(alloc: Global, mme: &Mme, part: Part) -> Result<SavedPart, SaveFault>
    ensures { IfOk result (λ p. IsSavedPart mme.now part p.octets p.next) }
{
    match part {
        Part::First => Ok(part_of(save_first(alloc, mme)?, Some(Part::Stranger(0)))),
        Part::Stranger(least) => save_from(alloc, mme, least),
        Part::Subscriber(slot) => Ok(part_of(
            save_subscriber(alloc, mme, slot)?,
            subscriber_from(mme, slot.get() + 1),
        )),
    }
}

// The stranger with the least id of at least this, or how many subscribers there are.
fn save_from(alloc: Global, mme: &Mme, least: u64) -> Result<SavedPart, SaveFault>
    ensures { IfOk result (λ p.
        IsNextStranger mme.now (lowest_from known_id least mme.now.strangers) p.octets p.next) }
{
    let owners = mme.parts().owners;
    match owners.records.strangers.first_from(least) {
        Some(id) => Ok(part_of(
            save_stranger(alloc, mme, id)?,
            Some(Part::Stranger(u64::from(id.get()) + 1)),
        )),
        None => Ok(part_of(save_count(alloc, mme)?, subscriber_from(mme, 0))),
    }
}

// A part after those before it; nothing is left of its own octets.
fn add_part(alloc: Global, octets: &mut SavedOctets, part: SavedOctets) -> Result<(), SaveFault>
    ensures { OnOk result (octets.new ≡ octets.old ++ part) }
{
    let added = octets.add(alloc, part.as_slice());
    part.forget();
    match added {
        Ok(()) => Ok(()),
        Err(AllocError) => Err(SaveFault::NoMemory),
    }
}

// All parts in their order, one after another.
fn save_each(alloc: Global, mme: &Mme, octets: &mut SavedOctets) -> Result<(), SaveFault>
    requires { octets.old ≡ [] }
    ensures { OnOk result (restored octets.new ≡ Ok (remembered mme.now)) }
{
    parts_restore();
    // (that no two have one IMSI or one address)
    let _ = mme.parts().provision.len();
    let mut next = Some(Part::First);
    while let Some(part) = next {
        let SavedPart {
            octets: saved,
            next: after,
        } = save_part(alloc, mme, part)?;
        add_part(alloc, octets, saved)?;
        next = after;
    }
    Ok(())
}

/// The octets of an MME, which have its keys. Refused as its parts are.
pub fn save(alloc: Global, mme: &Mme) -> Result<SavedOctets, SaveFault>
    ensures { IfOk result (λ octets. restored octets ≡ Ok (remembered mme.now)) }
{
    let mut octets = SavedOctets::new(Vec::new(alloc));
    match save_each(alloc, mme, &mut octets) {
        Ok(()) => Ok(octets),
        Err(fault) => {
            octets.forget();
            Err(fault)
        }
    }
}
