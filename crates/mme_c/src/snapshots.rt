//! An MME that is saved, part by part, and one that is restored.

ghost use Rattle.std.specs.Prelude.{◌≡◌};
ghost use Rattle.mme_c.specs.Snapshots.{IsPart, IsRestore, IsResumed, IsSave, Saves, fault_of, has_part, of_restore, of_save, part_wanted, place_or};

use crate::handle::MmeHandle;
use crate::numbers::{OK, refused};
use crate::places::{part_at, place_after, place_in};
use crate::replies::copied;
use c_session::{Refusal, Replies, Session};
use mme_core::Mme;
use mme_snapshot::{Part, RestoreFault, SaveFault, SavedPart, restore, save_part};
use std::alloc::Global;
use trace_progress::Progress;

/// Why octets make no MME: the refusal, and where the fault is (`place_in`).
#[derive(Clone, Copy)]
pub(crate) struct SnapshotFault {
    pub(crate) refusal: Refusal,
    pub(crate) place: Option<u64>,
}

/// The part of a snapshot at a place: its octets at the start of the buffer, and the place of the next one.
#[tactic(auto, using(crate::proofs::Restored::part_saved, crate::proofs::Restored::part_refused))]
#[unsafe(no_mangle)]
pub extern "C" fn soizkadur_save(
    alloc: Global,
    mme: &mut MmeHandle,
    place: &mut u64,
    buffer: &mut [u8],
    length: &mut usize,
) -> u32
    ensures saved { IsSave mme.old.session place.old buffer.old length.old result place.new buffer.new length.new }
    ensures unchanged { mme.new.session ≡ mme.old.session }
{
    let Some(session) = mme.take(alloc) else {
        return refused(Refusal::NoMme);
    };
    let saved = save(alloc, &session, *place);
    mme.put(alloc, session);
    match saved {
        Ok(part) => written(part, place, buffer, length),
        Err(refusal) => refused(refusal),
    }
}

/// The part at a place of the MME that runs: 0, or what `place_after` made of the part before. BadNumber where no part has the place,
/// NoMme, then NotSaved or NoMemory.
#[tactic(auto, using(crate::proofs::Resumed::not_saved))]
fn save(alloc: Global, session: &Session, place: u64) -> Result<SavedPart, Refusal>
    ensures { Saves (part_wanted session.now place) result }
{
    let part = part_at(place)?;
    let Progress::Running(mme) = &session.progress else {
        return Err(Refusal::NoMme);
    };
    if !has_part(mme, &part) {
        return Err(Refusal::BadNumber);
    }
    match save_part(alloc, mme, part) {
        Ok(saved) => Ok(saved),
        Err(fault) => Err(of_save(fault)),
    }
}

#[tactic(auto, using(crate::proofs::Resumed::known_slot))]
fn has_part(mme: &Mme, part: &Part) -> bool
    ensures { result ≡ has_part mme.now part.now }
{
    match part {
        Part::First | Part::Stranger(_) => true,
        Part::Subscriber(slot) => mme.states(*slot).is_some(),
    }
}

fn of_save(fault: SaveFault) -> Refusal
    ensures { result ≡ of_save fault }
{
    match fault {
        SaveFault::First | SaveFault::Stranger(_) | SaveFault::Subscriber(_) => Refusal::NotSaved,
        SaveFault::NoMemory => Refusal::NoMemory,
    }
}

/// Copies a part to the start of a buffer, where there is room for it, and forgets it.
#[tactic(auto, using(crate::proofs::Restored::part_written, crate::proofs::Restored::part_unwritten))]
fn written(part: SavedPart, place: &mut u64, buffer: &mut [u8], length: &mut usize) -> u32
    ensures { IsPart part.octets part.next place.old buffer.old result place.new buffer.new length.new }
{
    let SavedPart { octets, next } = part;
    *length = octets.as_slice().len();
    let answer = copied(octets.as_slice(), buffer);
    octets.forget();
    if answer == OK {
        *place = place_after(next);
    }
    answer
}

/// Makes the MME of a snapshot, if the handle is empty.
#[tactic(auto, using(crate::proofs::Restored::restored_kept, crate::proofs::Restored::restored_refused))]
#[unsafe(no_mangle)]
pub extern "C" fn soizkadur_restore(
    alloc: Global,
    mme: &mut MmeHandle,
    octets: &[u8],
    work: u64,
    place: &mut u64,
) -> u32
    ensures { IsRestore mme.old.session octets.now work place.old result mme.new.session place.new }
{
    if let Some(session) = mme.take(alloc) {
        mme.put(alloc, session);
        return refused(Refusal::InUse);
    }
    match resume(alloc, octets, work) {
        Ok(session) => mme.keep(alloc, session),
        Err(why) => {
            *place = place_or(why.place, *place);
            refused(why.refusal)
        }
    }
}

/// The MME of a snapshot, which runs; no event has happened to it yet. Octets that are none, or for which more than `work` next
/// hops would be derived (TS 33.401 clause A.4), are refused.
#[tactic(auto, using(crate::proofs::Resumed::resumed_kept, crate::proofs::Resumed::resumed_refused))]
fn resume(alloc: Global, octets: &[u8], work: u64) -> Result<Session, SnapshotFault>
    ensures { IsResumed octets.now work result }
{
    match restore(alloc, octets, work) {
        Ok(mme) => Ok(Session {
            progress: Progress::Running(mme),
            replies: Replies::none(alloc),
        }),
        Err(fault) => Err(fault_of(&fault)),
    }
}

fn fault_of(fault: &RestoreFault) -> SnapshotFault
    ensures { result ≡ fault_of fault.now }
{
    SnapshotFault {
        refusal: of_restore(fault),
        place: place_in(fault),
    }
}

fn of_restore(fault: &RestoreFault) -> Refusal
    ensures { result ≡ of_restore fault.now }
{
    match fault {
        RestoreFault::Version(_) => Refusal::OtherVersion,
        RestoreFault::Octets
        | RestoreFault::More
        | RestoreFault::Network
        | RestoreFault::Profile(_, _)
        | RestoreFault::Subscriber(_)
        | RestoreFault::Stranger(_)
        | RestoreFault::Id(_) => Refusal::NoSnapshot,
        RestoreFault::Work => Refusal::TooMuchWork,
        RestoreFault::NoMemory => Refusal::NoMemory,
    }
}

fn place_or(found: Option<u64>, before: u64) -> u64
    ensures { result ≡ place_or found before }
{
    match found {
        Some(place) => place,
        None => before,
    }
}
