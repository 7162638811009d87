//! The places of the parts of a snapshot, which are numbers.

ghost use Rattle.std.specs.Prelude.{◌≡◌, Ok};
ghost use Rattle.mme_c.specs.Places.{part_at, place_after, place_in, place_of, told_part};

use c_session::Refusal;
use identity_slots::Slot;
use mme_snapshot::{Part, RestoreFault};

/// Where the places of strangers begin, by their ids, and those of subscribers, by their slots.
const STRANGERS: u64 = 8_589_934_592;

const SUBSCRIBERS: u64 = 17_179_869_184;

/// No id is as great as this.
const NO_ID: u64 = 4_294_967_296;

/// After the places of all slots.
const NO_SLOT: u64 = 17_179_901_952;

/// The place after the last part.
const AFTER_ALL: u64 = 18_446_744_073_709_551_615;

/// The part that has this place, else BadNumber.
pub(crate) fn part_at(place: u64) -> Result<Part, Refusal>
    ensures { result ≡ part_at place }
{
    if place == 0 {
        return Ok(Part::First);
    }
    if place < STRANGERS {
        return Err(Refusal::BadNumber);
    }
    if place <= STRANGERS + NO_ID {
        return Ok(Part::Stranger(place - STRANGERS));
    }
    if place < SUBSCRIBERS {
        return Err(Refusal::BadNumber);
    }
    if place < NO_SLOT {
        return Ok(Part::Subscriber(Slot::new((place - SUBSCRIBERS) as u32)));
    }
    Err(Refusal::BadNumber)
}

#[tactic(auto, using(crate::proofs::PartPlaces::stranger_taken, crate::proofs::PartPlaces::subscriber_taken))]
fn place_of(part: Part) -> u64
    ensures place { result ≡ place_of part }
    ensures taken { part_at result ≡ Ok (told_part part) }
{
    match part {
        Part::First => 0,
        Part::Stranger(least) => STRANGERS + if least <= NO_ID { least } else { NO_ID },
        Part::Subscriber(slot) => SUBSCRIBERS + u64::from(slot.get()),
    }
}

/// The place of the next part, or 2^64 - 1 after the last.
pub(crate) fn place_after(next: Option<Part>) -> u64
    ensures { result ≡ place_after next }
{
    match next {
        Some(part) => place_of(part),
        None => AFTER_ALL,
    }
}

/// Where a fault of octets is: of octets that are no snapshot the place of the part with the first one, or that after all parts where
/// no part can be named; of another version the version.
pub(crate) fn place_in(fault: &RestoreFault) -> Option<u64>
    ensures { result ≡ place_in fault.now }
{
    match fault {
        RestoreFault::Version(version) => Some(u64::from(*version)),
        RestoreFault::Octets | RestoreFault::More => Some(AFTER_ALL),
        RestoreFault::Network => Some(place_of(Part::First)),
        RestoreFault::Profile(slot, _) => Some(place_of(Part::Subscriber(*slot))),
        RestoreFault::Subscriber(slot) => Some(place_of(Part::Subscriber(*slot))),
        RestoreFault::Stranger(id) => Some(place_of(Part::Stranger(u64::from(id.get())))),
        RestoreFault::Id(slot) => Some(place_of(Part::Subscriber(*slot))),
        RestoreFault::Work | RestoreFault::NoMemory => None,
    }
}
