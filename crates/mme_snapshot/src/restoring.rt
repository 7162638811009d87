//! Octets restored to an MME.

ghost use Rattle.std.specs.Prelude.{◌≡◌, ◌≢◌, ◌+◌, ◌<◌, ◌≤◌, [], length, Ok, Err, Some, IfErr, IfOk};
ghost use Rattle.identity_slots.specs.Ids.{slots};
ghost use Rattle.per_streams.specs.Bits.{end_at};
ghost use Rattle.mme_snapshot.specs.declared.fault.RestoreFault.TheVariants.{NoMemory, Work};
ghost use Rattle.mme_snapshot.specs.Restored.{as_more, as_octets, body_at, head_at, part_at, repeated, restored, restored_within, stations_at, stranger_at_place, strangers_at, subscriber_at_place, subscribers_at};

use crate::building::Building;
use crate::fault::RestoreFault;
use crate::parts::{Head, head_of, station_of};
use identity_slots::StationNumber;
use mme_core::Mme;
use mme_types::EnbWorld;
use per_bits::{BitReader, Element, PerError, Whole};
use snapshot_formats::{SavedHead, SavedStation, SavedStranger, SavedSubscriber};
use std::alloc::{AllocError, Global};

/// The version that is read and written.
pub(crate) const VERSION: u64 = 1;

/// How many stations there are.
const STATIONS: usize = 128;

// A part, and zeros up to the next octet; octets that spell none are Octets.
#[tactic(auto, unfolding(crate::specs::Restored::part_at))]
fn read_part<'a, T: Element<'a>>(
    alloc: Global,
    reader: &mut BitReader<'a>,
) -> Result<T, RestoreFault>
    ensures ok { IfOk result (λ p. part_at T.format reader.old ≡ Ok (T.view p, reader.new)) }
    ensures refused { IfErr result (λ fault. fault ≢ NoMemory → as_octets (part_at T.format reader.old) ≡ Err fault) }
{
    match T::read(alloc, reader) {
        Ok(part) => match reader.align() {
            Ok(()) => Ok(part),
            Err(_) => Err(RestoreFault::Octets),
        },
        Err(PerError::Fault(_)) => Err(RestoreFault::Octets),
        Err(PerError::NoMemory) => Err(RestoreFault::NoMemory),
    }
}

// A part that is lent, likewise; what is owned ends with a refusal.
macro_rules! lent_part {
    ($part:ident, $alloc:ident, $reader:ident $(, $owned:ident)?) => {
        match $part::read($alloc, $reader) {
            Ok(part) => match $reader.align() {
                Ok(()) => part,
                Err(_) => {
                    drop(part);
                    $(drop($owned);)?
                    return Err(RestoreFault::Octets);
                }
            },
            Err(PerError::Fault(_)) => {
                $(drop($owned);)?
                return Err(RestoreFault::Octets);
            }
            Err(PerError::NoMemory) => {
                $(drop($owned);)?
                return Err(RestoreFault::NoMemory);
            }
        }
    };
}

// What was made, where no memory was refused.
macro_rules! made {
    ($made:expr) => {
        match $made {
            Ok(made) => made,
            Err(AllocError) => return Err(RestoreFault::NoMemory),
        }
    };
}

// What stands first.
#[tactic(auto, unfolding(crate::specs::Restored::part_at))]
fn read_head(alloc: Global, reader: &mut BitReader) -> Result<Head, RestoreFault>
    ensures ok { IfOk result (λ h. head_at reader.old ≡ Ok (h, reader.new)) }
    ensures refused { IfErr result (λ fault. fault ≢ NoMemory → head_at reader.old ≡ Err fault) }
{
    let saved = lent_part!(SavedHead, alloc, reader);
    match head_of(&saved) {
        Some(head) => Ok(head),
        None => Err(RestoreFault::Network),
    }
}

// The states of all stations, by their numbers.
fn read_stations(alloc: Global, reader: &mut BitReader) -> Result<EnbWorld, RestoreFault>
    ensures ok { IfOk result (λ w. stations_at reader.old ≡ Ok (w, reader.new)) }
    ensures refused { IfErr result (λ fault. fault ≢ NoMemory → stations_at reader.old ≡ Err fault) }
{
    let mut stations = made!(EnbWorld::new(alloc));
    for number in 0..STATIONS {
        let saved = read_part::<SavedStation>(alloc, reader)?;
        stations.set(StationNumber::new(number as u8), station_of(saved));
    }
    Ok(stations)
}

// One stranger more.
#[tactic(auto, unfolding(crate::specs::Restored::part_at))]
fn read_stranger(
    alloc: Global,
    building: Building,
    reader: &mut BitReader,
) -> Result<Building, RestoreFault>
    requires { building.world.subscribers ≡ [] }
    ensures ok { IfOk result (λ b. stranger_at_place (building, reader.old) ≡ Ok (b, reader.new)) }
    ensures refused { IfErr result (λ fault. fault ≢ NoMemory → stranger_at_place (building, reader.old) ≡ Err fault) }
    ensures none { IfOk result (λ b. b.world.subscribers ≡ []) }
{
    let saved = lent_part!(SavedStranger, alloc, reader, building);
    building.stranger(&saved)
}

// How many strangers there are, and each of them.
fn read_strangers(
    alloc: Global,
    building: Building,
    reader: &mut BitReader,
) -> Result<Building, RestoreFault>
    requires { building.world.subscribers ≡ [] }
    ensures ok { IfOk result (λ b. strangers_at building reader.old ≡ Ok (b, reader.new)) }
    ensures refused { IfErr result (λ fault. fault ≢ NoMemory → strangers_at building reader.old ≡ Err fault) }
    ensures none { IfOk result (λ b. b.world.subscribers ≡ []) }
{
    let count = read_part::<Whole<0, 4294967295>>(alloc, reader)?;
    read_each_stranger(alloc, building, reader, count.get())
}

// So many strangers.
fn read_each_stranger(
    alloc: Global,
    building: Building,
    reader: &mut BitReader,
    count: u64,
) -> Result<Building, RestoreFault>
    requires { building.world.subscribers ≡ [] }
    ensures ok { IfOk result (λ b. repeated stranger_at_place count (building, reader.old) ≡ Ok (b, reader.new)) }
    ensures refused { IfErr result
        (λ fault. fault ≢ NoMemory → repeated stranger_at_place count (building, reader.old) ≡ Err fault) }
    ensures none { IfOk result (λ b. b.world.subscribers ≡ []) }
{
    let mut building = building;
    for _ in 0..count {
        building = read_stranger(alloc, building, reader)?;
    }
    Ok(building)
}

// One subscriber more, for at most so many next hops in all.
fn read_subscriber(
    alloc: Global,
    building: Building,
    reader: &mut BitReader,
    most: u64,
) -> Result<Building, RestoreFault>
    requires { length building.world.subscribers < slots }
    ensures ok { IfOk result (λ b. subscriber_at_place (Some most) (building, reader.old) ≡ Ok (b, reader.new)) }
    ensures refused { IfErr result
        (λ fault. fault ≢ NoMemory → subscriber_at_place (Some most) (building, reader.old) ≡ Err fault) }
    ensures count { IfOk result (λ b. length b.world.subscribers ≡ length building.world.subscribers + 1) }
{
    let saved = lent_part!(SavedSubscriber, alloc, reader, building);
    building.subscriber(&saved, most)
}

// How many subscribers there are, and each of them.
fn read_subscribers(
    alloc: Global,
    building: Building,
    reader: &mut BitReader,
    most: u64,
) -> Result<Building, RestoreFault>
    requires { building.world.subscribers ≡ [] }
    ensures ok { IfOk result (λ b. subscribers_at (Some most) building reader.old ≡ Ok (b, reader.new)) }
    ensures refused { IfErr result
        (λ fault. fault ≢ NoMemory → subscribers_at (Some most) building reader.old ≡ Err fault) }
{
    let count = read_part::<Whole<0, 32768>>(alloc, reader)?;
    read_each_subscriber(alloc, building, reader, most, count.get())
}

// So many subscribers, for at most so many next hops in all.
fn read_each_subscriber(
    alloc: Global,
    building: Building,
    reader: &mut BitReader,
    most: u64,
    count: u64,
) -> Result<Building, RestoreFault>
    requires none { building.world.subscribers ≡ [] }
    requires few { count ≤ slots }
    ensures ok { IfOk result (λ b. repeated (subscriber_at_place (Some most)) count (building, reader.old) ≡ Ok (b, reader.new)) }
    ensures refused { IfErr result
        (λ fault. fault ≢ NoMemory → repeated (subscriber_at_place (Some most)) count (building, reader.old) ≡ Err fault) }
{
    let mut building = building;
    for _ in 0..count {
        building = read_subscriber(alloc, building, reader, most)?;
    }
    Ok(building)
}

// All that comes after the version.
fn read_body(alloc: Global, reader: &mut BitReader, most: u64) -> Result<Mme, RestoreFault>
    ensures ok { IfOk result (λ m. body_at (Some most) reader.old ≡ Ok m) }
    ensures refused { IfErr result (λ fault. fault ≢ NoMemory → body_at (Some most) reader.old ≡ Err fault) }
{
    let head = read_head(alloc, reader)?;
    let stations = read_stations(alloc, reader)?;
    let building = made!(Building::begin(alloc, head, stations));
    let building = read_strangers(alloc, building, reader)?;
    let building = read_subscribers(alloc, building, reader, most)?;
    read_end(reader)?;
    Ok(made!(building.finish()))
}

// Zeros up to the next octet, and nothing after it; else More.
fn read_end(reader: &mut BitReader) -> Result<(), RestoreFault>
    ensures ok { IfOk result (λ _. as_more (end_at reader.old) ≡ Ok (tt, reader.new)) }
    ensures refused { IfErr result (λ fault. as_more (end_at reader.old) ≡ Err fault) }
{
    match reader.end() {
        Ok(()) => Ok(()),
        Err(_) => Err(RestoreFault::More),
    }
}

/// The MME of octets, whatever they are: that of which they are a snapshot, or their first fault from the left. At most `work` next
/// hops are derived for it (TS 33.401 clause A.4), else Work; NoMemory where memory was refused.
pub fn restore(alloc: Global, octets: &[u8], work: u64) -> Result<Mme, RestoreFault>
    ensures ok { IfOk result (λ m. restored octets.now ≡ Ok m) }
    ensures refused { IfErr result (λ fault. fault ≢ NoMemory → fault ≢ Work → restored octets.now ≡ Err fault) }
    ensures within { IfOk result (λ m. restored_within (Some work) octets.now ≡ Ok m) }
    ensures work { IfErr result (λ fault. fault ≡ Work → restored_within (Some work) octets.now ≡ Err Work) }
{
    let mut reader = BitReader::new(octets);
    let version = read_part::<Whole<0, 255>>(alloc, &mut reader)?.get();
    if version != VERSION {
        return Err(RestoreFault::Version(version as u8));
    }
    read_body(alloc, &mut reader, work)
}
