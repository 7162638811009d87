//! The records of strangers after a notice of a station.

ghost use Rattle.std.specs.Prelude.{◌≡◌, ◌≤◌, ℕ, IsSome, if◌then◌else◌, true};
ghost use Rattle.identity_slots.specs.Ids.{station_in};
ghost use Rattle.sorted_list.specs.Ordered.{without};
ghost use Rattle.stranger_machine.specs.Machine.{closes, is_of_station, noted_station};
ghost use Rattle.stranger_machine.specs.Table.{known_id, noted, stranger_at};

use crate::records::Records;
use identity_slots::{AssociationId, station_in};
use stranger_machine::Notice;

// The station of a notice of a station.
fn noted_station(notice: &Notice) -> u8
    requires { is_of_station notice.now ≡ true }
    ensures { result ≡ noted_station notice.now }
{
    match notice {
        Notice::Tick => unreachable!(),
        Notice::Gone(station) | Notice::Listed(station, _) => station.get(),
    }
}

// An id that none of a station's is below.
fn first_id(station: u8) -> u64
    ensures least { (id : ℕ) → station_in id ≡ station → result ≤ id }
    ensures most { (id : ℕ) → result ≤ id → station ≤ station_in id }
{
    match station {
        0 => 0,
        _ => 0x8000_0000 + u64::from(station) * 0x100_0000,
    }
}

// The stranger with an id, which isn't closed, takes a notice of a station.
fn note_one(records: &mut Records, id: AssociationId, notice: &Notice)
    requires station { is_of_station notice.now ≡ true }
    requires there { IsSome (stranger_at id records.old.strangers) }
    ensures clock { records.new.clock ≡ records.old.clock }
    ensures strangers { records.new.strangers
        ≡ (if closes id notice.now then without known_id id records.old.strangers else records.old.strangers) }
    ensures subscribers { records.new.subscribers ≡ records.old.subscribers }
    ensures room { records.old.room ≤ records.new.room }
{
    if records.is_closed_by(id, notice) {
        records.close(id);
    }
}

/// All strangers have taken a notice of a station. Only those of that station are looked at. Takes no memory.
pub(crate) fn note(records: &mut Records, notice: &Notice)
    requires { is_of_station notice.now ≡ true }
    ensures clock { records.new.clock ≡ records.old.clock }
    ensures strangers { records.new.strangers ≡ noted notice.now records.old.strangers }
    ensures subscribers { records.new.subscribers ≡ records.old.subscribers }
    ensures room { records.old.room ≤ records.new.room }
{
    let station = noted_station(notice);
    let mut least = first_id(station);
    while let Some(id) = records.first_from(least) {
        if station_in(id) != station {
            break;
        }
        note_one(records, id, notice);
        least = u64::from(id.get()) + 1;
    }
}
