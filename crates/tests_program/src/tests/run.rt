//! A list of events at once: a station is set up, and a phone that is known attaches and is challenged.

use crate::tests::{config, must};
use identity_slots::{GivenKasme, Profile, Provision, Slot, Vector, Xres};
use mme_core::{Config, Event, Mme, Outs, Owner, StepFault};
use mme_types::StationNumber;
use nas_elements::Imsi;
use std::alloc::Global;

const SETUP: &[u8] =
    b"\x00\x11\x00\x1f\x00\x00\x03\x00\x3b\x00\x08\x00\x00\xf1\x10\x00\x00\x00\x10\x00\
    \x40\x00\x07\x00\x00\x00\x40\x00\xf1\x10\x00\x89\x40\x01\x40";

const RESPONSE: &[u8] =
    b"\x20\x11\x00\x17\x00\x00\x02\x00\x69\x00\x0b\x00\x00\x00\xf1\x10\x00\x00\x80\x01\
    \x00\x01\x00\x57\x40\x01\xff";

const ATTACH: &[u8] =
    b"\x00\x0c\x40\x3e\x00\x00\x05\x00\x08\x00\x02\x00\x01\x00\x1a\x00\x16\x15\x07\x41\
    \x71\x08\x09\x10\x10\x00\x00\x00\x00\x10\x02\xe0\x60\x00\x04\x02\x01\xd0\x11\x00\
    \x43\x00\x06\x00\x00\xf1\x10\x00\x01\x00\x64\x40\x08\x00\x00\xf1\x10\x00\x00\x10\
    \x10\x00\x86\x40\x01\x30";

const CHALLENGE: &[u8] =
    b"\x00\x0b\x40\x38\x00\x00\x03\x00\x00\x00\x02\x00\x01\x00\x08\x00\x02\x00\x01\x00\
    \x1a\x00\x25\x24\x07\x52\x00\x00\x01\x02\x03\x04\x05\x06\x07\x08\x09\x0a\x0b\x0c\
    \x0d\x0e\x0f\x10\x10\x11\x12\x13\x14\x15\x16\x17\x18\x19\x1a\x1b\x1c\x1d\x1e\x1f";

/// The vector of the worked rows, but for what its answer is to be.
fn vector() -> Option<Vector> {
    Some(Vector {
        rand: *b"\x00\x01\x02\x03\x04\x05\x06\x07\x08\x09\x0a\x0b\x0c\x0d\x0e\x0f",
        autn: *b"\x10\x11\x12\x13\x14\x15\x16\x17\x18\x19\x1a\x1b\x1c\x1d\x1e\x1f",
        xres: Xres::try_new(b"expected")?,
        kasme: GivenKasme::new([0; 32]),
    })
}

fn profile(imsi: Imsi) -> Profile {
    Profile {
        imsi,
        address: [10, 0, 0, 1],
        gateway: [10, 0, 0, 100],
        teid: [0, 0, 0, 1],
    }
}

/// Whether the subscriber was provisioned, with one vector.
fn provisions(provision: &mut Provision, imsi: Imsi) -> bool {
    match provision.add(profile(imsi)) {
        Ok(slot) => match vector() {
            Some(vector) => provision.give(slot, vector).is_ok(),
            None => false,
        },
        Err(_) => false,
    }
}

/// Whether this alone was sent, for this owner at this station.
fn is_sent(outs: &Outs, owner: Owner, station: StationNumber, octets: &[u8]) -> bool {
    match outs.as_slice() {
        [out] => out.owner == owner && out.station == station && out.octets.as_slice() == octets,
        _ => false,
    }
}

/// Whether the station's set-up and the phone's attach were answered, and what stands between them was refused.
fn are_owed(replies: &[Result<Outs, StepFault>], station: StationNumber, slot: Slot) -> bool {
    match replies {
        [
            Ok(up),
            Ok(set_up),
            Err(StepFault::AlreadyUp),
            Err(StepFault::UnknownImsi),
            Ok(attached),
        ] => {
            up.as_slice().is_empty()
                && is_sent(set_up, Owner::Station(station), station, RESPONSE)
                && is_sent(attached, Owner::Subscriber(slot), station, CHALLENGE)
        }
        _ => false,
    }
}

/// Whether the events of the station, the unknown phone and the known one are answered as they are owed.
fn answers_events(mme: &mut Mme, station: StationNumber, known: Imsi, unknown: Imsi) -> bool {
    let events = [
        Event::Up(station),
        Event::In(station, SETUP),
        Event::Up(station),
        Event::Data(unknown),
        Event::In(station, ATTACH),
    ];
    let Some(slot) = mme.slot_of_imsi(known) else {
        return false;
    };
    match mme.run(&events) {
        Ok(replies) => are_owed(replies.as_slice(), station, slot),
        Err(_) => false,
    }
}

/// As one MME with that phone alone answers them.
fn answers_at_once(
    alloc: Global,
    config: Config,
    station: StationNumber,
    known: Imsi,
    unknown: Imsi,
) -> bool {
    let mut provision = Provision::new(alloc);
    if !provisions(&mut provision, known) {
        return false;
    }
    match Mme::new(alloc, config, provision) {
        Ok(mut mme) => answers_events(&mut mme, station, known, unknown),
        Err(_) => false,
    }
}

fn answers_station_and_phones(alloc: Global, config: Config) -> bool {
    let Some(station) = StationNumber::try_new(0) else {
        return false;
    };
    match (
        Imsi::try_from_digits("001010000000001"),
        Imsi::try_from_digits("001010000000002"),
    ) {
        (Some(known), Some(unknown)) => answers_at_once(alloc, config, station, known, unknown),
        _ => false,
    }
}

#[test]
fn events_at_once(rt: HostRuntime) {
    match config(0) {
        Some(config) => must(&rt, answers_station_and_phones(rt.alloc(), config)),
        None => must(&rt, false),
    }
}
