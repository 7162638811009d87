//! Slots, and the ids that are made of them.

ghost use Rattle.std.specs.Prelude.{◌≡◌, ◌+◌, ◌*◌, ◌<◌, ◌≤◌, ◌^◌, SomeIff};
ghost use Rattle.identity_slots.specs.Ids.{counters, id_of_slot, is_of_slot, next_counter, number_in, slots, station_in, stranger_id};

use std::marker::Model;

/// How many slots there are.
pub(crate) const SLOTS: u32 = 1 << 15;

/// How many ids each slot has: association ids, and M-TMSIs.
pub const COUNTERS: u32 = 1 << 16;

/// The first id of a stranger: ids of slots are below it.
pub(crate) const STRANGERS: u32 = 0x8000_0000;

// How many phones a station has numbers for.
const ENB_IDS: u32 = 0x100_0000;

/// The number of a subscriber, in the order of provisioning: from 0, and below the number of slots.
#[derive(Clone, Copy, PartialEq, Eq)]
pub struct Slot {
    number: u32,
}

impl Model for Slot {
    ghost use Rattle.std.specs.Prelude.{ℕ, ◌<◌};
    ghost use Rattle.identity_slots.specs.Ids.{slots};

    ghost Value = { ℕ };

    ghost view = { λ s. s.number };

    ghost invariant = { λ s. s.number < slots };

    ghost inverse = { λ n. record { number = n } };
}

impl Slot {
    /// The slot with a number below that of slots.
    pub fn new(number: u32) -> Slot
        requires { number < slots }
        ensures { result ≡ number }
    {
        Slot { number }
    }

    /// The slot with a number, where there are more slots.
    pub fn try_new(number: u32) -> Option<Slot>
        ensures { SomeIff result (number < slots) number }
    {
        if number < SLOTS {
            Some(Slot { number })
        } else {
            None
        }
    }

    /// Its number.
    pub fn get(self) -> u32
        ensures value { result ≡ self }
        ensures small { self < slots }
    {
        self.number
    }

    /// The next id, and the counter that it was made with, which goes round: the slot and the counter in one number.
    fn id_after(self, counter: u32) -> (u32, u32)
        requires { counter < counters }
        ensures id { result.0 ≡ id_of_slot self (next_counter counter) }
        ensures counter { result.1 ≡ next_counter counter }
        ensures small { next_counter counter < counters }
        ensures slot { self < slots }
    {
        let next = (counter + 1) % COUNTERS;
        (self.get() * COUNTERS + next, next)
    }
}

/// The MME UE S1AP ID of an association (TS 36.413 clause 9.2.3.3). Below 2^31 it is made of a slot and a counter; from there
/// on it is that of a stranger, made of its station and its eNB UE id.
#[derive(Clone, Copy, PartialEq, Eq)]
pub struct AssociationId {
    id: u32,
}

impl Model for AssociationId {
    ghost use Rattle.std.specs.Prelude.{ℕ};

    ghost Value = { ℕ };

    ghost view = { λ i. i.id };

    ghost inverse = { λ n. record { id = n } };
}

impl AssociationId {
    /// The id with this number, as it is received.
    pub fn new(id: u32) -> AssociationId
        ensures { result ≡ id }
    {
        AssociationId { id }
    }

    /// Its number.
    pub fn get(self) -> u32
        ensures { result ≡ self }
    {
        self.id
    }

    /// Whether it is made of a slot, and isn't a stranger's.
    pub fn is_of_slot(self) -> bool
        ensures { result ≡ is_of_slot self }
    {
        self.get() < STRANGERS
    }

    /// The slot's next id after this counter below [`COUNTERS`], and the next counter.
    pub fn after(slot: Slot, counter: u32) -> (AssociationId, u32)
        requires { counter < counters }
        ensures id { result.0 ≡ id_of_slot slot (next_counter counter) }
        ensures counter { result.1 ≡ next_counter counter }
        ensures small { next_counter counter < counters }
        ensures below_strangers { id_of_slot slot (next_counter counter) < 2 ^ 31 }
    {
        let (id, next) = slot.id_after(counter);
        (AssociationId { id }, next)
    }

    /// The id of the stranger at a station below 128 with an eNB UE id below 2^24.
    pub fn of_stranger(station: u8, enb_ue_id: u32) -> AssociationId
        requires station { station < 128 }
        requires enb_ue_id { enb_ue_id < 2 ^ 24 }
        ensures { result ≡ stranger_id station enb_ue_id }
    {
        AssociationId {
            id: STRANGERS + u32::from(station) * ENB_IDS + enb_ue_id,
        }
    }
}

/// The station of a stranger's id, which is 2^31, its station, and its eNB UE S1AP ID in 24 bits.
pub fn station_in(id: AssociationId) -> u8
    ensures { result ≡ station_in id }
{
    (id.get().saturating_sub(STRANGERS) / ENB_IDS) as u8
}

/// A stranger's number at its station, by its id.
pub fn number_in(id: AssociationId) -> u32
    ensures { result ≡ number_in id }
{
    id.get().saturating_sub(STRANGERS) % ENB_IDS
}

/// An M-TMSI (TS 23.003 clause 2.4), made of a slot and a counter.
#[derive(Clone, Copy, PartialEq, Eq)]
pub struct Tmsi {
    tmsi: u32,
}

impl Model for Tmsi {
    ghost use Rattle.std.specs.Prelude.{ℕ};

    ghost Value = { ℕ };

    ghost view = { λ t. t.tmsi };

    ghost inverse = { λ n. record { tmsi = n } };
}

impl Tmsi {
    /// The M-TMSI with this number, as it is received.
    pub fn new(tmsi: u32) -> Tmsi
        ensures { result ≡ tmsi }
    {
        Tmsi { tmsi }
    }

    /// Its number.
    pub fn get(self) -> u32
        ensures { result ≡ self }
    {
        self.tmsi
    }

    /// The slot's next M-TMSI after this counter below [`COUNTERS`], and the next counter.
    pub fn after(slot: Slot, counter: u32) -> (Tmsi, u32)
        requires { counter < counters }
        ensures id { result.0 ≡ id_of_slot slot (next_counter counter) }
        ensures counter { result.1 ≡ next_counter counter }
        ensures small { next_counter counter < counters }
        ensures below_strangers { id_of_slot slot (next_counter counter) < 2 ^ 31 }
    {
        let (tmsi, next) = slot.id_after(counter);
        (Tmsi { tmsi }, next)
    }
}
