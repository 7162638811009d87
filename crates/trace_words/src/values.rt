//! What stands in the fields of a line.

ghost use Rattle.std.specs.Prelude.{◌≡◌, ◌⊎◌, ◌≤◌, ◌↔◌, [], Ok, Err, IsSome, IfSome, IfOk, IfErr};
ghost use Rattle.hex.specs.Hex.{decode_of};
ghost use Rattle.hex.specs.declared.error.FromHexError.TheVariants.{OutOfMemory};

use hex::FromHexError;
use std::alloc::Global;
use std::marker::Model;

/// A number of ticks, 1 to 1000000; a contract sees the number.
#[derive(Clone, Copy)]
pub struct TraceTicks {
    ticks: u32,
}

impl Model for TraceTicks {
    ghost use Rattle.std.specs.Prelude.{ℕ, ◌≤◌};

    ghost Value = { ℕ };

    ghost view = { λ t. t.ticks };

    ghost invariant = { λ t. (1 ≤ t.ticks) × (t.ticks ≤ 1000000) };

    ghost inverse = { λ n. record { ticks = n } };
}

impl TraceTicks {
    /// That many ticks.
    pub fn new(ticks: u32) -> TraceTicks
        requires least { 1 ≤ ticks }
        requires most { ticks ≤ 1000000 }
        ensures { result ≡ ticks }
    {
        TraceTicks { ticks }
    }

    /// That many ticks, where they are from 1 to 1000000.
    pub fn try_new(ticks: u32) -> Option<TraceTicks>
        ensures some { IsSome result ↔ ((1 ≤ ticks) × (ticks ≤ 1000000)) }
        ensures value { IfSome result (λ t. t ≡ ticks) }
    {
        if ticks < 1 || ticks > 1_000_000 {
            return None;
        }
        Some(TraceTicks { ticks })
    }

    /// The number.
    pub fn get(self) -> u32
        ensures value { result ≡ self }
        ensures least { 1 ≤ result }
        ensures most { result ≤ 1000000 }
    {
        self.ticks
    }
}

/// The most octets of a message that lie in the value itself, as those of most messages do; more lie in memory of their own.
const USUAL_OCTETS: usize = 96;

/// Where the octets of a message lie.
#[derive(Drop)]
enum Room {
    /// In the value: this many of these.
    Own([u8; USUAL_OCTETS], usize),
    /// In memory.
    Apart(Vec<u8>),
}

/// The octets of a message; a contract sees their list.
#[derive(Drop)]
pub struct TraceOctets {
    room: Room,
}

impl Model for TraceOctets {
    ghost use Rattle.std.specs.Prelude.{ℕ, List};
    ghost use Rattle.trace_words.specs.Rooms.{octets_in, FitsRoom};

    ghost Value = { List ℕ };

    ghost view = { λ o. octets_in o.room };

    ghost invariant = { λ o. FitsRoom o.room };
}

impl TraceOctets {
    /// No octets.
    pub(crate) fn none() -> TraceOctets
        ensures { result ≡ [] }
    {
        TraceOctets {
            room: Room::Own([0u8; USUAL_OCTETS], 0),
        }
    }

    /// The octets that a text in hex stands for, or what is wrong with it; OutOfMemory may stand in place of both. Takes memory
    /// for more octets than lie in the value.
    pub(crate) fn from_hex(alloc: Global, text: &[u8]) -> Result<TraceOctets, FromHexError>
        ensures ok { IfOk result (λ octets. decode_of text.now ≡ Ok octets) }
        ensures err { IfErr result (λ e. (e ≡ OutOfMemory) ⊎ (decode_of text.now ≡ Err e)) }
    {
        let count = text.len() / 2;
        if count > USUAL_OCTETS {
            let octets = hex::decode(alloc, text)?;
            return Ok(TraceOctets {
                room: Room::Apart(octets),
            });
        }
        let mut octets = [0u8; USUAL_OCTETS];
        hex::decode_to_slice(text, &mut octets[..count])?;
        Ok(TraceOctets {
            room: Room::Own(octets, count),
        })
    }

    /// The octets.
    pub fn as_slice(&self) -> &[u8]
        ensures { result.now ≡ self.now }
    {
        match &self.room {
            Room::Own(octets, count) => &octets[..*count],
            Room::Apart(octets) => octets.as_slice(),
        }
    }
}
