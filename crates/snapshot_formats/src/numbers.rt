//! Numbers of the parts, each with its range, and flags.

use per_bits::Whole;

/// The greatest number that only grows, 2^62: the last tick of the MME's clock.
pub const GREATEST_LONG: u64 = 1 << 62;

/// The most ticks, which are seconds, that a countdown has left: those of the mobile reachable timer, `MOBILE_REACHABLE_TICKS` of
/// `nas_elements` (TS 24.301 clause 5.3.5). No timer of a procedure has as many (clause 10.2).
pub const LONGEST_COUNTDOWN: u64 = 3480;

/// A number that only grows: ticks of the clock, vectors, path switches.
pub type Long = Whole<0, GREATEST_LONG>;

/// Bits in a second of a phone, all bearers together, in one direction (TS 36.413 clause 9.2.1.20).
pub type BitsPerSecond = Whole<1, 10000000000>;

/// A NAS COUNT, of which messages use 24 bits (TS 24.301 clause 4.4.3.1).
pub type NasCount = Whole<0, 4294967295>;

/// The slot of a subscriber, in the order of provisioning, from 0.
pub type SlotNumber = Whole<0, 32767>;

/// How many ids a slot has given, which goes round: the low half of such an id.
pub type IdCounter = Whole<0, 65535>;

/// The number of a station.
pub type StationIndex = Whole<0, 127>;

/// The ticks, which are seconds, that a countdown has left; at 0 it has ended.
pub type TicksLeft = Whole<1, LONGEST_COUNTDOWN>;

/// How often the message of a countdown may still be sent again: four times at most, by its timer (TS 24.301 clause 10.2).
pub type RepeatsLeft = Whole<0, 255>;

/// What a phone's machine is about (TS 24.301 clause 5.1.3.4): 0 deregistered, 6 registered; or what it was sent, 1 AUTHENTICATION
/// REQUEST, 2 SECURITY MODE COMMAND, 3 ESM INFORMATION REQUEST, 4 ATTACH ACCEPT, 5 TRACKING AREA UPDATE ACCEPT, 7 DETACH REQUEST.
pub type PhaseNumber = Whole<0, 7>;

/// A timer of a procedure (TS 24.301 clause 10.2): 0 T3413, 1 T3422, 2 T3450, 3 T3460, 4 T3489.
pub type TimerNumber = Whole<0, 4>;

/// A security header type (TS 24.301 clause 9.3.1): 1 integrity protected, 2 also ciphered, 3 and 4 the same with a new context.
pub type HeaderCode = Whole<1, 4>;

/// Whether something is so.
#[derive(Clone, Copy)]
pub struct Flag {
    pub set: bool,
}
