//! What happens to an MME, and which of it is refused.

ghost use Rattle.std.specs.Prelude.{◌≡◌};
ghost use Rattle.mme_core.specs.declared.event.StepFault.TheVariants.{NoMemory};

use identity_slots::Slot;
use mme_routing::Destination;
use mme_types::{SoloEvent, StationNumber, StationState};
use nas_elements::Imsi;
use std::alloc::{AllocError, AllocFailed};
use stranger_machine::Notice;

/// What happens to an MME.
#[derive(Clone, Copy)]
pub enum Event<'a> {
    /// A station connects.
    Up(StationNumber),
    /// A station's connection is lost.
    Lost(StationNumber),
    /// A station sends one whole message.
    In(StationNumber, &'a [u8]),
    /// A second has passed.
    Tick,
    /// Downlink data waits for a subscriber.
    Data(Imsi),
    /// A subscription is withdrawn.
    Cancel(Imsi),
}

impl Event<'_> {
    ghost use Rattle.std.specs.Prelude.{◌≡◌, false};
    ghost use Rattle.mme_routing.specs.Seen.{destination_of};
    ghost use Rattle.mme_core.specs.Sight.{Sight};
    ghost use Rattle.mme_core.specs.World.{happens, is_message, slot_named, station_of};

    // The station that it is of.
    pub(crate) fn station(&self) -> Option<StationNumber>
        ensures { result ≡ station_of self.now }
    {
        match self {
            Event::Up(station) | Event::Lost(station) | Event::In(station, _) => Some(*station),
            Event::Tick | Event::Data(_) | Event::Cancel(_) => None,
        }
    }

    // Of an event that is no message: the new state of its station, where it has one.
    pub(crate) fn state(&self) -> Option<StationState>
        ensures { (s : Sight) → is_message self.now ≡ false → result ≡ (happens s self.now).state }
    {
        match self {
            Event::Up(_) => Some(StationState::Up),
            Event::Lost(_) => Some(StationState::Down),
            Event::In(_, _) | Event::Tick | Event::Data(_) | Event::Cancel(_) => None,
        }
    }

    // Of an event that is no message: where it goes, where that is the slot that it names.
    pub(crate) fn destination<'a>(&self, named: &Option<Slot>) -> Destination<'a>
        ensures { (s : Sight) → is_message self.now ≡ false → named.now ≡ slot_named s self.now
            → destination_of s.stations result ≡ (happens s self.now).destination }
    {
        match self {
            Event::Up(_) | Event::In(_, _) => Destination::Nobody,
            Event::Lost(station) => Destination::Everyone(Notice::Gone(*station)),
            Event::Tick => Destination::Everyone(Notice::Tick),
            Event::Data(_) => match named {
                Some(slot) => Destination::Subscriber(*slot, SoloEvent::Data),
                None => Destination::Nobody,
            },
            Event::Cancel(_) => match named {
                Some(slot) => Destination::Subscriber(*slot, SoloEvent::Cancel),
                None => Destination::Nobody,
            },
        }
    }
}

/// Why an event is refused; it then changes nothing.
#[derive(Clone, Copy, Debug, PartialEq, Eq)]
pub enum StepFault {
    /// The station is down.
    NotUp = 1,
    /// The station is not down.
    AlreadyUp = 2,
    /// The clock is at its last tick, 2^62.
    ClockSpent = 3,
    /// A growth of memory was refused.
    NoMemory = 4,
    /// Nobody is provisioned with the IMSI.
    UnknownImsi = 5,
}

impl From<AllocError> for StepFault {
    ghost from_gives = { λ _ e. e ≡ NoMemory };

    fn from(_e: AllocError) -> StepFault {
        StepFault::NoMemory
    }
}

impl<T: Drop> From<AllocFailed<T>> for StepFault {
    ghost from_gives = { λ _ e. e ≡ NoMemory };

    fn from(_e: AllocFailed<T>) -> StepFault {
        StepFault::NoMemory
    }
}
