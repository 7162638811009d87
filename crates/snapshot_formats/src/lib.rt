//! The parts of a snapshot, which is an MME stored as octets: values, and their spellings in aligned PER.
#![tactic(auto)]

// A value of an alternative of a CHOICE, where it could be read.
macro_rules! read_choice {
    ($choice:ident::$alternative:ident, $value:expr) => {
        match $value {
            Ok(value) => Ok($choice::$alternative(value)),
            Err(error) => Err(error),
        }
    };
}

// The value that has these parts, where they could be read.
macro_rules! of_parts {
    ($parts:expr, $value:ident: $($part:ident),+) => {
        match $parts {
            Ok(($($part),+)) => Ok($value { $($part),+ }),
            Err(error) => Err(error),
        }
    };
}

// Writes parts of a value one after the other.
macro_rules! write_parts {
    ($alloc:expr, $writer:expr, $value:expr => $($part:ident),+) => {{
        $($value.$part.write($alloc, $writer)?;)+
        Ok(())
    }};
}

mod context;
mod context_element;
mod head;
mod head_element;
mod key;
mod numbers;
mod parts;
mod subscriber;
mod subscriber_element;

pub use context::{SavedConnection, SavedContext, SavedKeys, SavedRadio, SavedTrail};
pub use head::{
    SavedHead, SavedNetwork, SavedStation, SavedStranger, SavedStrangerState, SavedWaiting,
};
pub use key::LentKey;
pub use numbers::{
    BitsPerSecond, Flag, GREATEST_LONG, HeaderCode, IdCounter, LONGEST_COUNTDOWN, Long, NasCount,
    PhaseNumber, RepeatsLeft, SlotNumber, StationIndex, TicksLeft, TimerNumber,
};
pub use subscriber::{
    SavedAsked, SavedBearer, SavedBearerState, SavedCountdown, SavedIds, SavedLink, SavedNas,
    SavedRepeat, SavedRequest, SavedState, SavedSubscriber, SavedVector, SavedWaits,
};
