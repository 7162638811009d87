//! Why a value could not be read.

ghost use Rattle.std.specs.Prelude.{◌≡◌};
ghost use Rattle.per_streams.specs.declared.fault.PerError.TheVariants.{NoMemory};
ghost use Rattle.per_streams.specs.declared.fault.PerError.TheVariants as errors;

use std::alloc::{AllocError, AllocFailed};

/// What is wrong with the bits: the first fault from the left.
#[derive(Clone, Copy, Debug, PartialEq, Eq)]
pub enum PerFault {
    /// Fewer bits than the value needs, or an open type longer than what is left.
    Truncated = 1,
    /// A padding bit that is 1.
    Padding = 2,
    /// A number out of its range, or an extension bit of 1 where no extension is read.
    Range = 3,
    /// A number or a length in more octets than it needs.
    NotFewest = 4,
    /// A length of 16384 octets or more, in fragments.
    Fragmented = 5,
    /// Octets after a complete encoding.
    Trailing = 6,
    /// A CHOICE whose extension bit is 1.
    Alternative = 7,
}

/// Why a call that allocates did not answer.
#[derive(Clone, Copy, Debug, PartialEq, Eq)]
pub enum PerError {
    /// What is wrong with the bits, or with the value to be written.
    Fault(PerFault),
    /// A growth was refused.
    NoMemory,
}

impl From<AllocError> for PerError {
    ghost from_gives = { λ _ e. e ≡ NoMemory };

    fn from(_e: AllocError) -> PerError {
        PerError::NoMemory
    }
}

impl<T: Drop> From<AllocFailed<T>> for PerError {
    ghost from_gives = { λ _ e. e ≡ NoMemory };

    fn from(_e: AllocFailed<T>) -> PerError {
        PerError::NoMemory
    }
}

impl From<PerFault> for PerError {
    ghost from_gives = { λ f e. e ≡ errors.Fault f };

    fn from(f: PerFault) -> PerError {
        PerError::Fault(f)
    }
}
