//! Why a context refuses.

ghost use Rattle.std.specs.Prelude.{◌≡◌};
ghost use Rattle.nas_security.specs.declared.fault.SecurityFault.TheVariants.{NoMemory};

use std::alloc::{AllocError, AllocFailed};

/// Why a security context refuses a call. Where several hold, the answer is `WrongHeader` before
/// `CountSpent` before `BadMac`, and `NoMemory` last.
#[derive(Clone, Copy, Debug, PartialEq, Eq)]
pub enum SecurityFault {
    /// The MAC isn't the one of the message.
    BadMac = 1,
    /// No count of 24 bits is left that could be the message's.
    CountSpent = 2,
    /// The octets have no allowed security header, or another form, or another key set identifier.
    WrongHeader = 3,
    /// Memory was refused.
    NoMemory = 4,
}

impl<T: Drop> From<AllocFailed<T>> for SecurityFault {
    ghost from_gives = { λ _ e. e ≡ NoMemory };

    fn from(_e: AllocFailed<T>) -> SecurityFault {
        SecurityFault::NoMemory
    }
}

impl From<AllocError> for SecurityFault {
    ghost from_gives = { λ _ e. e ≡ NoMemory };

    fn from(_e: AllocError) -> SecurityFault {
        SecurityFault::NoMemory
    }
}
