//! Why octets are no message, and why octets couldn't be written.

ghost use Rattle.std.specs.Prelude.{◌≡◌};
ghost use Rattle.nas_elements.specs.declared.fault.NasFault.TheVariants.{NoMemory};

use std::alloc::AllocError;

/// A fault, with its number. The first four come from octets that are read, in the order 1, 3, 2, 4; the fifth comes
/// where memory for octets that are written was refused.
#[derive(Clone, Copy, PartialEq, Eq, Debug)]
pub enum NasFault {
    /// Too few octets for the type of a message.
    TooShort = 1,
    /// The mandatory part, or an element of it, is not of its form.
    Mandatory = 2,
    /// No message has this form of header or this type.
    UnknownType = 3,
    /// An element of the optional part ends past the octets.
    OptionalPart = 4,
    /// No memory.
    NoMemory = 5,
}

impl From<AllocError> for NasFault {
    ghost from_gives = { λ _ fault. fault ≡ NoMemory };

    fn from(_error: AllocError) -> NasFault {
        NasFault::NoMemory
    }
}
