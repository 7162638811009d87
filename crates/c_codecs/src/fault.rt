//! Why a call is refused.

ghost use Rattle.std.specs.Prelude.{◌≡◌};
ghost use Rattle.c_codecs.specs.Faults.{number_of, of_nas, of_s1ap};

use nas_elements::NasFault;
use s1ap_messages::S1apFault;

/// Why a call is refused, with its number.
#[derive(Clone, Copy, Debug, PartialEq, Eq)]
pub enum CodecFault {
    /// A growth of memory was refused.
    NoMemory = 4,
    /// Not a direction.
    BadNumber = 13,
    /// Not as many octets as there should be.
    BadOctets = 14,
    /// The octets spell nothing at some place (X.691).
    Syntax = 31,
    /// A procedure that isn't known.
    UnknownProcedure = 32,
    /// An element that must stand does not.
    MissingElement = 33,
    /// An element stands a second time.
    RepeatedElement = 34,
    /// An unknown element is marked reject.
    RefusedElement = 35,
    /// Too few octets for the type of a NAS message.
    TooShort = 41,
    /// The mandatory part of a NAS message isn't of its form.
    Mandatory = 42,
    /// No NAS message has this header or this type.
    UnknownType = 43,
    /// An element of the optional part of a NAS message ends past the octets.
    OptionalPart = 44,
    /// No NAS message in the protected form.
    NotProtected = 45,
}

impl CodecFault {
    /// Its number, 4 to 45.
    pub fn number(self) -> u8
        ensures { result ≡ number_of self }
    {
        self as u8
    }
}

pub(crate) fn of_s1ap(fault: S1apFault) -> CodecFault
    ensures { result ≡ of_s1ap fault }
{
    match fault {
        S1apFault::Syntax(_) => CodecFault::Syntax,
        S1apFault::UnknownProcedure(_) => CodecFault::UnknownProcedure,
        S1apFault::MissingElement(_) => CodecFault::MissingElement,
        S1apFault::RepeatedElement(_) => CodecFault::RepeatedElement,
        S1apFault::RefusedElement(_) => CodecFault::RefusedElement,
        S1apFault::NoMemory => CodecFault::NoMemory,
    }
}

pub(crate) fn of_nas(fault: NasFault) -> CodecFault
    ensures { result ≡ of_nas fault }
{
    match fault {
        NasFault::TooShort => CodecFault::TooShort,
        NasFault::Mandatory => CodecFault::Mandatory,
        NasFault::UnknownType => CodecFault::UnknownType,
        NasFault::OptionalPart => CodecFault::OptionalPart,
        NasFault::NoMemory => CodecFault::NoMemory,
    }
}
