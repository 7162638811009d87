//! What is wrong with a line.

ghost use Rattle.std.specs.Prelude.{◌≡◌};
ghost use Rattle.trace_words.specs.Trace.{number_of_fault};

use thiserror::Error;

/// Why a line of a trace is not taken. `Order` and `Provision` are for the lines before it to say.
#[derive(Clone, Copy, Debug, PartialEq, Eq, Error)]
pub enum TraceFault {
    /// No line begins with this word.
    #[error("unknown word")]
    UnknownWord = 1,
    /// Too few or too many fields for the word.
    #[error("wrong number of fields")]
    FieldCount = 2,
    /// A field is not a number in its range, or not a name as it should be.
    #[error("not a number in range")]
    BadNumber = 3,
    /// A field is not octets in hex, or not as many as it should be.
    #[error("not octets in hex")]
    BadHex = 4,
    /// The line has more than 40000 octets.
    #[error("line too long")]
    TooLong = 5,
    /// The line may not stand here.
    #[error("line out of order")]
    Order = 6,
    /// The line names a subscriber as it may not.
    #[error("not provisioned so")]
    Provision = 7,
    /// A growth of memory was refused.
    #[error("out of memory")]
    NoMemory = 8,
}

impl TraceFault {
    /// The number that a program reports, 1 to 8.
    pub fn number(self) -> u8
        ensures { result ≡ number_of_fault self }
    {
        self as u8
    }
}
