//! Why a run ends before its trace does.

ghost use Rattle.std.specs.Prelude.{◌≡◌};
ghost use Rattle.trace_progress.specs.Faults.{in_line, status_of};

use thiserror::Error;
use trace_words::TraceFault;

/// Why a run ends before its trace does.
#[derive(Clone, Copy, Debug, PartialEq, Eq, Error)]
pub enum PlayFault {
    /// The line of that number, counted from 1, has a fault.
    #[error("line {0}: fault {n}", n = .1.number())]
    Trace(u64, TraceFault),
    /// A read failed, or 2^32 reads were made.
    #[error("read failed")]
    Read,
    /// A write failed.
    #[error("write failed")]
    Write,
    /// A growth of memory was refused.
    #[error("out of memory")]
    NoMemory,
}

impl PlayFault {
    /// The exit status of a run that ends with this fault, 1, 3 or 4.
    pub fn status(self) -> u8
        ensures { result ≡ status_of self }
    {
        match self {
            PlayFault::Trace(_, _) => 1,
            PlayFault::Read | PlayFault::Write => 3,
            PlayFault::NoMemory => 4,
        }
    }
}

/// The fault of the line of that number.
pub fn fault_in_line(line: u64, fault: TraceFault) -> PlayFault
    ensures { result ≡ in_line line fault }
{
    match fault {
        TraceFault::NoMemory => PlayFault::NoMemory,
        other => PlayFault::Trace(line, other),
    }
}
