//! Why a call is refused.

ghost use Rattle.std.specs.Prelude.{◌≡◌};
ghost use Rattle.c_session.specs.Refusals.{number_of, of_line, of_play, of_provision, of_step, told, told_of_start};

use identity_slots::ProvisionFault;
use mme_core::StepFault;
use trace_progress::PlayFault;
use trace_words::TraceFault;

/// Why a call is refused, with its number.
#[derive(Clone, Copy, Debug, PartialEq, Eq)]
pub enum Refusal {
    /// The station is down.
    NotUp = 1,
    /// The station is not down.
    AlreadyUp = 2,
    /// The clock is at its last tick, 2^62.
    ClockSpent = 3,
    /// A growth of memory was refused.
    NoMemory = 4,
    /// Nobody is provisioned with the IMSI.
    UnknownImsi = 5,
    /// No line begins with this word.
    UnknownWord = 11,
    /// Too few or too many fields for the word.
    FieldCount = 12,
    /// Not a number in its range, not an IMSI, or not a name as it should be.
    BadNumber = 13,
    /// Not octets in hex, or not as many as there should be.
    BadOctets = 14,
    /// The line has more than 40000 octets.
    TooLong = 15,
    /// What came before doesn't allow it.
    Order = 16,
    /// The subscriber or the vector can't be taken, or nobody has the IMSI.
    Provision = 17,
    /// There is no MME, or it isn't started.
    NoMme = 21,
    /// There is something already.
    InUse = 22,
    /// No reply or no message has this place.
    NoOutput = 23,
    /// There is less room than the message takes.
    NoRoom = 24,
    /// Memory ran out while the MME was made of what was provisioned, of which nothing is left.
    Lost = 25,
    /// A part of the MME has a state that a snapshot can't have.
    NotSaved = 26,
    /// A snapshot of another version.
    OtherVersion = 27,
    /// The octets are no snapshot.
    NoSnapshot = 28,
    /// More next hops would be derived than the caller allows.
    TooMuchWork = 29,
}

impl Refusal {
    /// Its number, 1 to 29.
    pub fn number(self) -> u8
        ensures { result ≡ number_of self }
    {
        self as u8
    }
}

/// The refusal of an event with that fault.
pub(crate) fn of_step(fault: StepFault) -> Refusal
    ensures { result ≡ of_step fault }
{
    match fault {
        StepFault::NotUp => Refusal::NotUp,
        StepFault::AlreadyUp => Refusal::AlreadyUp,
        StepFault::ClockSpent => Refusal::ClockSpent,
        StepFault::NoMemory => Refusal::NoMemory,
        StepFault::UnknownImsi => Refusal::UnknownImsi,
    }
}

/// The refusal of a subscriber or a vector with that fault, by an MME that runs.
pub(crate) fn of_provision(fault: ProvisionFault) -> Refusal
    ensures { result ≡ of_provision fault }
{
    match fault {
        ProvisionFault::RepeatedImsi | ProvisionFault::RepeatedAddress | ProvisionFault::Full => {
            Refusal::Provision
        }
        ProvisionFault::NoMemory => Refusal::NoMemory,
    }
}

/// The refusal of a line or an argument with that fault.
pub(crate) fn of_line(fault: TraceFault) -> Refusal
    ensures { result ≡ of_line fault }
{
    match fault {
        TraceFault::UnknownWord => Refusal::UnknownWord,
        TraceFault::FieldCount => Refusal::FieldCount,
        TraceFault::BadNumber => Refusal::BadNumber,
        TraceFault::BadHex => Refusal::BadOctets,
        TraceFault::TooLong => Refusal::TooLong,
        TraceFault::Order => Refusal::Order,
        TraceFault::Provision => Refusal::Provision,
        TraceFault::NoMemory => Refusal::NoMemory,
    }
}

fn of_play(fault: PlayFault) -> Refusal
    ensures { result ≡ of_play fault }
{
    match fault {
        PlayFault::Trace(_, fault) => of_line(fault),
        PlayFault::Read | PlayFault::Write | PlayFault::NoMemory => Refusal::NoMemory,
    }
}

/// What a step of provisioning answered.
pub(crate) fn told(answer: Result<(), PlayFault>) -> Result<(), Refusal>
    ensures { result ≡ told answer }
{
    match answer {
        Ok(()) => Ok(()),
        Err(fault) => Err(of_play(fault)),
    }
}

/// What the start of an MME answered: where memory ran out, what was provisioned is lost.
pub(crate) fn told_of_start(answer: Result<(), PlayFault>) -> Result<(), Refusal>
    ensures { result ≡ told_of_start answer }
{
    match answer {
        Ok(()) => Ok(()),
        Err(PlayFault::NoMemory) => Err(Refusal::Lost),
        Err(fault) => Err(of_play(fault)),
    }
}
