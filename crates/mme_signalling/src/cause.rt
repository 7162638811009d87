//! EMM causes.

ghost use Rattle.std.specs.Prelude.{◌≡◌};
ghost use Rattle.mme_signalling.specs.Causes.{cause_of_fault, emm_cause_code};

use nas_elements::NasFault;

/// An EMM cause that is sent, or by which a message is told from others (TS 24.301 annex A).
#[derive(Clone, Copy, PartialEq, Eq, Debug)]
pub enum EmmCause {
    /// EPS services and non-EPS services not allowed: nobody has the IMSI.
    ServicesNotAllowed,
    /// UE identity cannot be derived by the network.
    IdentityNotDerived,
    /// Implicitly detached.
    ImplicitlyDetached,
    /// Network failure.
    NetworkFailure,
    /// CS domain not available: what was asked for is granted for EPS services only.
    CsDomainNotAvailable,
    /// ESM failure.
    EsmFailure,
    /// Synch failure: the phone couldn't tell that the network is fresh.
    SynchFailure,
    /// Invalid mandatory information.
    InvalidMandatory,
    /// Message type non-existent or not implemented.
    UnknownType,
    /// Message type not compatible with the protocol state.
    NotCompatible,
    /// Protocol error, unspecified.
    ProtocolError,
}

impl EmmCause {
    /// Its code (TS 24.301 clause 9.9.3.9).
    pub fn code(self) -> u8
        ensures { result ≡ emm_cause_code self }
    {
        match self {
            EmmCause::ServicesNotAllowed => 8,
            EmmCause::IdentityNotDerived => 9,
            EmmCause::ImplicitlyDetached => 10,
            EmmCause::NetworkFailure => 17,
            EmmCause::CsDomainNotAvailable => 18,
            EmmCause::EsmFailure => 19,
            EmmCause::SynchFailure => 21,
            EmmCause::InvalidMandatory => 96,
            EmmCause::UnknownType => 97,
            EmmCause::NotCompatible => 98,
            EmmCause::ProtocolError => 111,
        }
    }
}

/// The cause of the status that answers octets with a fault, if any (TS 24.301 clause 7).
pub fn cause_of_fault(fault: NasFault) -> Option<EmmCause>
    ensures { result ≡ cause_of_fault fault }
{
    match fault {
        NasFault::TooShort | NasFault::NoMemory => None,
        NasFault::Mandatory | NasFault::OptionalPart => Some(EmmCause::InvalidMandatory),
        NasFault::UnknownType => Some(EmmCause::UnknownType),
    }
}
