//! ESM causes.

ghost use Rattle.std.specs.Prelude.{◌≡◌};
ghost use Rattle.esm_machine.specs.Causes.{esm_cause_code};

/// An ESM cause that is sent (TS 24.301 annex B).
#[derive(Clone, Copy, PartialEq, Eq, Debug)]
pub enum EsmCause {
    /// Request rejected, unspecified.
    RequestRejected,
    /// Last PDN disconnection not allowed.
    LastDisconnection,
    /// PDN type IPv4 only allowed.
    OnlyIpv4,
    /// Invalid mandatory information.
    InvalidMandatory,
    /// Message type non-existent or not implemented.
    UnknownType,
    /// Message type not compatible with protocol state.
    NotCompatible,
}

impl EsmCause {
    /// Its code (TS 24.301 clause 9.9.4.4).
    pub fn code(self) -> u8
        ensures { result ≡ esm_cause_code self }
    {
        match self {
            EsmCause::RequestRejected => 31,
            EsmCause::LastDisconnection => 49,
            EsmCause::OnlyIpv4 => 50,
            EsmCause::InvalidMandatory => 96,
            EsmCause::UnknownType => 97,
            EsmCause::NotCompatible => 98,
        }
    }
}
