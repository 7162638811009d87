//! The messages of EPS session management (TS 24.301 clause 8.3). `B` is what holds octets: a slice of the octets that were
//! decoded in the code, a list in contracts.

ghost use Rattle.std.specs.Prelude.{◌≡◌, ⊤};

use std::alloc::AllocError;

/// The type of a message.
#[derive(Clone, Copy)]
pub enum EsmType {
    ActivateRequest,
    ActivateAccept,
    ActivateReject,
    ConnectivityRequest,
    ConnectivityReject,
    DisconnectRequest,
    DisconnectReject,
    InformationRequest,
    InformationResponse,
    EsmStatus,
}

/// ACTIVATE DEFAULT EPS BEARER CONTEXT REQUEST with QCI 9 and an IPv4 address (TS 24.301 clause 8.3.6).
#[derive(Clone, Copy)]
pub struct ActivateRequest<B> {
    /// The access point name: one label of 1 to 63 octets, without its length.
    pub apn: B,
    /// The IPv4 address, four octets.
    pub address: B,
    /// The ESM cause, one octet.
    pub cause: Option<B>,
}

/// What an ESM message says.
#[derive(Copy, Drop)]
pub enum EsmBody<B> {
    /// c1.
    ActivateRequest(ActivateRequest<B>),
    /// c2: ACTIVATE DEFAULT EPS BEARER CONTEXT ACCEPT.
    ActivateAccept,
    /// c3: ACTIVATE DEFAULT EPS BEARER CONTEXT REJECT.
    ActivateReject {
        cause: u8,
    },
    /// d0: PDN CONNECTIVITY REQUEST; both types have three bits, and the flag says that ESM information is to be asked for.
    ConnectivityRequest {
        request_type: u8,
        pdn_type: u8,
        information: bool,
    },
    /// d1: PDN CONNECTIVITY REJECT.
    ConnectivityReject {
        cause: u8,
    },
    /// d2: PDN DISCONNECT REQUEST for the bearer that is linked, four bits.
    DisconnectRequest {
        linked: u8,
    },
    /// d3: PDN DISCONNECT REJECT.
    DisconnectReject {
        cause: u8,
    },
    /// d9: ESM INFORMATION REQUEST.
    InformationRequest,
    /// da: ESM INFORMATION RESPONSE.
    InformationResponse,
    /// e8.
    EsmStatus {
        cause: u8,
    },
}

// (by hand: the message itself, where a derived one would go through each field of each variant)
impl<B: Copy> Clone for EsmBody<B> {
    ghost is_clone = { λ message copied. copied ≡ message };

    ghost is_infallible = { λ _. ⊤ };

    fn clone(&self) -> Result<EsmBody<B>, AllocError> {
        Ok(*self)
    }
}

/// An ESM message.
#[derive(Copy, Drop)]
pub struct Esm<B> {
    /// The EPS bearer identity, four bits.
    pub bearer: u8,
    /// The procedure transaction identity.
    pub transaction: u8,
    pub body: EsmBody<B>,
}

impl<B: Copy> Clone for Esm<B> {
    ghost is_clone = { λ message copied. copied ≡ message };

    ghost is_infallible = { λ _. ⊤ };

    fn clone(&self) -> Result<Esm<B>, AllocError> {
        Ok(*self)
    }
}

/// An ESM message that lends its octets from those it was decoded from.
pub type EsmMessage<'a> = Esm<&'a [u8]>;
