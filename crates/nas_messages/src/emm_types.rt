//! The messages of EPS mobility management (TS 24.301 clause 8.2). `B` is what holds octets: a slice of the octets that were
//! decoded in the code, a list in contracts.
//!
//! Numbers of three bits, as key set identifiers and types of attach, detach and update, are below 8 in what is decoded and
//! have to be in what is encoded.

ghost use Rattle.std.specs.Prelude.{◌≡◌, ⊤};

use nas_elements::{Guti, MobileIdentity, TaiList};
use std::alloc::AllocError;

/// ATTACH REQUEST (TS 24.301 clause 8.2.4).
#[derive(Clone, Copy)]
pub struct AttachRequest<B> {
    /// The EPS attach type, three bits.
    pub attach_type: u8,
    /// The NAS key set identifier, three bits.
    pub ksi: u8,
    pub identity: MobileIdentity,
    /// The UE network capability, 2 to 13 octets (clause 9.9.3.34).
    pub capability: B,
    /// The ESM message, any octets.
    pub esm: B,
}

/// ATTACH ACCEPT for EPS services only, with a periodic update timer of 54 minutes (TS 24.301 clause 8.2.1).
#[derive(Clone, Copy)]
pub struct AttachAccept<B> {
    pub tai_list: TaiList,
    /// The ESM message, any octets.
    pub esm: B,
    /// Octets of a GUTI, which aren't looked into.
    pub guti: Option<B>,
    /// The EMM cause, one octet.
    pub cause: Option<B>,
}

/// ATTACH REJECT (TS 24.301 clause 8.2.3).
#[derive(Clone, Copy)]
pub struct AttachReject<B> {
    pub cause: u8,
    /// The ESM message, any octets.
    pub esm: Option<B>,
}

/// DETACH REQUEST of a phone (TS 24.301 clause 8.2.11.1).
#[derive(Clone, Copy)]
pub struct DetachRequest {
    /// The type of detach, three bits.
    pub detach_type: u8,
    /// Whether the phone is switched off, and waits for no answer.
    pub switch_off: bool,
    /// The NAS key set identifier, three bits.
    pub ksi: u8,
    pub identity: MobileIdentity,
}

/// TRACKING AREA UPDATE REQUEST (TS 24.301 clause 8.2.29).
#[derive(Clone, Copy)]
pub struct TrackingAreaUpdateRequest {
    /// The EPS update type, three bits.
    pub update_type: u8,
    /// Whether bearers are to be established.
    pub active: bool,
    /// The NAS key set identifier, three bits.
    pub ksi: u8,
    /// The old GUTI.
    pub guti: Guti,
}

/// TRACKING AREA UPDATE ACCEPT, for the tracking area (TS 24.301 clause 8.2.26). The elements' octets aren't looked into.
#[derive(Clone, Copy)]
pub struct TrackingAreaUpdateAccept<B> {
    /// T3412, one octet.
    pub timer: Option<B>,
    /// A GUTI.
    pub guti: Option<B>,
    /// A TAI list.
    pub tai_list: Option<B>,
    /// The EMM cause, one octet.
    pub cause: Option<B>,
}

/// AUTHENTICATION REQUEST (TS 24.301 clause 8.2.7).
#[derive(Clone, Copy)]
pub struct AuthenticationRequest<B> {
    /// The NAS key set identifier, three bits.
    pub ksi: u8,
    /// RAND, 16 octets.
    pub rand: B,
    /// AUTN, 16 octets.
    pub autn: B,
}

/// SECURITY MODE COMMAND for EEA0 and EIA2 (TS 24.301 clause 8.2.20).
#[derive(Clone, Copy)]
pub struct SecurityModeCommand<B> {
    /// The NAS key set identifier, three bits.
    pub ksi: u8,
    /// The replayed UE security capability, 2 to 13 octets.
    pub capability: B,
}

/// The type of a message, and for the type that two messages have, who sends it. SERVICE REQUEST has none.
#[derive(Clone, Copy)]
pub enum EmmType {
    AttachRequest,
    AttachAccept,
    AttachComplete,
    AttachReject,
    DetachRequest,
    NetworkDetach,
    DetachAccept,
    TrackingAreaUpdateRequest,
    TrackingAreaUpdateAccept,
    TrackingAreaUpdateComplete,
    TrackingAreaUpdateReject,
    ServiceReject,
    AuthenticationRequest,
    AuthenticationResponse,
    AuthenticationReject,
    IdentityRequest,
    IdentityResponse,
    AuthenticationFailure,
    SecurityModeCommand,
    SecurityModeComplete,
    SecurityModeReject,
    EmmStatus,
}

/// Who sends a message: the phone, or the network.
#[derive(Clone, Copy)]
pub enum Direction {
    Uplink,
    Downlink,
}

/// An EMM message.
#[derive(Copy, Drop)]
pub enum Emm<B> {
    /// 41.
    AttachRequest(AttachRequest<B>),
    /// 42.
    AttachAccept(AttachAccept<B>),
    /// 43, with an ESM message.
    AttachComplete { esm: B },
    /// 44.
    AttachReject(AttachReject<B>),
    /// 45, uplink.
    DetachRequest(DetachRequest),
    /// 45, downlink: DETACH REQUEST of the network, re-attach not required.
    NetworkDetach,
    /// 46.
    DetachAccept,
    /// 48: TRACKING AREA UPDATE REQUEST.
    TrackingAreaUpdateRequest(TrackingAreaUpdateRequest),
    /// 49: TRACKING AREA UPDATE ACCEPT.
    TrackingAreaUpdateAccept(TrackingAreaUpdateAccept<B>),
    /// 4a: TRACKING AREA UPDATE COMPLETE.
    TrackingAreaUpdateComplete,
    /// 4b: TRACKING AREA UPDATE REJECT.
    TrackingAreaUpdateReject { cause: u8 },
    /// 4e.
    ServiceReject { cause: u8 },
    /// 52.
    AuthenticationRequest(AuthenticationRequest<B>),
    /// 53, with RES of 4 to 16 octets.
    AuthenticationResponse { res: B },
    /// 54.
    AuthenticationReject,
    /// 55, for the IMSI.
    IdentityRequest,
    /// 56.
    IdentityResponse { identity: MobileIdentity },
    /// 5c.
    AuthenticationFailure { cause: u8 },
    /// 5d.
    SecurityModeCommand(SecurityModeCommand<B>),
    /// 5e.
    SecurityModeComplete,
    /// 5f.
    SecurityModeReject { cause: u8 },
    /// 60.
    EmmStatus { cause: u8 },
    /// SERVICE REQUEST: c7, the KSI in three bits and the sequence in five, the last two octets of the MAC
    /// (TS 24.301 clause 8.2.25).
    ServiceRequest { octets: [u8; 4] },
}

// (by hand: the message itself, where a derived one would go through each field of each variant)
impl<B: Copy> Clone for Emm<B> {
    ghost is_clone = { λ message copied. copied ≡ message };

    ghost is_infallible = { λ _. ⊤ };

    fn clone(&self) -> Result<Emm<B>, AllocError> {
        Ok(*self)
    }
}

/// An EMM message that lends its octets from those it was decoded from.
pub type EmmMessage<'a> = Emm<&'a [u8]>;
