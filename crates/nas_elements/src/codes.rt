//! Codes of TS 24.301 by their names, where they stand outside of a message's own row.

/// The protocol discriminator of EPS mobility management (TS 24.007 clause 11.2.3.1.1).
pub const EMM_DISCRIMINATOR: u8 = 7;

/// The protocol discriminator of EPS session management (TS 24.007 clause 11.2.3.1.1).
pub const ESM_DISCRIMINATOR: u8 = 2;

/// The first octet of SERVICE REQUEST: security header type 12 with EMM's discriminator (TS 24.301 clause 9.3.1).
pub const SERVICE_REQUEST: u8 = 0xc7;

/// The type of ATTACH REQUEST (TS 24.301 clause 9.8).
pub const ATTACH_REQUEST: u8 = 0x41;

/// The type of TRACKING AREA UPDATE REQUEST (TS 24.301 clause 9.8).
pub const TRACKING_AREA_UPDATE_REQUEST: u8 = 0x48;

/// The EPS attach type of a combined EPS/IMSI attach (TS 24.301 clause 9.9.3.11).
pub const COMBINED_ATTACH: u8 = 2;

/// The EPS update type of combined TA/LA updating (TS 24.301 clause 9.9.3.14).
pub const COMBINED_UPDATE: u8 = 1;

/// The EPS update type of combined TA/LA updating with IMSI attach (TS 24.301 clause 9.9.3.14).
pub const COMBINED_UPDATE_WITH_ATTACH: u8 = 2;

/// The NAS key set identifier that says that there is no key; those of keys are below it (TS 24.301 clause 9.9.3.21).
pub const NO_KEY_SET: u8 = 7;

/// The EPS bearer identity of a message that is of no bearer (TS 24.301 clause 9.3.2).
pub const NO_BEARER: u8 = 0;

/// The EPS bearer identity of the default bearer, which is the first that a bearer may have (TS 24.301 clause 9.3.2).
pub const DEFAULT_BEARER: u8 = 5;

/// The PDN type of IPv6 alone (TS 24.301 clause 9.9.4.10).
pub const PDN_TYPE_IPV6: u8 = 2;

/// The PDN type of IPv4 and IPv6 (TS 24.301 clause 9.9.4.10).
pub const PDN_TYPE_IPV4V6: u8 = 3;
