//! Identifiers of optional elements (TS 24.301 clauses 8.2 and 8.3): the first octet of each.

/// The location area that the phone was in before (clause 9.9.2.2).
pub const OLD_LOCATION_AREA: u8 = 0x13;

/// The signature of a temporary identity of GERAN or UTRAN (clause 9.9.3.26).
pub const OLD_P_TMSI_SIGNATURE: u8 = 0x19;

/// The GUTI that the phone is given (clause 9.9.3.12).
pub const GUTI: u8 = 0x50;

/// The tracking area that the phone was registered in last (clause 9.9.3.32).
pub const LAST_VISITED_TAI: u8 = 0x52;

/// The cause for which a part of a combined request isn't granted (clause 9.9.3.9).
pub const EMM_CAUSE: u8 = 0x53;

/// The tracking areas that the phone is registered in (clause 9.9.3.33).
pub const TAI_LIST: u8 = 0x54;

/// A number that the phone uses once (clause 9.9.3.25).
pub const NONCE: u8 = 0x55;

/// The cause of a session (clause 9.9.4.4); in messages of mobility management the phone's algorithms (clause 9.9.3.34).
pub const ESM_CAUSE: u8 = 0x58;

/// The periodic update timer (clause 9.9.3.16).
pub const T3412_VALUE: u8 = 0x5a;

/// How often the phone listens for pages (clause 9.9.3.8).
pub const DRX_PARAMETER: u8 = 0x5c;

/// A message of session management (clause 9.9.3.15); the first of eight identifiers with a length of two octets.
pub const ESM_MESSAGE_CONTAINER: u8 = 0x78;

/// Whether the phone is to be asked for ESM information (clause 9.9.4.5): half an octet, in which the flag stands too.
pub const ESM_INFORMATION_FLAG: u8 = 0xd0;
