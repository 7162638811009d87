//! The timers of the network's side (TS 24.301 clause 10.2): their lengths in ticks, which are seconds, and how often the message
//! of a procedure is sent again when its timer ends.

/// T3412, the periodic tracking area update: 54 minutes.
pub const T3412_TICKS: u32 = 3240;

/// T3412 as messages have it: 9 times 6 minutes (TS 24.008 clause 10.5.7.3).
pub const T3412_OCTET: u8 = 0x49;

/// The mobile reachable timer, after which a phone that is idle is taken to be gone: four minutes longer than T3412 (TS 24.301
/// clause 5.3.5).
pub const MOBILE_REACHABLE_TICKS: u32 = 3480;

/// T3413, of PAGING.
pub const T3413_TICKS: u32 = 10;

pub const T3413_REPEATS: u32 = 1;

/// T3422, of the network's DETACH REQUEST.
pub const T3422_TICKS: u32 = 6;

pub const T3422_REPEATS: u32 = 4;

/// T3450, of ATTACH ACCEPT and TRACKING AREA UPDATE ACCEPT.
pub const T3450_TICKS: u32 = 6;

pub const T3450_REPEATS: u32 = 4;

/// T3460, of AUTHENTICATION REQUEST and SECURITY MODE COMMAND.
pub const T3460_TICKS: u32 = 6;

pub const T3460_REPEATS: u32 = 4;

/// T3470, of IDENTITY REQUEST.
pub const T3470_TICKS: u32 = 6;

pub const T3470_REPEATS: u32 = 4;

/// T3489, of ESM INFORMATION REQUEST.
pub const T3489_TICKS: u32 = 4;

pub const T3489_REPEATS: u32 = 2;
