//! What stands before the subscribers: the MME's own data, its stations, and strangers, phones that no subscriber is known for.

use crate::numbers::{BitsPerSecond, Long, RepeatsLeft, SlotNumber, TicksLeft};
use per_bits::{OctetString, SizedString};
use s1ap_elements::{MmeCode, MmeGroup, MmeUeId, Plmn, SupportedTas, Tai};

/// Who the MME is, its GUMMEI (TS 23.003 clause 2.8.1), and what it grants each phone.
#[derive(Clone, Copy)]
pub struct SavedNetwork<'a> {
    pub plmn: Plmn,
    pub group: MmeGroup,
    pub code: MmeCode,
    /// The access point name, of one label (TS 23.003 clause 9.1): 1 to 63 octets, any of them.
    pub apn: SizedString<'a, 1, 63>,
    /// Downlink; the other is uplink.
    pub down: BitsPerSecond,
    pub up: BitsPerSecond,
}

/// What the MME knows of a station (TS 36.413 clause 8.7.3).
#[derive(Drop)]
pub enum SavedStation {
    /// Without a connection.
    Down,
    /// Connected, and not set up.
    Up,
    /// Set up, with the tracking areas that it broadcasts.
    Ready(SupportedTas),
}

/// What stands first. The stations follow, by their numbers, then the strangers and the subscribers, each after how many they are.
#[derive(Clone, Copy)]
pub struct SavedHead<'a> {
    pub network: SavedNetwork<'a>,
    /// Where the clock began, in ticks, which are seconds; then where it is.
    pub began: Long,
    pub clock: Long,
}

/// A stranger that was asked for its identity (TS 24.301 clause 5.4.4).
#[derive(Clone, Copy)]
pub struct SavedWaiting<'a> {
    /// The NAS message with which it began (TS 36.413 clause 8.6.2.1).
    pub nas: OctetString<'a>,
    pub tai: Tai,
    /// Of T3470; the repeats are of IDENTITY REQUEST.
    pub left: TicksLeft,
    pub repeats: RepeatsLeft,
}

/// What is kept of a stranger that isn't closed.
#[derive(Clone, Copy)]
pub enum SavedStrangerState<'a> {
    Waiting(SavedWaiting<'a>),
    /// It turned out to be the subscriber of this slot, who has its association.
    Held(SlotNumber),
}

/// A stranger.
#[derive(Clone, Copy)]
pub struct SavedStranger<'a> {
    /// Made of its station and its eNB UE S1AP ID, which don't stand besides.
    pub id: MmeUeId,
    pub state: SavedStrangerState<'a>,
}
