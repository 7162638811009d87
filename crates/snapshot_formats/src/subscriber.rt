//! Subscribers: what is provisioned, their vectors, and the states of their phones' machines.

use crate::context::{SavedConnection, SavedContext};
use crate::key::LentKey;
use crate::numbers::{
    Flag, HeaderCode, IdCounter, Long, PhaseNumber, RepeatsLeft, StationIndex, TicksLeft,
    TimerNumber,
};
use per_bits::{Items, OctetString, Octets, SizedString, Whole};
use s1ap_elements::{Tai, Teid};

/// What a machine is about, and where its phone is.
#[derive(Clone, Copy)]
pub struct SavedLink<'a> {
    pub phase: PhaseNumber,
    pub connection: Option<SavedConnection>,
    pub context: Option<SavedContext<'a>>,
}

/// The ids that the slot has given: of associations, and M-TMSIs (TS 23.003 clause 2.4).
#[derive(Clone, Copy)]
pub struct SavedIds {
    pub associations: IdCounter,
    pub tmsis: IdCounter,
    /// The phone's M-TMSI, if it has one.
    pub tmsi: Option<Whole<0, 4294967295>>,
}

/// What the last ATTACH REQUEST and TRACKING AREA UPDATE REQUEST asked for.
#[derive(Clone, Copy)]
pub struct SavedAsked<'a> {
    /// The phone's algorithms (TS 24.301 clause 9.9.3.34).
    pub capability: SizedString<'a, 2, 13>,
    /// A combined attach (TS 24.301 clause 9.9.3.11).
    pub combined_attach: Flag,
    /// The update came in an INITIAL UE MESSAGE.
    pub initial_update: Flag,
}

/// Where the activation of a bearer stands (TS 24.301 clause 6.1.3.3).
#[derive(Clone, Copy)]
pub enum SavedBearerState {
    Inactive,
    /// The phone was asked to activate it, and has not accepted.
    ActivePending,
    Active,
}

/// The connectivity request that was taken (TS 24.301 clause 6.5.1).
#[derive(Clone, Copy)]
pub struct SavedRequest {
    /// Its procedure transaction identity (TS 24.301 clause 9.4).
    pub transaction: Whole<0, 255>,
    /// It asked for an IPv4 and an IPv6 address.
    pub dual: Flag,
    /// It has the ESM information transfer flag.
    pub information: Flag,
}

/// The default bearer.
#[derive(Clone, Copy)]
pub struct SavedBearer {
    pub state: SavedBearerState,
    pub request: Option<SavedRequest>,
}

/// A NAS message that is sent again.
#[derive(Clone, Copy)]
pub struct SavedNas<'a> {
    /// Under which header it is protected anew; none where it is sent plain.
    pub header: Option<HeaderCode>,
    pub nas: OctetString<'a>,
}

/// What is sent when the countdown of a procedure has ended.
#[derive(Drop)]
pub enum SavedRepeat<'a> {
    /// A NAS message to the phone.
    Nas(SavedNas<'a>),
    /// PAGING to each of these stations (TS 24.301 clause 5.6.2).
    Paging(Items<StationIndex, 0, 128>),
}

/// A countdown that runs.
#[derive(Clone, Copy)]
pub struct SavedCountdown {
    pub timer: TimerNumber,
    pub left: TicksLeft,
    pub repeats: RepeatsLeft,
}

/// What a machine waits for.
#[derive(Drop)]
pub struct SavedWaits<'a> {
    pub repeat: Option<SavedRepeat<'a>>,
    /// Of the procedure that is under way.
    pub procedure: Option<SavedCountdown>,
    /// Until a phone that is idle is taken to be gone (TS 24.301 clause 5.3.5).
    pub reachable: Option<TicksLeft>,
}

/// The state of a phone's machine, but for its vectors.
#[derive(Drop)]
pub struct SavedState<'a> {
    pub link: SavedLink<'a>,
    pub ids: SavedIds,
    /// The tracking area that was accepted last.
    pub tai: Tai,
    pub asked: SavedAsked<'a>,
    pub bearer: SavedBearer,
    pub waits: SavedWaits<'a>,
}

/// An authentication vector (TS 33.401 clause 6.1.2).
#[derive(Clone, Copy)]
pub struct SavedVector<'a> {
    pub rand: Octets<16>,
    pub autn: Octets<16>,
    /// The answer that is expected.
    pub xres: SizedString<'a, 4, 16>,
    pub kasme: LentKey<'a>,
}

/// A subscriber.
#[derive(Drop)]
pub struct SavedSubscriber<'a> {
    /// The IMSI, packed as an EPS mobile identity has it (TS 24.301 clause 9.9.3.12).
    pub imsi: Octets<8>,
    /// Its IPv4 address.
    pub address: Octets<4>,
    /// The IPv4 address of its S-GW.
    pub gateway: Octets<4>,
    /// The S-GW's tunnel end for it.
    pub teid: Teid,
    /// How many of its vectors are spent, which don't stand here.
    pub spent: Long,
    /// Those that aren't, in the order in which they were given.
    pub vectors: Items<SavedVector<'a>, 0, 65535>,
    pub state: SavedState<'a>,
}
