//! What messages say of radio access bearers.

use crate::container::{IGNORE, Listed, REJECT};
use crate::identity::{Address, BitRate, ErabId, Teid};
use crate::ids::{
    ERAB_SETUP_ITEM_CTXT_SU_RES, ERAB_TO_BE_SETUP_ITEM_CTXT_SU_REQ, ERAB_TO_BE_SWITCHED_DL_ITEM,
};
use per_bits::{Items, Whole};

/// The bit rates of a phone, all bearers together (TS 36.413 clause 9.2.1.20).
#[derive(Clone, Copy)]
pub struct Ambr {
    pub down: BitRate,
    pub up: BitRate,
}

/// Who keeps a bearer where there is too little for all (TS 36.413 clause 9.2.1.60).
#[derive(Clone, Copy)]
pub struct Arp {
    /// 1 to 14, 1 being the highest; 15 is no priority.
    pub priority: Whole<0, 15>,
    /// 0: may not take from others; 1: may.
    pub capability: Whole<0, 1>,
    /// 0: nothing may be taken; 1: may be.
    pub vulnerability: Whole<0, 1>,
}

/// Bit rates that a bearer is assured of (TS 36.413 clause 9.2.1.18): read and not kept.
#[derive(Clone, Copy)]
pub struct Gbr {
    pub maximum_down: BitRate,
    pub maximum_up: BitRate,
    pub down: BitRate,
    pub up: BitRate,
}

/// How a bearer is served (TS 36.413 clause 9.2.1.15).
#[derive(Clone, Copy)]
pub struct Qos {
    pub qci: Whole<0, 255>,
    pub arp: Arp,
}

/// A bearer that is to be set up (TS 36.413 clause 9.1.4.1). `B` holds octets.
#[derive(Drop)]
pub struct ErabToBeSetup<'a, B> {
    pub id: ErabId,
    pub qos: Qos,
    pub address: Address<'a>,
    pub teid: Teid,
    pub nas: Option<B>,
}

/// Where a bearer's tunnel ends (TS 36.413 clauses 9.1.4.3 and 9.1.5.8).
#[derive(Drop)]
pub struct ErabTunnel<'a> {
    pub id: ErabId,
    pub address: Address<'a>,
    pub teid: Teid,
}

/// An element of the bearers that are to be set up (E-RABToBeSetupItemCtxtSUReq, TS 36.413 clause 9.1.4.1).
pub type ErabToBeSetupItem<'a, B> = Listed<
    ErabToBeSetup<'a, B>,
    ERAB_TO_BE_SETUP_ITEM_CTXT_SU_REQ,
    REJECT,
>;

/// Bearers that are to be set up (TS 36.413 clause 9.1.4.1).
pub type ErabsToBeSetup<'a, B> = Items<ErabToBeSetupItem<'a, B>, 1, 256>;

/// An element of the bearers that were set up (E-RABSetupItemCtxtSURes, TS 36.413 clause 9.1.4.3).
pub type ErabSetupItem<'a> = Listed<ErabTunnel<'a>, ERAB_SETUP_ITEM_CTXT_SU_RES, IGNORE>;

/// Bearers that were set up (TS 36.413 clause 9.1.4.3).
pub type ErabsSetup<'a> = Items<ErabSetupItem<'a>, 1, 256>;

/// An element of the bearers that are to be switched (E-RABToBeSwitchedDLItem, TS 36.413 clause 9.1.5.8).
pub type ErabToBeSwitchedItem<'a> = Listed<ErabTunnel<'a>, ERAB_TO_BE_SWITCHED_DL_ITEM, REJECT>;

/// Bearers that are to be switched (TS 36.413 clause 9.1.5.8).
pub type ErabsToBeSwitched<'a> = Items<ErabToBeSwitchedItem<'a>, 1, 256>;
