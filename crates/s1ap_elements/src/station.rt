//! What stations and MMEs say of themselves.

use crate::identity::{MmeCode, MmeGroup, Plmn, Tac};
use per_bits::{BitField, Items};

/// The number of a station in its network (TS 36.413 clause 9.2.1.37).
#[derive(Clone, Copy)]
pub enum EnbId {
    /// Of a station of large cells.
    Macro(BitField<20>),
    /// Of a home station: the number of its one cell.
    Home(BitField<28>),
}

/// A station of all networks (TS 36.413 clause 9.2.1.37).
#[derive(Clone, Copy)]
pub struct GlobalEnbId {
    pub plmn: Plmn,
    pub id: EnbId,
}

/// A tracking area with the networks that are broadcast there (TS 36.413 clause 9.1.8.4).
#[derive(Drop)]
pub struct SupportedTa {
    pub tac: Tac,
    pub plmns: Items<Plmn, 1, 6>,
}

/// The tracking areas of a station.
pub type SupportedTas = Items<SupportedTa, 1, 256>;

/// Networks, groups and codes that an MME serves (TS 36.413 clause 9.1.8.5).
#[derive(Drop)]
pub struct ServedGummei {
    pub plmns: Items<Plmn, 1, 32>,
    pub groups: Items<MmeGroup, 1, 65535>,
    pub codes: Items<MmeCode, 1, 256>,
}

/// All that an MME serves.
pub type ServedGummeis = Items<ServedGummei, 1, 8>;

/// The default paging cycle in radio frames (TS 36.413 clause 9.2.1.16).
#[derive(Clone, Copy, Debug)]
pub enum PagingDrx {
    Frames32,
    Frames64,
    Frames128,
    Frames256,
    /// A cycle of a later release.
    Extended(u64),
}
