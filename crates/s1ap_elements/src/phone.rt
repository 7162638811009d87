//! What identifies phones, and what messages say of them.

use crate::container::{IGNORE, Listed};
use crate::identity::{CellId, EnbUeId, MTmsi, MmeCode, MmeUeId, Plmn, SecurityKey, Tac};
use crate::ids::TAI_ITEM;
use per_bits::{BitField, Items, Whole};

/// A tracking area of all networks (TS 36.413 clause 9.2.3.16).
#[derive(Clone, Copy)]
pub struct Tai {
    pub plmn: Plmn,
    pub tac: Tac,
}

/// An element of a list of tracking areas (TS 36.413 clause 9.1.6).
#[derive(Clone, Copy)]
pub struct TaiItem {
    pub tai: Tai,
}

/// Tracking areas in which a phone is paged (TS 36.413 clause 9.1.6).
pub type TaiList = Items<Listed<TaiItem, TAI_ITEM, IGNORE>, 1, 256>;

/// A cell of all networks (TS 36.413 clause 9.2.1.38).
#[derive(Clone, Copy)]
pub struct EutranCgi {
    pub plmn: Plmn,
    pub cell: CellId,
}

/// A phone in its network, for a time (TS 36.413 clause 9.2.3.6).
#[derive(Clone, Copy)]
pub struct STmsi {
    pub code: MmeCode,
    pub m_tmsi: MTmsi,
}

/// By what a phone is paged (TS 36.413 clause 9.2.3.13). `B` holds octets.
#[derive(Clone, Copy)]
pub enum UePagingId<B> {
    STmsi(STmsi),
    /// Digits of the IMSI, 3 to 8 octets.
    Imsi(B),
}

/// Why a phone asked for a connection (TS 36.413 clause 9.2.1.3a).
#[derive(Clone, Copy, Debug)]
pub enum RrcCause {
    Emergency,
    HighPriorityAccess,
    MtAccess,
    MoSignalling,
    MoData,
    /// A cause of a later release.
    Extended(u64),
}

/// For which domain a phone is paged (TS 36.413 clause 9.2.3.22).
#[derive(Clone, Copy, Debug)]
pub enum CnDomain {
    Ps,
    Cs,
}

/// Both ids of an association (TS 36.413 clause 9.2.3.18).
#[derive(Clone, Copy, PartialEq, Eq)]
pub struct UeIdPair {
    pub mme_ue_id: MmeUeId,
    pub enb_ue_id: EnbUeId,
}

/// The ids of an association that are known (TS 36.413 clause 9.2.3.18).
#[derive(Clone, Copy)]
pub enum UeS1apIds {
    Pair(UeIdPair),
    MmeUeId(MmeUeId),
}

/// The algorithms of a phone, the first bit for algorithm 1 (TS 36.413 clause 9.2.1.40).
#[derive(Clone, Copy)]
pub struct SecurityCapabilities {
    pub encryption: BitField<16>,
    pub integrity: BitField<16>,
}

/// The next hop of a chain of keys, and its place (TS 36.413 clause 9.2.1.26).
#[derive(Clone, Copy)]
pub struct SecurityContext {
    pub chaining_count: Whole<0, 7>,
    pub next_hop: SecurityKey,
}
