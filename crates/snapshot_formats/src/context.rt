//! Where a phone is connected, its security context, and its keys for the radio.

use crate::key::LentKey;
use crate::numbers::{Long, NasCount, StationIndex};
use per_bits::Whole;
use s1ap_elements::{EnbUeId, MmeUeId, SecurityKey};

/// Where a phone is connected.
#[derive(Clone, Copy)]
pub struct SavedConnection {
    pub id: MmeUeId,
    pub station: StationIndex,
    pub enb_ue_id: EnbUeId,
}

/// Keys for the radio as they are (TS 33.401 clause 7.2.8.1).
#[derive(Clone, Copy)]
pub struct SavedKeys {
    pub kenb: SecurityKey,
    /// The next hop that a station was told last, if one was told.
    pub next_hop: Option<SecurityKey>,
    pub chaining_count: Whole<0, 7>,
}

/// How keys for the radio come of KASME (TS 33.401 clauses A.3 and A.4).
#[derive(Clone, Copy)]
pub struct SavedTrail {
    /// The uplink NAS COUNT that KeNB was derived of.
    pub count: NasCount,
    /// How many path switches followed, each of which took the next hop of the chain.
    pub moves: Long,
}

/// Keys for the radio.
#[derive(Clone, Copy)]
pub enum SavedRadio {
    Verbatim(SavedKeys),
    Derived(SavedTrail),
}

/// A security context (TS 24.301 clause 4.4.2), without the keys that come of KASME, which is lent.
#[derive(Clone, Copy)]
pub struct SavedContext<'a> {
    /// Which vector it was made of, in the order in which they were given, from 0.
    pub place: Long,
    /// The next downlink NAS COUNT.
    pub down_next: NasCount,
    /// The last uplink NAS COUNT that was accepted, if one was.
    pub up_last: Option<NasCount>,
    pub kasme: LentKey<'a>,
    pub radio: SavedRadio,
}
