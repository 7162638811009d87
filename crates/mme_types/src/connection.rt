//! Where a phone is connected, and its keys for the radio.

ghost use Rattle.std.specs.Prelude.{◌≡◌};

use eps_keys::{Kenb, NextHop};
use identity_slots::{AssociationId, StationNumber};
use s1ap_pdus::elements::EnbUeId;

/// Where the phone is connected: the association, its station and its eNB UE S1AP ID.
#[derive(Clone, Copy)]
pub struct Connection {
    pub id: AssociationId,
    pub station: StationNumber,
    pub enb_ue_id: EnbUeId,
}

/// The keys for the radio (TS 33.401 clause 7.2.8.1).
#[derive(Drop)]
pub struct RadioKeys {
    pub kenb: Kenb,
    /// The next hop that a station was told last; none before the first path switch, when that of KeNB stands, the first of the
    /// chain, which no station is told (clause A.4).
    pub next_hop: Option<NextHop>,
    /// The next hop chaining count, 0 to 7.
    pub chaining_count: u8,
}

impl RadioKeys {
    /// The same once more, for a copy of the context.
    pub fn copy(&self) -> RadioKeys
        ensures { result ≡ self.now }
    {
        let next_hop = match &self.next_hop {
            Some(hop) => Some(hop.copy()),
            None => None,
        };
        RadioKeys {
            kenb: self.kenb.copy(),
            next_hop,
            chaining_count: self.chaining_count,
        }
    }
}
