//! What never changes of a station.

use identity_slots::StationNumber;
use per_bits::BitField;
use s1ap_elements::{Plmn, Tac};

/// What never changes of a station: its number here, its network, its number in the network, and its one tracking area.
#[derive(Clone, Copy)]
pub struct StationProfile {
    pub number: StationNumber,
    /// The network in the form of S1AP.
    pub plmn: Plmn,
    /// The Macro eNB ID (TS 36.413 clause 9.2.1.37).
    pub macro_id: BitField<20>,
    pub tac: Tac,
}
