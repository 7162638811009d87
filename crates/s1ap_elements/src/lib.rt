//! The elements of S1AP messages (TS 36.413 clause 9.2): values, and their spellings in aligned PER.
#![tactic(auto)]

// A value of an alternative of a CHOICE, where it could be read.
macro_rules! read_choice {
    ($choice:ident::$alternative:ident, $value:expr) => {
        match $value {
            Ok(value) => Ok($choice::$alternative(value)),
            Err(error) => Err(error),
        }
    };
}

mod bearer;
mod bearer_element;
mod container;
mod identity;
pub mod ids;
mod phone;
mod phone_element;
mod reset;
mod reset_element;
mod station;
mod station_element;
mod text;

pub use bearer::{
    Ambr, Arp, ErabSetupItem, ErabToBeSetup, ErabToBeSetupItem, ErabToBeSwitchedItem, ErabTunnel,
    ErabsSetup, ErabsToBeSetup, ErabsToBeSwitched, Gbr, Qos,
};
pub use container::{IGNORE, Listed, REJECT};
pub use identity::{
    Address, BitRate, CellId, EnbUeId, ErabId, MTmsi, MmeCode, MmeGroup, MmeUeId, Plmn,
    RelativeCapacity, SecurityKey, Tac, Teid, UeIndex,
};
pub use per_bits::{BitField, Items, Octets, Whole};
pub use phone::{
    CnDomain, EutranCgi, RrcCause, STmsi, SecurityCapabilities, SecurityContext, Tai, TaiItem,
    TaiList, UeIdPair, UePagingId, UeS1apIds,
};
pub use reset::{
    AssociationReset, AssociationToReset, AssociationsReset, AssociationsToReset,
    ListedAssociation, ResetAll, ResetType,
};
pub use s1ap_causes::{
    Cause, MiscCause, NasCause, ProtocolCause, RadioNetworkCause, TransportCause,
};
pub use station::{
    EnbId, GlobalEnbId, PagingDrx, ServedGummei, ServedGummeis, SupportedTa, SupportedTas,
};
pub use text::{Name, name_of_octets, octets_of_name};
