//! What RESET resets: the whole interface, or associations by their ids.

use crate::container::{IGNORE, Listed, REJECT};
use crate::identity::{EnbUeId, MmeUeId};
use crate::ids::UE_ASSOCIATED_LOGICAL_S1_CONNECTION_ITEM;
use per_bits::Items;

/// The whole interface is reset (TS 36.413 clause 9.1.8.1).
#[derive(Clone, Copy, Debug)]
pub enum ResetAll {
    ResetAll,
    /// A value of a later release.
    Extended(u64),
}

/// An association by those of its ids that are given (TS 36.413 clauses 9.1.8.1 and 9.1.8.2).
#[derive(Clone, Copy)]
pub struct ListedAssociation {
    pub mme_ue_id: Option<MmeUeId>,
    pub enb_ue_id: Option<EnbUeId>,
}

/// An element of the associations that are to be reset (UE-associatedLogicalS1-ConnectionItemRes, TS 36.413 clause 9.1.8.1).
pub type AssociationToReset = Listed<
    ListedAssociation,
    UE_ASSOCIATED_LOGICAL_S1_CONNECTION_ITEM,
    REJECT,
>;

/// Associations that are to be reset (TS 36.413 clause 9.1.8.1).
pub type AssociationsToReset = Items<AssociationToReset, 1, 256>;

/// An element of the associations that were reset (UE-associatedLogicalS1-ConnectionItemResAck, TS 36.413 clause 9.1.8.2).
pub type AssociationReset = Listed<
    ListedAssociation,
    UE_ASSOCIATED_LOGICAL_S1_CONNECTION_ITEM,
    IGNORE,
>;

/// Associations that were reset (TS 36.413 clause 9.1.8.2).
pub type AssociationsReset = Items<AssociationReset, 1, 256>;

/// What is reset (TS 36.413 clause 9.1.8.1).
#[derive(Drop)]
pub enum ResetType {
    /// The whole interface.
    All(ResetAll),
    /// These associations alone.
    Part(AssociationsToReset),
}
