//! A stranger that isn't closed, as contracts see it, and as it is lent.

use crate::state::Stranger;
use identity_slots::AssociationId;

/// A stranger that isn't closed, by its id, as contracts see it: 2^31, and its station and its eNB UE S1AP ID.
#[derive(Drop)]
pub struct Known {
    pub id: AssociationId,
    pub stranger: Stranger,
}

/// A stranger that isn't closed, lent as it was before some ticks that didn't end its T3470.
#[derive(Clone, Copy)]
pub struct LentStranger<'a> {
    pub stranger: &'a Stranger,
    /// How many ticks they were.
    pub slept: u64,
}
