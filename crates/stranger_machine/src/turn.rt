//! What one stranger does at an event.

use crate::state::Stranger;
use identity_slots::Slot;
use mme_types::{Answers, SoloEvent, StationNumber};
use s1ap_elements::AssociationsToReset;

/// What comes to all strangers.
#[derive(Drop)]
pub enum Notice {
    /// A second has passed.
    Tick,
    /// A station was lost, set up anew or reset as a whole.
    Gone(StationNumber),
    /// A station reset a list of associations (TS 36.413 clause 8.7.1.2.2).
    Listed(StationNumber, AssociationsToReset),
}

/// What a stranger is from now on.
#[derive(Drop)]
pub enum After {
    /// What it was.
    Stays,
    Closed,
    Is(Stranger),
}

/// A subscriber that a stranger calls, and with what.
#[derive(Drop)]
pub struct Call<'a> {
    pub slot: Slot,
    pub event: SoloEvent<'a>,
}

/// What a stranger is after an event, what it sends, and whom it calls.
#[derive(Drop)]
pub struct Turn<'a> {
    pub after: After,
    pub sent: Answers,
    pub call: Option<Call<'a>>,
}
