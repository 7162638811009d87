//! Which stored states are taken.

ghost use Rattle.std.specs.Prelude.{◌≡◌, ◌^◌, ◌≤◌, false, true, IfNone, IfOk, IfSome};
ghost use Rattle.snapshot_formats.specs.Contexts.{typed_saved_context, typed_saved_radio};
ghost use Rattle.snapshot_formats.specs.Subscribers.{typed_saved_asked, typed_saved_link, typed_saved_state};
ghost use Rattle.snapshot_states.specs.Fit.{fits, fits_asked, fits_context, fits_link, is_derived, is_spent, is_within};
ghost use Rattle.snapshot_states.specs.States.{named_state};
ghost use Rattle.std.specs.Prelude.{option_map};

use crate::fit::is_state;
use crate::numbers::phase_of;
use crate::restoring::state_of;
use crate::saving::Clocks;
use emm_state::{Phase, Solo};
use snapshot_formats::{NasCount, SavedAsked, SavedContext, SavedLink, SavedRadio, SavedState};
use std::alloc::{AllocError, Global};

// Whether keys for the radio come of KASME and of a count up to the last that was accepted.
fn is_derived(up_last: Option<NasCount>, radio: &SavedRadio) -> bool
    ensures { result ≡ is_derived up_last (typed_saved_radio radio.now) }
{
    match (radio, up_last) {
        (SavedRadio::Derived(trail), Some(last)) => trail.count.get() <= last.get(),
        (SavedRadio::Derived(_), None) | (SavedRadio::Verbatim(_), _) => false,
    }
}

// Whether the context is that of a phase.
fn fits_context(phase: Phase, context: &Option<SavedContext>) -> bool
    ensures { result ≡ fits_context phase (option_map typed_saved_context context.now) }
{
    match (phase, context) {
        (Phase::Deregistered | Phase::Authenticating, _) => context.is_none(),
        (Phase::SecurityMode, _) => context.is_some(),
        (_, Some(context)) => is_derived(context.up_last, &context.radio),
        (_, None) => false,
    }
}

// Whether the context's vector is spent.
fn is_spent(spent: u64, context: &Option<SavedContext>) -> bool
    ensures { result ≡ is_spent spent (option_map typed_saved_context context.now) }
{
    match context {
        Some(context) => context.place.get() < spent,
        None => true,
    }
}

pub(crate) fn fits_link(spent: u64, link: &SavedLink) -> bool
    ensures { result ≡ fits_link spent (typed_saved_link link.now) }
{
    fits_context(phase_of(link.phase), &link.context) && is_spent(spent, &link.context)
}

// Whether there are so many octets.
pub(crate) fn is_within(least: usize, most: usize, octets: &[u8]) -> bool
    ensures { result ≡ is_within least most octets.now }
{
    least <= octets.len() && octets.len() <= most
}

pub(crate) fn fits_asked(asked: &SavedAsked) -> bool
    ensures { result ≡ fits_asked (typed_saved_asked asked.now) }
{
    is_within(2, 13, asked.capability.octets)
}

/// The state that is stored of a phone of which `spent` vectors are spent and `unspent` aren't; none where no phone can be in it.
#[tactic(auto, unfolding(crate::specs::Fit::fits))]
pub fn restored_state(
    alloc: Global,
    spent: u64,
    unspent: usize,
    saved: &SavedState,
) -> Result<Option<Solo>, AllocError>
    requires { spent ≤ 2 ^ 62 }
    ensures fits { IfOk result (λ o. IfSome o (λ s. fits spent unspent (typed_saved_state saved.now) ≡ true)) }
    ensures state { IfOk result (λ o. IfSome o (λ s. s ≡ named_state spent (typed_saved_state saved.now))) }
    ensures unfit { IfOk result (λ o. IfNone o (fits spent unspent (typed_saved_state saved.now) ≡ false)) }
{
    if !fits_link(spent, &saved.link) {
        return Ok(None);
    }
    if !fits_asked(&saved.asked) {
        return Ok(None);
    }
    let solo = state_of(alloc, spent as usize, saved)?;
    if is_state(&solo, Clocks::of(&solo), unspent) {
        Ok(Some(solo))
    } else {
        Ok(None)
    }
}
