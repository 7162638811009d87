//! Vectors that are stored, and what stands for those that are spent.

ghost use Rattle.std.specs.Prelude.{◌≡◌, ◌+◌, ◌≤◌, ◌^◌, IfOk, IfSome, IfNone, length, map, false, true};
ghost use Rattle.emm_state.specs.Taking.{vectors_spent};
ghost use Rattle.std.specs.List.{list_all};
ghost use Rattle.mme_core.specs.Remembered.{husk, kasme_in};
ghost use Rattle.snapshot_formats.specs.Subscribers.{typed_saved_vector};
ghost use Rattle.snapshot_states.specs.Fit.{fits_vector};
ghost use Rattle.snapshot_states.specs.States.{named_vector};

use crate::saving::vectors_spent;
use emm_machine::Subscriber;
use emm_state::Context;
use identity_slots::{GivenKasme, Vector, Vectors, Xres};
use per_bits::Items;
use snapshot_formats::{GREATEST_LONG, SavedVector};
use std::alloc::{AllocError, Global};

/// The most vectors of a subscriber that are stored.
pub const MOST_VECTORS: usize = 65535;

// A vector that is stored; none where its expected response can't be.
fn vector_of(saved: &SavedVector) -> Option<Vector>
    ensures vector { IfSome result (λ v. v ≡ named_vector (typed_saved_vector saved.now)) }
    ensures fits { IfSome result (λ v. fits_vector (typed_saved_vector saved.now) ≡ true) }
    ensures unfit { IfNone result (fits_vector (typed_saved_vector saved.now) ≡ false) }
{
    let xres = Xres::try_new(saved.xres.octets)?;
    Some(Vector {
        rand: saved.rand.get(),
        autn: saved.autn.get(),
        xres,
        kasme: GivenKasme::new(*saved.kasme.octets),
    })
}

/// The vectors that aren't spent; none where the expected response of one can't be.
pub fn vectors_of(
    alloc: Global,
    saved: &Items<SavedVector, 0, 65535>,
) -> Result<Option<Vectors>, AllocError>
    ensures vectors { IfOk result (λ o. IfSome o (λ vs. vs ≡ map named_vector (map typed_saved_vector saved.now))) }
    ensures fits { IfOk result (λ o. IfSome o (λ vs. list_all fits_vector (map typed_saved_vector saved.now) ≡ true)) }
    ensures unfit { IfOk result (λ o. IfNone o (list_all fits_vector (map typed_saved_vector saved.now) ≡ false)) }
{
    let mut vectors = Vec::with_capacity(alloc, saved.len())?;
    for saved in saved.as_slice() {
        let Some(vector) = vector_of(saved) else {
            return Ok(None);
        };
        vectors.push(vector)?;
    }
    Ok(Some(Vectors::new(vectors)))
}

/// What stands for each vector that is spent, beside a context.
pub fn husk_of(context: &Option<Context>) -> Vector
    ensures { result ≡ husk (kasme_in context.now) }
{
    let kasme = match context {
        Some(context) => *context.kasme.octets(),
        None => [0; 32],
    };
    let Some(xres) = Xres::try_new(&[0; 16]) else {
        unreachable!();
    };
    Vector {
        rand: [0; 16],
        autn: [0; 16],
        xres,
        kasme: GivenKasme::new(kasme),
    }
}

/// How many vectors of a subscriber are spent; none where there are more than were given, or than are stored.
pub fn stored_spent(subscriber: &Subscriber) -> Option<usize>
    ensures spent { IfSome result (λ n. n ≡ vectors_spent subscriber.now.solo) }
    ensures there { IfSome result (λ n. n ≤ length subscriber.now.setting.vectors) }
    ensures few { IfSome result (λ n. n ≤ 2 ^ 62) }
{
    let spent = vectors_spent(subscriber.solo());
    if subscriber.spent() != spent || spent as u64 > GREATEST_LONG {
        return None;
    }
    Some(spent)
}

/// How many vectors a subscriber has after those that are spent; none where there are more than are stored.
pub fn stored_unspent(subscriber: &Subscriber, spent: usize) -> Option<usize>
    requires asked { vectors_spent subscriber.now.solo ≤ spent }
    requires there { spent ≤ length subscriber.now.setting.vectors }
    requires few { spent ≤ 2 ^ 62 }
    ensures all { IfSome result (λ n. spent + n ≡ length subscriber.now.setting.vectors) }
    ensures few { IfSome result (λ n. n ≤ 65535) }
{
    for unspent in 0..=MOST_VECTORS {
        if subscriber.vector(spent + unspent).is_none() {
            return Some(unspent);
        }
    }
    None
}
