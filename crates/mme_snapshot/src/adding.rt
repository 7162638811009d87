//! Strangers and subscribers as a snapshot has them, added to the others.

ghost use Rattle.std.specs.Prelude.{◌≡◌, ◌≢◌, ◌<◌, ◌≤◌, ◌++◌, ◌∷◌, [], length, true, false, Some, IfErr, IfNone, IfOk, IfSome, OnOk};
ghost use Rattle.identity_slots.specs.Ids.{enb_ue_ids, slots};
ghost use Rattle.emm_machine.specs.Words.{fresh_solo};
ghost use Rattle.emm_state.specs.Taking.{vectors_spent};
ghost use Rattle.mme_core.specs.Remembered.{husk, kasme_in};
ghost use Rattle.mme_owners.specs.Placed.{AreApart};
ghost use Rattle.mme_owners.specs.Subscribers.{IsCounting};
ghost use Rattle.snapshot_formats.specs.Subscribers.{typed_saved_subscriber};
ghost use Rattle.laws_apart.specs.Apart.{IdsApart};
ghost use Rattle.sorted_list.specs.Ordered.{put};
ghost use Rattle.stranger_machine.specs.Table.{known_id};
ghost use Rattle.snapshot_formats.specs.Heads.{typed_saved_stranger};
ghost use Rattle.mme_snapshot.specs.declared.fault.RestoreFault.TheVariants.{NoMemory, Stranger};
ghost use Rattle.mme_snapshot.specs.Images.{fits_stranger, fits_subscriber, is_placed, known_of, setting_of, solo_of, spent_of, subscriber_of};
ghost use Rattle.mme_snapshot.specs.Restored.{refusal_of};

use crate::fault::RestoreFault;
use crate::parts::{is_placed, is_timed, stranger_of};
use emm_machine::Subscriber;
use emm_state::Draft;
use identity_slots::{AssociationId, KeptVectors, Profile, Slot};
use laws_apart::no_two_share_an_id;
use laws_subscriber::clocks_are_kept;
use mme_owners::{Owners, Stepped};
use mme_types::SharedNetwork;
use snapshot_formats::{SavedStranger, SavedSubscriber};
use snapshot_states::{husk_of, restored_state, states_that_fit, vectors_of};
use std::alloc::{AllocError, Global};
use stranger_machine::After;

// A subscriber of this slot and profile at rest, and the state that is stored, in a box; none where its state or a vector can't be.
fn prepare(
    alloc: Global,
    shared: &SharedNetwork,
    slot: Slot,
    profile: &Profile,
    saved: &SavedSubscriber,
) -> Result<Option<(Subscriber, Box<Draft>)>, AllocError>
    ensures fits { IfOk result (λ o. IfSome o (λ p. fits_subscriber (typed_saved_subscriber saved.now) ≡ true)) }
    ensures unfit { IfOk result (λ o. IfNone o (fits_subscriber (typed_saved_subscriber saved.now) ≡ false)) }
    ensures subscriber { IfOk result (λ o. IfSome o (λ p. p.0 ≡ record {
      setting = setting_of shared.now slot profile.now (typed_saved_subscriber saved.now);
      solo = record fresh_solo { next_vector = spent_of (typed_saved_subscriber saved.now) };
    })) }
    ensures state { IfOk result (λ o. IfSome o (λ p. p.1.value.solo ≡ solo_of (typed_saved_subscriber saved.now))) }
{
    let Some(vectors) = vectors_of(alloc, &saved.vectors)? else {
        return Ok(None);
    };
    let spent = saved.spent.get();
    let Some(solo) = restored_state(alloc, spent, saved.vectors.len(), &saved.state)? else {
        return Ok(None);
    };
    let husk = husk_of(&solo.context);
    let vectors = KeptVectors::resumed(spent as usize, &husk, vectors);
    let subscriber = Subscriber::at_rest(alloc, shared, slot, profile, vectors)?;
    Ok(Some((subscriber, Draft::of(alloc, solo)?)))
}

// The subscriber has the next slot and the state of the box, where nobody has another's id. Refused (memory), don't use the owners.
fn settle(
    owners: &mut Owners,
    slot: Slot,
    subscriber: Subscriber,
    draft: Box<Draft>,
) -> Result<(), AllocError>
    requires next { slot ≡ length owners.old.subscribers }
    requires rest { subscriber.solo ≡ record fresh_solo { next_vector = vectors_spent draft.value.solo } }
    requires apart { AreApart owners.old.strangers
        (owners.old.subscribers ++ record { setting = subscriber.setting; solo = draft.value.solo } ∷ []) }
    requires counting { IsCounting draft.value.solo }
    ensures clock { owners.new.clock ≡ owners.old.clock }
    ensures strangers { owners.new.strangers ≡ owners.old.strangers }
    ensures subscribers { OnOk result (owners.new.subscribers
        ≡ owners.old.subscribers ++ record { setting = subscriber.setting; solo = draft.value.solo } ∷ []) }
{
    // (that there is a slot for it)
    let _ = slot.get();
    owners.push(subscriber)?;
    owners.reserve(0, 1)?;
    owners.settle(Stepped::new(slot, draft));
    Ok(())
}

/// One stranger more, where it fits, after all others. Else Stranger, or NoMemory.
pub(crate) fn add_stranger(
    alloc: Global,
    owners: &mut Owners,
    saved: &SavedStranger,
) -> Result<(), RestoreFault>
    requires { owners.old.subscribers ≡ [] }
    ensures clock { owners.new.clock ≡ owners.old.clock }
    ensures fits { OnOk result (fits_stranger owners.old.strangers (typed_saved_stranger saved.now) ≡ true) }
    ensures strangers { OnOk result
        (owners.new.strangers ≡ put known_id (known_of (typed_saved_stranger saved.now)) owners.old.strangers) }
    ensures subscribers { OnOk result (owners.new.subscribers ≡ owners.old.subscribers) }
    ensures unfit { IfErr result (λ fault. fault ≢ NoMemory
        → (fits_stranger owners.old.strangers (typed_saved_stranger saved.now) ≡ false) × (fault ≡ Stranger saved.now.id)) }
{
    let id = AssociationId::new(saved.id.get() as u32);
    let least = u64::from(id.get());
    if id.is_of_slot() || owners.records.strangers.first_from(least).is_some() {
        return Err(RestoreFault::Stranger(id));
    }
    let Ok(stranger) = stranger_of(alloc, id, &saved.state) else {
        return Err(RestoreFault::NoMemory);
    };
    if !is_timed(&stranger) {
        return Err(RestoreFault::Stranger(id));
    }
    if owners.reserve(3, 0).is_err() {
        return Err(RestoreFault::NoMemory);
    }
    match owners.settle_turn(id, After::Is(stranger), None) {
        Ok(()) => Ok(()),
        Err(AllocError) => Err(RestoreFault::NoMemory),
    }
}

/// One subscriber more, on the next slot, in a state that fits. Else Subscriber, Id or NoMemory, and the owners are of no use.
pub(crate) fn add_subscriber(
    shared: &SharedNetwork,
    owners: &mut Owners,
    slot: Slot,
    profile: &Profile,
    saved: &SavedSubscriber,
    alloc: Global,
) -> Result<(), RestoreFault>
    requires next { slot ≡ length owners.old.subscribers }
    requires apart { IdsApart owners.old.strangers owners.old.subscribers }
    ensures clock { owners.new.clock ≡ owners.old.clock }
    ensures strangers { owners.new.strangers ≡ owners.old.strangers }
    ensures fits { OnOk result (fits_subscriber (typed_saved_subscriber saved.now) ≡ true) }
    ensures placed { OnOk result
        (is_placed owners.old.strangers slot (solo_of (typed_saved_subscriber saved.now)).connection ≡ true) }
    ensures numbered { OnOk result
        (IfSome (solo_of (typed_saved_subscriber saved.now)).connection (λ k. k.enb_ue_id < enb_ue_ids)) }
    ensures apart { OnOk result (IdsApart owners.new.strangers owners.new.subscribers) }
    ensures subscribers { OnOk result (owners.new.subscribers
        ≡ owners.old.subscribers ++ subscriber_of shared.now slot profile.now (typed_saved_subscriber saved.now) ∷ []) }
    ensures refused { IfErr result (λ fault. fault ≢ NoMemory
        → refusal_of owners.old.strangers slot (typed_saved_subscriber saved.now) ≡ Some fault) }
{
    states_that_fit();
    clocks_are_kept();
    no_two_share_an_id();
    let (subscriber, draft) = match prepare(alloc, shared, slot, profile, saved) {
        Ok(Some(prepared)) => prepared,
        Ok(None) => return Err(RestoreFault::Subscriber(slot)),
        Err(AllocError) => return Err(RestoreFault::NoMemory),
    };
    if !is_placed(&owners.records.strangers, slot, draft.solo.connection) {
        return Err(RestoreFault::Id(slot));
    }
    match settle(owners, slot, subscriber, draft) {
        Ok(()) => Ok(()),
        Err(AllocError) => Err(RestoreFault::NoMemory),
    }
}
