//! Slots in their order, each once: those that are paged, and those that are gathered.

ghost use Rattle.std.specs.Prelude.{◌≡◌, ◌+◌, ◌<◌, ◌≤◌, ◌==◌, Bool, ℕ, [], IfOk, OnOk, is_some, map, true, if◌then◌else◌};
ghost use Rattle.std.specs.List.{list_any};
ghost use Rattle.sorted_list.specs.Ordered.{at};
ghost use Rattle.mme_tables.specs.KeptPlaces.{slot_rank, is_held, Gathers, Holds};

use association_table::{Association, AssociationOwner};
use identity_slots::Slot;
use sorted_list::{Keyed, SortedList};
use std::alloc::{AllocError, Global};

/// A slot among others, which stand by rising slot.
#[derive(Clone, Copy)]
pub(crate) struct OrderedSlot {
    pub(crate) slot: Slot,
}

impl Keyed for OrderedSlot {
    ghost rank = { slot_rank };

    fn key(&self) -> u128 {
        u128::from(self.slot.get())
    }
}

/// Puts a slot among those that were gathered, once.
fn gather(slot: Slot, gathered: &mut SortedList<OrderedSlot>) -> Result<(), AllocError>
    ensures { OnOk result (Gathers (λ i. slot == i) gathered.old.items gathered.new.items) }
{
    if gathered.find(u128::from(slot.get())).is_some() {
        return Ok(());
    }
    gathered.insert(OrderedSlot { slot })
}

/// Gathers the slot of an association, if a slot has it.
fn gather_owner(
    association: &Association,
    gathered: &mut SortedList<OrderedSlot>,
) -> Result<(), AllocError>
    ensures { OnOk result (Gathers (λ i. is_held i association.now) gathered.old.items gathered.new.items) }
{
    match association.owner {
        AssociationOwner::Stranger => Ok(()),
        AssociationOwner::Subscriber(number) => match Slot::try_new(number) {
            Some(slot) => gather(slot, gathered),
            None => Ok(()),
        },
    }
}

/// Gathers the slots that have these associations.
pub(crate) fn gather_owners(
    associations: &[Association],
    gathered: &mut SortedList<OrderedSlot>,
) -> Result<(), AllocError>
    ensures { OnOk result (Gathers (λ i. list_any (is_held i) associations.now) gathered.old.items gathered.new.items) }
{
    for place in 0..associations.len() {
        gather_owner(&associations[place], gathered)?;
    }
    Ok(())
}

/// Whether there are no associations, and no slots.
pub(crate) fn is_nobody(associations: &[Association], slots: &SortedList<OrderedSlot>) -> bool
    ensures { result ≡ true → (associations.now ≡ []) × (slots.now.items ≡ []) }
{
    associations.is_empty() && slots.is_empty()
}

/// The slots that were gathered, by rising slot.
pub(crate) fn slots_of(
    alloc: Global,
    gathered: &SortedList<OrderedSlot>,
) -> Result<Vec<Slot>, AllocError>
    ensures { IfOk result (λ s. s.items ≡ map slot_rank gathered.now.items) }
{
    let items = gathered.items(alloc)?;
    items.iter().map(|one| one.slot).collect(alloc)
}

/// A slot is among others from now on, or no longer, where it is known whether it was. Takes no memory.
pub(crate) fn list_slot(slots: &mut SortedList<OrderedSlot>, slot: Slot, was: bool, is: bool)
    requires known { is_some (at slot_rank slot slots.old.items) ≡ was }
    requires room { 0 < slots.old.room }
    ensures items { (before : ℕ → Bool) → Holds before slots.old.items
        → Holds (λ i. if slot == i then is else before i) slots.new.items }
    ensures room { slots.old.room ≤ slots.new.room + 1 }
{
    if was {
        if !is {
            slots.take(u128::from(slot.get()));
        }
        return;
    }
    if is {
        slots.insert_reserved(OrderedSlot { slot });
    }
}
