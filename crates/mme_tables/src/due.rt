//! Who is due at the next tick: strangers by their ids, subscribers by their slots.

ghost use Rattle.std.specs.Prelude.{◌≡◌, Some, None, IfOk, if◌then◌else◌};
ghost use Rattle.timer_queue.specs.Countdowns.{due_of};
ghost use Rattle.mme_tables.specs.Running.{is_this};
ghost use Rattle.mme_tables.specs.Due.{id_of, ids_of, is_past, owner_slot, slots_once, AreOfOwners, IsOfOwner};

use identity_slots::{AssociationId, Slot};
use std::alloc::{AllocError, Global};
use timer_queue::{Expiry, TimerOwner, Timers};

/// Who has a countdown that the next tick ends.
#[derive(Drop)]
pub struct Due {
    /// The strangers, by rising id.
    pub strangers: Vec<AssociationId>,
    /// The subscribers, by rising slot.
    pub slots: Vec<Slot>,
}

// The stranger whose timer it is, if it is one's.
fn id_of(owner: TimerOwner) -> Option<AssociationId>
    requires { IsOfOwner owner }
    ensures { result ≡ id_of owner }
{
    match owner {
        TimerOwner::Stranger { station, enb_ue_id } => {
            Some(AssociationId::of_stranger(station, enb_ue_id))
        }
        TimerOwner::Subscriber(_) => None,
    }
}

// Whether a slot was the last.
fn is_last(slot: u32, last: Option<u32>) -> bool
    ensures { result ≡ is_this slot last }
{
    match last {
        Some(last) => last == slot,
        None => false,
    }
}

// The slot whose timer it is, unless it is a stranger's or the slot was the last.
fn next_slot(owner: TimerOwner, last: Option<u32>) -> Option<Slot>
    requires { IsOfOwner owner }
    ensures { result ≡ (if is_past owner last then None else Some (owner_slot owner)) }
{
    match owner {
        TimerOwner::Subscriber(slot) if !is_last(slot, last) => Some(Slot::new(slot)),
        TimerOwner::Subscriber(_) | TimerOwner::Stranger { .. } => None,
    }
}

// The strangers of timers that stand in order.
fn ids_of(alloc: Global, timers: &[Expiry]) -> Result<Vec<AssociationId>, AllocError>
    requires { AreOfOwners timers.now }
    ensures { IfOk result (λ due. due.items ≡ ids_of timers.now) }
{
    let mut due = Vec::new(alloc);
    for timer in timers {
        if let Some(id) = id_of(timer.owner) {
            due.push(id)?;
        }
    }
    Ok(due)
}

// The slots of timers that stand in order, each once.
fn slots_of(alloc: Global, timers: &[Expiry]) -> Result<Vec<Slot>, AllocError>
    requires { AreOfOwners timers.now }
    ensures { IfOk result (λ due. due.items ≡ slots_once None timers.now) }
{
    let mut due = Vec::new(alloc);
    let mut last: Option<u32> = None;
    for timer in timers {
        if let Some(slot) = next_slot(timer.owner, last) {
            due.push(slot)?;
            last = Some(slot.get());
        }
    }
    Ok(due)
}

/// Who has a countdown that the next tick ends. Only the front of the queue is looked at.
pub fn find_due(alloc: Global, timers: &Timers) -> Result<Due, AllocError>
    requires { AreOfOwners (due_of timers.now.running) }
    ensures strangers { IfOk result (λ due. due.strangers.items ≡ ids_of (due_of timers.now.running)) }
    ensures slots { IfOk result (λ due. due.slots.items ≡ slots_once None (due_of timers.now.running)) }
{
    let expiries = timers.due()?;
    let ended = expiries.as_slice();
    Ok(Due {
        strangers: ids_of(alloc, ended)?,
        slots: slots_of(alloc, ended)?,
    })
}
