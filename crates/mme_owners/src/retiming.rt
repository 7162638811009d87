//! The countdowns of those who were prepared, and of those whom a tick has ended.

ghost use Rattle.std.specs.Prelude.{◌≡◌, ◌+◌, ◌*◌, ◌≤◌, length};
ghost use Rattle.sorted_list.specs.Ordered.{Every};
ghost use Rattle.mme_tables.specs.Waiting.{restarted, AreWaits};
ghost use Rattle.mme_owners.specs.Subscribers.{IsCounting};
ghost use Rattle.mme_owners.specs.Owners.{all_retimed};

use crate::stepped::Stepped;
use identity_slots::AssociationId;
use mme_tables::{Strangers, change_wait, retime_found};
use timer_queue::Timers;

/// The countdowns of slots are those that were prepared, where those that they have are looked up; takes no memory.
pub(crate) fn retime_all(timers: &mut Timers, stepped: &[Stepped])
    requires counting { Every (λ x. IsCounting x.solo) stepped.now }
    requires room { 2 * length stepped.now ≤ timers.old.room }
    ensures clock { timers.new.clock ≡ timers.old.clock }
    ensures running { timers.new.running ≡ all_retimed stepped.now timers.old.running }
{
    for one in stepped {
        let slot = one.slot();
        retime_found(timers, slot.get(), one.countdowns());
    }
}

/// T3470 runs again of those strangers whose T3470 a tick has ended, where they wait again; takes no memory.
pub(crate) fn restart(timers: &mut Timers, strangers: &Strangers, due: &[AssociationId])
    requires waits { AreWaits strangers.now.strangers }
    requires room { length due.now ≤ timers.old.room }
    ensures clock { timers.new.clock ≡ timers.old.clock }
    ensures running { timers.new.running ≡ restarted due.now strangers.now.strangers timers.old.running }
    ensures room { timers.old.room ≤ timers.new.room + length due.now }
{
    for id in due {
        let left = strangers.left(*id);
        change_wait(timers, *id, None, left);
    }
}
