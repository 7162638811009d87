//! A tick that ends nobody's countdown.

ghost use Rattle.std.specs.Prelude.{◌≡◌, ◌+◌, ◌<◌, ◌^◌, ◌++◌, []};
ghost use Rattle.mme_types.specs.Events as items;
ghost use Rattle.mme_owners.specs.Owners.{NobodyIsDue};
ghost use Rattle.mme_routing.specs.Destinations.{for_all};
ghost use Rattle.stranger_machine.specs.declared.turn.Notice.TheVariants as notices;
ghost use Rattle.stranger_machine.specs.Table.{noted};
ghost use Rattle.mme_owners.specs.Subscribers.{each_after};
ghost use Rattle.mme_answering.specs.Sending.{each_known, each_sent};

use mme_owners::Owners;

/// One tick that ends nobody's countdown: it is so at once, with nothing prepared and nothing sent. Nobody is touched; takes no
/// memory.
pub fn pass(owners: &mut Owners)
    requires clock { owners.old.clock < 2 ^ 62 }
    requires nobody { NobodyIsDue owners.old.strangers owners.old.subscribers }
    ensures clock { owners.new.clock ≡ owners.old.clock + 1 }
    ensures silent { each_known notices.Tick owners.old.strangers ++ each_sent (for_all items.Tick) 0 owners.old.subscribers ≡ [] }
    ensures strangers { owners.new.strangers ≡ noted notices.Tick owners.old.strangers }
    ensures subscribers { owners.new.subscribers ≡ each_after (for_all items.Tick) 0 owners.old.subscribers }
{
    owners.pass();
}
