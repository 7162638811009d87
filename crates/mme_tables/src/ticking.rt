//! A tick, for those alone whose T3470 it ends.

ghost use Rattle.std.specs.Prelude.{◌≡◌};
ghost use Rattle.mme_tables.specs.Ended.{all_ended, met_ids, AreAround};
ghost use Rattle.mme_tables.specs.StrangerRows.{AreRows, AreSleeping};

use crate::sleeping::Sleepers;
use identity_slots::AssociationId;

/// Those take the tick at the clock `next` whose T3470 it ends. Only those are touched. Takes no memory.
pub(crate) fn tick_all(sleepers: &mut Sleepers, due: &[AssociationId], next: u64)
    requires rows { AreRows sleepers.old }
    requires around { AreAround next sleepers.old }
    requires due { due.now ≡ met_ids next sleepers.old }
    ensures ended { sleepers.new ≡ all_ended next sleepers.old }
    ensures rows { AreRows sleepers.new }
    ensures sleeping { AreSleeping next sleepers.new }
{
    for id in due {
        sleepers.end(*id, next);
        sleepers.are_rows();
    }
}
