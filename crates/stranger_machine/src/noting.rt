//! What a stranger does at a notice.

ghost use Rattle.std.specs.Prelude.{◌≡◌, ℕ, IfOk, Some};
ghost use Rattle.identity_slots.specs.Ids.{number_in};
ghost use Rattle.stranger_machine.specs.Lent.{lent_now};
ghost use Rattle.stranger_machine.specs.Machine.{is_meant, notes};
ghost use Rattle.stranger_machine.specs.Table.{passed, stays_open};
ghost use Rattle.stranger_machine.specs.Ticks.{stranger_aged};

use crate::sending::{identity_asked, released};
use crate::state::Stranger;
use crate::table::LentStranger;
use crate::turn::Notice;
use identity_slots::{AssociationId, number_in, station_in};
use mme_types::{Answers, StationNumber, is_listed};
use nas_messages::timers;
use s1ap_elements::{AssociationsToReset, Cause, EnbUeId, NasCause};
use std::alloc::{AllocError, Global};

// The eNB UE S1AP ID that a stranger's id is made of.
fn own_enb_ue_id(id: AssociationId) -> EnbUeId
    ensures { result ≡ number_in id }
{
    EnbUeId::new(u64::from(number_in(id)))
}

// Whether a list in a RESET of a station means the stranger with this id (TS 36.413 clause 8.7.1.2.2).
fn is_meant(id: AssociationId, station: StationNumber, items: &AssociationsToReset) -> bool
    ensures { result ≡ is_meant id station items.now }
{
    station_in(id) == station.get() && is_listed(id, own_enb_ue_id(id), items.as_slice())
}

impl LentStranger<'_> {
    /// What the stranger sends at a notice: at a tick that ends T3470 the request once more, at the last one the release.
    #[tactic(auto, unfolding(crate::specs::Machine::notes, crate::specs::Machine::ticks, crate::specs::Machine::waits, crate::specs::Machine::loses))]
    pub fn sends(
        &self,
        alloc: Global,
        id: AssociationId,
        notice: &Notice,
    ) -> Result<Answers, AllocError>
        ensures { IfOk result (λ sent. sent ≡ (notes id (Some (lent_now self.now)) notice.now).sent) }
    {
        match (notice, self.stranger) {
            (
                Notice::Tick,
                Stranger::Waiting {
                    kept,
                    left,
                    repeats,
                },
            ) => {
                if u64::from(*left).saturating_sub(self.slept) > 1 {
                    Ok(Answers::new(alloc))
                } else if *repeats > 0 {
                    identity_asked(alloc, kept.place(id))
                } else {
                    released(alloc, kept.place(id), Cause::Nas(NasCause::Unspecified))
                }
            }
            (Notice::Tick, Stranger::Held(_)) => Ok(Answers::new(alloc)),
            (Notice::Gone(_), _) => Ok(Answers::new(alloc)),
            (Notice::Listed(_, _), _) => Ok(Answers::new(alloc)),
        }
    }
}

impl Stranger {
    /// Whether a notice leaves it open: a station that goes closes its strangers, and a RESET of a part those that an item means,
    /// held ones too.
    #[tactic(auto, unfolding(crate::specs::Machine::notes, crate::specs::Machine::ticks, crate::specs::Machine::waits, crate::specs::Machine::loses))]
    pub fn stays_open(&self, id: AssociationId, notice: &Notice) -> bool
        ensures { result ≡ stays_open notice.now (record { id = id; stranger = self.now }) }
    {
        match (notice, self) {
            (
                Notice::Tick,
                Stranger::Waiting {
                    kept: _,
                    left,
                    repeats,
                },
            ) => *left > 1 || *repeats > 0,
            (Notice::Tick, Stranger::Held(_)) => true,
            (Notice::Gone(station), _) => station_in(id) != station.get(),
            (Notice::Listed(station, items), _) => !is_meant(id, *station, items),
        }
    }

    /// What it is after a notice that leaves it open.
    #[tactic(auto, unfolding(crate::specs::Machine::notes, crate::specs::Machine::ticks, crate::specs::Machine::waits, crate::specs::Machine::loses))]
    pub fn pass(&mut self, notice: &Notice)
        ensures { (id : ℕ) → self.new ≡ (passed notice.now (record { id = id; stranger = self.old })).stranger }
    {
        match (notice, self) {
            (
                Notice::Tick,
                Stranger::Waiting {
                    kept: _,
                    left,
                    repeats,
                },
            ) => {
                if *left > 1 {
                    *left -= 1;
                } else if *repeats > 0 {
                    *left = timers::T3470_TICKS;
                    *repeats -= 1;
                }
            }
            (Notice::Tick, Stranger::Held(_)) => {}
            (Notice::Gone(_), _) => {}
            (Notice::Listed(_, _), _) => {}
        }
    }

    /// What a stranger is after ticks that don't end its T3470.
    pub fn pass_ticks(&mut self, ticks: u64)
        ensures { self.new ≡ stranger_aged ticks self.old }
    {
        match self {
            Stranger::Waiting {
                kept: _,
                left,
                repeats: _,
            } => *left = u64::from(*left).saturating_sub(ticks) as u32,
            Stranger::Held(_) => {}
        }
    }
}
