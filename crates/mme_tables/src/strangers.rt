//! The strangers that aren't closed, each asleep until something is for it: a tick touches those alone whose T3470 it ends.

ghost use Rattle.std.specs.Prelude.{◌≡◌, ◌+◌, ◌<◌, ◌^◌, [], IsSome, OnOk, OnErr, option_map, true};
ghost use Rattle.mme_tables.specs.Waiting.{due_ids, wait_at};
ghost use Rattle.sorted_list.specs.Ordered.{Rising, put, without};
ghost use Rattle.sorted_list.specs.Sorted.{lowest_from};
ghost use Rattle.stranger_machine.specs.Lent.{lent_now};
ghost use Rattle.stranger_machine.specs.Machine.{closes, is_of_station};
ghost use Rattle.stranger_machine.specs.Table.{known_id, noted, stranger_at};
ghost use Rattle.stranger_machine.specs.declared.turn.Notice.TheVariants.{Tick};

use crate::places::id_is_small;
use crate::sleeper::Sleeper;
use crate::sleeping::Sleepers;
use crate::ticking::tick_all;
use identity_slots::AssociationId;
use std::alloc::{AllocError, Global};
use std::marker::Model;
use stranger_machine::{LentStranger, Notice, Stranger};

/// A map from id to each stranger's state: `tick` leaves what each one's machine leaves, given those whose T3470 it ends, without
/// memory.
///
/// Contracts see the clock, by which the table tells what its own are now, and each stranger that isn't closed as it is now, by
/// rising id.
#[derive(Drop)]
pub struct Strangers {
    sleepers: Sleepers,
    clock: u64,
}

impl Model for Strangers {
    ghost use Rattle.mme_tables.specs.Strangers.{StrangerTable};
    ghost use Rattle.mme_tables.specs.Ended.{AreStrangers};
    ghost use Rattle.mme_tables.specs.StrangerRows.{all_now};

    ghost Value = { StrangerTable };

    ghost view = { λ t. record { clock = t.clock; strangers = all_now t.clock t.sleepers } };

    ghost invariant = { λ t. AreStrangers t.clock t.sleepers };
}

impl Strangers {
    /// All are closed, at this clock; takes no memory.
    pub fn new(alloc: Global, clock: u64) -> Strangers
        ensures clock { result.clock ≡ clock }
        ensures strangers { result.strangers ≡ [] }
    {
        Strangers {
            sleepers: Sleepers::new(alloc),
            clock,
        }
    }

    /// The ticks passed, from the clock at the start on. The strangers' ids rise.
    pub fn clock(&self) -> u64
        ensures value { result ≡ self.now.clock }
        ensures order { Rising known_id self.now.strangers }
    {
        self.clock
    }

    /// The stranger with an id, unless it is closed, as it was when it was touched and the ticks since then. Takes no memory.
    pub fn find<'a>(&'a self, id: AssociationId) -> Option<LentStranger<'a>>
        ensures { option_map lent_now result ≡ stranger_at id self.entry.now.strangers }
    {
        let sleeper = self.sleepers.find(id)?;
        let slept = self.clock - sleeper.touched;
        Some(LentStranger {
            stranger: &sleeper.stranger,
            slept,
        })
    }

    /// The ticks that T3470 of the stranger with an id has left, if it waits. Takes no memory.
    pub fn left(&self, id: AssociationId) -> Option<u32>
        ensures { result ≡ wait_at id self.now.strangers }
    {
        let sleeper = self.sleepers.find(id)?;
        sleeper.left(self.clock)
    }

    /// The stranger with an id is closed. Takes no memory.
    pub fn close(&mut self, id: AssociationId)
        ensures clock { self.new.clock ≡ self.old.clock }
        ensures strangers { self.new.strangers ≡ without known_id id self.old.strangers }
    {
        self.sleepers.close(id);
    }

    /// The stranger with an id is that from now on; refused, all are as they were.
    pub fn put(&mut self, id: AssociationId, stranger: Stranger) -> Result<(), AllocError>
        ensures clock { self.new.clock ≡ self.old.clock }
        ensures ok { OnOk result (self.new.strangers ≡ put known_id (record { id = id; stranger = stranger }) self.old.strangers) }
        ensures err { OnErr result (self.new ≡ self.old) }
    {
        id_is_small(id);
        let sleeper = Sleeper {
            stranger,
            touched: self.clock,
        };
        self.sleepers.put(id, sleeper)
    }

    /// One tick, for all, where that are the ids of those whose T3470 it ends. Only those are touched. Takes no memory.
    pub fn tick(&mut self, due: &[AssociationId])
        requires clock { self.old.clock < 2 ^ 62 }
        requires due { due.now ≡ due_ids self.old.strangers }
        ensures clock { self.new.clock ≡ self.old.clock + 1 }
        ensures strangers { self.new.strangers ≡ noted Tick self.old.strangers }
    {
        let next = self.clock + 1;
        self.sleepers.are_rows();
        tick_all(&mut self.sleepers, due, next);
        self.clock = next;
    }

    /// The lowest id of at least `least`. The ids rise.
    pub fn first_from(&self, least: u64) -> Option<AssociationId>
        ensures value { result ≡ option_map known_id (lowest_from known_id least self.now.strangers) }
        ensures order { Rising known_id self.now.strangers }
    {
        self.sleepers.first_from(least)
    }

    /// Whether a notice of a station closes the stranger with an id, unless it is closed.
    pub fn is_closed_by(&self, id: AssociationId, notice: &Notice) -> bool
        requires { is_of_station notice.now ≡ true }
        ensures { IsSome (stranger_at id self.now.strangers) → result ≡ closes id notice.now }
    {
        match self.sleepers.find(id) {
            Some(sleeper) => !sleeper.stranger.stays_open(id, notice),
            None => false,
        }
    }
}
