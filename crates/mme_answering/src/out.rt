//! What an MME sends.

ghost use Rattle.std.specs.Prelude.{◌≡◌, ◌++◌, [], map, OnOk, OnErr};
ghost use Rattle.mme_answering.specs.Short.{AreShort};

use crate::sending::push_each;
use identity_slots::{AssociationId, Slot};
use mme_types::{Answers, SentOctets, StationNumber};
use std::alloc::{AllocError, Global};
use std::marker::Model;

/// For whom a message is sent.
#[derive(Clone, Copy, PartialEq, Eq)]
pub enum Owner {
    /// The station itself.
    Station(StationNumber),
    /// A phone that no subscriber is known for, by its id: 2^31, its station and its eNB UE S1AP ID.
    Stranger(AssociationId),
    /// A subscriber, by slot.
    Subscriber(Slot),
}

/// A message that is sent to a station.
#[derive(Drop)]
pub struct Out {
    pub owner: Owner,
    pub station: StationNumber,
    pub octets: SentOctets,
}

/// The messages of an output in order, each with its owner, none longer than 16,388 octets; `clear` empties it.
///
/// A contract sees the list.
#[derive(Drop)]
pub struct Outs {
    items: Vec<Out>,
}

impl Model for Outs {
    ghost use Rattle.std.specs.Prelude.{List};
    ghost use Rattle.mme_answering.specs.declared.out.Out.{Out};

    ghost Value = { List Out };

    ghost view = { λ o. o.items.items };

    ghost use Rattle.mme_answering.specs.Short.{AreShort};

    ghost invariant = { λ o. AreShort o.items.items };
}

impl Outs {
    ghost use Rattle.mme_answering.specs.Sending.{owner_out};

    /// Nothing; takes no memory.
    pub fn new(alloc: Global) -> Outs
        ensures { result ≡ [] }
    {
        Outs {
            items: Vec::new(alloc),
        }
    }

    // What an owner's machine sends; refused, nothing of it is, and nothing is taken out of the answers.
    pub(crate) fn push_all(&mut self, owner: Owner, answers: &mut Answers) -> Result<(), AllocError>
        ensures ok { OnOk result (self.new ≡ self.old ++ map (owner_out owner) answers.old) }
        ensures emptied { OnOk result (answers.new ≡ []) }
        ensures err { OnErr result (self.new ≡ self.old) }
        ensures kept { OnErr result (answers.new ≡ answers.old) }
    {
        self.items.reserve(answers.as_slice().len())?;
        push_each(&mut self.items, &owner, answers);
        Ok(())
    }

    /// The messages.
    pub fn as_slice(&self) -> &[Out]
        ensures { result.now ≡ self.now }
    {
        self.items.as_slice()
    }

    /// They were sent: zeros stand in place of their octets before these are freed, since some carry a key. Takes no memory.
    pub fn forget(self) {
        let mut sent = self;
        sent.clear();
    }

    /// The same, and the room for as many messages stays. Takes no memory.
    pub fn clear(&mut self)
        ensures { self.new ≡ [] }
    {
        for out in self.items.iter_mut() {
            out.octets.forget();
        }
        self.items.clear();
    }

    /// No message is long.
    pub fn are_short(&self)
        ensures { AreShort self.now }
    {
        let _ = &self.items;
    }
}
