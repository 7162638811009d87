//! Octets of messages on the heap, and the messages that a step sends; contracts see lists.

ghost use Rattle.std.specs.Prelude.{◌≡◌, ◌≤◌, ◌++◌, ◌∷◌, [], ℕ, List, drop, length, replicate, take, slice_get, IfOk, OnOk, OnErr};
ghost use Rattle.s1ap_pdus.specs.Pdus.{encoded, lists, longest};
ghost use Rattle.mme_types.specs.Carrying.{has_key, may_carry_key, without_key};

use identity_slots::StationNumber;
use s1ap_pdus::{EncodeFault, MessageType, S1apPdu, encode};
use std::alloc::{AllocError, Global};
use std::marker::Model;

/// The octets of a NAS message that is kept; a contract sees their list.
#[derive(Drop)]
pub struct NasOctets {
    octets: Vec<u8>,
}

impl Model for NasOctets {
    ghost Value = { List ℕ };

    ghost view = { λ o. o.octets.items };
}

impl NasOctets {
    /// These octets.
    pub fn new(octets: Vec<u8>) -> NasOctets
        ensures { result ≡ octets.items }
    {
        NasOctets { octets }
    }

    /// The octets.
    pub fn as_slice(&self) -> &[u8]
        ensures { result.now ≡ self.now }
    {
        self.octets.as_slice()
    }

    /// The same octets once more.
    pub fn copy(&self, alloc: Global) -> Result<NasOctets, AllocError>
        ensures { IfOk result (λ o. o ≡ self.now) }
    {
        Ok(NasOctets {
            octets: Vec::from_slice(alloc, self.octets.as_slice())?,
        })
    }
}

// Whether it is the code of a procedure a message of which has a key.
fn has_key(code: u8) -> bool
    ensures { result ≡ has_key code }
{
    code == MessageType::InitialContextSetupRequest.code()
        || code == MessageType::PathSwitchRequestAcknowledge.code()
}

// Whether these may be the octets of a message that has a key.
fn may_carry_key(octets: &[u8]) -> bool
    ensures { result ≡ may_carry_key octets.now }
{
    match octets.get(1) {
        Some(code) => has_key(*code),
        None => false,
    }
}

// Zeros stand in place of all octets. It is out of line, so that it is done also where nobody looks at them again.
#[inline(never)]
fn overwrite(octets: &mut Vec<u8>)
    ensures { octets.new.items ≡ replicate (length octets.old.items) 0 }
{
    octets.as_mut_slice().fill(0);
}

/// The octets of a message, at most 16,388.
///
/// A contract sees their list.
#[derive(Drop)]
pub struct SentOctets {
    octets: Vec<u8>,
}

impl Model for SentOctets {
    ghost use Rattle.std.specs.Prelude.{ℕ, ◌≤◌, List, length};
    ghost use Rattle.s1ap_pdus.specs.Pdus.{longest};

    ghost Value = { List ℕ };

    ghost view = { λ o. o.octets.items };

    ghost invariant = { λ o. length o.octets.items ≤ longest };
}

impl SentOctets {
    /// The octets of a message, if it has a written form.
    pub fn of_message(alloc: Global, message: &S1apPdu) -> Result<Option<SentOctets>, AllocError>
        ensures { IfOk result (λ octets. octets ≡ encoded (lists message.now)) }
    {
        match encode(alloc, message) {
            Ok(octets) => Ok(Some(SentOctets { octets })),
            Err(EncodeFault::NotWritable) => Ok(None),
            Err(EncodeFault::NoMemory) => Err(AllocError),
        }
    }

    /// The octets.
    pub fn as_slice(&self) -> &[u8]
        ensures { result.now ≡ self.now }
    {
        self.octets.as_slice()
    }

    /// There are at most 16,388: an open type has at most 16,383 (X.691 clause 11.9), and five stand before it.
    pub fn is_short(&self)
        ensures { length self.now ≤ longest }
    {
        let _ = &self.octets;
    }

    /// Leaves zeros in place of octets that may carry a key, by the code of their procedure, and all others as they are.
    ///
    /// These are INITIAL CONTEXT SETUP REQUEST, which has KeNB, and PATH SWITCH REQUEST ACKNOWLEDGE, which has NH (TS 36.413
    /// clauses 9.1.4.1 and 9.1.5.9). Takes no memory.
    pub fn forget(&mut self)
        ensures { self.new ≡ without_key self.old }
    {
        if may_carry_key(self.octets.as_slice()) {
            overwrite(&mut self.octets);
        }
    }

    /// The same octets once more.
    pub fn copy(&self, alloc: Global) -> Result<SentOctets, AllocError>
        ensures { IfOk result (λ o. o ≡ self.now) }
    {
        let octets = Vec::from_slice(alloc, self.octets.as_slice())?;
        Ok(SentOctets { octets })
    }
}

/// What a protected NAS message is sent or accepted under: its vector's place, and the NAS COUNT (TS 24.301 clause 4.4.3).
#[derive(Clone, Copy)]
pub struct Mark {
    pub place: usize,
    pub count: u32,
}

/// A message that a subscriber's machine sends to a station.
#[derive(Drop)]
pub struct Answer {
    pub station: StationNumber,
    /// One whole S1AP message.
    pub octets: SentOctets,
    /// What the NAS message in it is protected under, where it is.
    pub under: Option<Mark>,
}

/// What a subscriber's machine sends at one event, in order; a contract sees the list.
#[derive(Drop)]
pub struct Answers {
    items: Vec<Answer>,
}

impl Model for Answers {
    ghost use Rattle.std.specs.Prelude.{List};
    ghost use Rattle.mme_types.specs.declared.octets.Answer.{Answer};

    ghost Value = { List Answer };

    ghost view = { λ a. a.items.items };
}

impl Answers {
    /// Nothing; takes no memory.
    pub fn new(alloc: Global) -> Answers
        ensures { result ≡ [] }
    {
        Answers {
            items: Vec::new(alloc),
        }
    }

    /// One message more; refused, there are as many as before.
    #[inline(always)]
    pub fn push(&mut self, answer: Answer) -> Result<(), AllocError>
        ensures ok { OnOk result (self.new ≡ self.old ++ answer ∷ []) }
        ensures err { OnErr result (self.new ≡ self.old) }
    {
        self.items.push(answer)?;
        Ok(())
    }

    /// The messages.
    pub fn as_slice(&self) -> &[Answer]
        ensures { result.now ≡ self.now }
    {
        self.items.as_slice()
    }

    /// The first message, if there is one, which is taken out; the room for it stays.
    pub fn take_first(&mut self) -> Option<Answer>
        ensures item { result ≡ slice_get self.old 0 }
        ensures rest { self.new ≡ drop 1 self.old }
    {
        if self.items.is_empty() {
            return None;
        }
        Some(self.items.remove(0))
    }

    /// Keeps the first `count` messages, and the room for the others.
    pub fn truncate(&mut self, count: usize)
        ensures { self.new ≡ take count self.old }
    {
        self.items.truncate(count);
    }

    /// Nothing any more; the room for what there was stays.
    pub fn clear(&mut self)
        ensures { self.new ≡ [] }
    {
        self.items.clear();
    }
}
