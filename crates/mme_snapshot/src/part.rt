//! Parts of a snapshot, and their octets.

ghost use Rattle.std.specs.Prelude.{◌≡◌, ◌++◌, OnOk, OnErr, IfOk, length, replicate};
ghost use Rattle.per_bits.specs.Spelling.{SpellsWhole};

use crate::fault::SaveFault;
use identity_slots::Slot;
use per_bits::{BitWriter, Element, write_complete};
use std::alloc::{AllocError, Global};
use std::marker::Model;

/// Where a part of a snapshot stands.
#[derive(Clone, Copy)]
pub enum Part {
    /// The version, the network, the clock, the stations, and how many strangers there are.
    First,
    /// The stranger with the least id of at least this; where there is none, how many subscribers there are.
    Stranger(u64),
    /// The subscriber of a slot.
    Subscriber(Slot),
}

/// Octets of a snapshot, which have keys; a contract sees their list.
#[derive(Drop)]
pub struct SavedOctets {
    octets: Vec<u8>,
}

impl Model for SavedOctets {
    ghost use Rattle.std.specs.Prelude.{ℕ, List};

    ghost Value = { List ℕ };

    ghost view = { λ o. o.octets.items };
}

// Zeros stand in place of all octets. It is out of line, so that it is done also where nobody looks at them again.
#[inline(never)]
fn overwrite(octets: &mut Vec<u8>)
    ensures { octets.new.items ≡ replicate (length octets.old.items) 0 }
{
    octets.as_mut_slice().fill(0);
}

impl SavedOctets {
    /// These octets.
    pub(crate) fn new(octets: Vec<u8>) -> SavedOctets
        ensures { result ≡ octets.items }
    {
        SavedOctets { octets }
    }

    /// The octets.
    pub fn as_slice(&self) -> &[u8]
        ensures { result.now ≡ self.now }
    {
        self.octets.as_slice()
    }

    /// Zeros stand in place of the octets, and their memory is given back.
    pub fn forget(mut self) {
        overwrite(&mut self.octets);
    }

    /// Further octets after these. Where these move, zeros stand where they were; refused, they are as they were.
    pub(crate) fn add(&mut self, alloc: Global, more: &[u8]) -> Result<(), AllocError>
        ensures ok { OnOk result (self.new ≡ self.old ++ more.now) }
        ensures err { OnErr result (self.new ≡ self.old) }
    {
        if self.octets.capacity() - self.octets.len() < more.len() {
            let mut roomier = Vec::with_capacity(
                alloc,
                self.octets
                    .len()
                    .saturating_mul(2)
                    .saturating_add(more.len()),
            )?;
            roomier.extend_from_slice(self.octets.as_slice())?;
            overwrite(&mut self.octets);
            self.octets = roomier;
        }
        self.octets.extend_from_slice(more)
    }
}

/// The octets that spell a value, up to the next octet; `fault` where it has no spelling.
pub(crate) fn spelled<'a, T: Element<'a>>(
    alloc: Global,
    value: &T,
    fault: SaveFault,
) -> Result<Vec<u8>, SaveFault>
    ensures { IfOk result (λ v. SpellsWhole T.format (T.view value.now) v.items) }
{
    match write_complete(alloc, value) {
        Ok(octets) => Ok(octets),
        Err(error) => Err(fault.of(error)),
    }
}
