//! Octet strings of a fixed length (X.691 clause 17).

ghost use Rattle.std.specs.Prelude.{◌≡◌, ℕ, List, length, true};
ghost use Rattle.per_streams.specs.Octet.{AreBytes, all_below};
ghost use Rattle.per_streams.specs.Bits.{Gives};
ghost use Rattle.per_bits.specs.Reading.{octets_at, read_at};
ghost use Rattle.per_bits.specs.Formats.{octets};
ghost use Rattle.per_bits.specs.Writing.{write_at, write_octets};
ghost use Rattle.per_streams.specs.Writing.{Wrote};

use crate::element::Element;
use per_streams::{BitReader, BitWriter, PerError};
use std::alloc::Global;
use std::marker::Model;

/// `N` octets, N below 65536; a contract sees their list.
#[derive(Clone, Copy, PartialEq, Eq)]
pub struct Octets<const N: usize> {
    octets: [u8; N],
}

impl<const N: usize> Model for Octets<N> {
    ghost Value = { List ℕ };

    ghost view = { λ o. o.octets };

    ghost invariant = { λ o. AreBytes N o.octets };

    ghost inverse = { λ os. record { octets = os } };
}

impl<const N: usize> Octets<N> {
    /// These octets.
    pub fn new(octets: [u8; N]) -> Self
        ensures { result ≡ octets.entry }
    {
        know_octets(&octets);
        Octets { octets }
    }

    /// The octets.
    pub fn as_slice(&self) -> &[u8]
        ensures { result.now ≡ self.now }
    {
        &self.octets
    }

    /// The octets, as an array.
    pub fn get(self) -> [u8; N]
        ensures { result ≡ self.entry }
    {
        self.octets
    }
}

impl<'a, const N: usize> Element<'a> for Octets<N> {
    ghost format = { octets N };

    ghost view = { λ o. o };

    #[tactic(auto, unfolding(crate::specs::Reading::octets_at, per_streams::specs::Bits::aligned_octets_at))]
    #[inline(always)]
    fn read(_alloc: Global, reader: &mut BitReader<'a>) -> Result<Self, PerError> {
        let mut octets = [0; N];
        if N >= 3 {
            reader.align()?;
        }
        reader.fill(&mut octets)?;
        Ok(Octets { octets })
    }

    #[tactic(auto, unfolding(crate::specs::Writing::write_octets))]
    #[inline(always)]
    fn write(&self, _alloc: Global, writer: &mut BitWriter) -> Result<(), PerError> {
        if N < 3 {
            writer.put_octets(&self.octets)
        } else {
            writer.align()?;
            writer.put_octets(&self.octets)
        }
    }
}

// A proof knows of a slice that each of its octets is below 256, and not of an array of any length.
#[inline(always)]
fn know_octets(octets: &[u8])
    ensures { all_below 256 octets.now ≡ true }
{
    let _ = octets;
}
