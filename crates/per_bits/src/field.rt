//! Bit strings of a fixed length (X.691 clause 16).

ghost use Rattle.std.specs.Prelude.{◌≡◌, ◌<◌, ◌≤◌, ◌^◌, ◌++◌, List, Bool, length, slice_index_or, true, false, refl, Err, IfOk, OnOk, OnErr};
ghost use Rattle.per_streams.specs.declared.fault.PerError.TheVariants.{NoMemory};
ghost use Rattle.per_streams.specs.Bits.{Gives, Answers, bits, take_at, aligned_bits_at};
ghost use Rattle.per_bits.specs.Kept.{IsKept, kept_bits, kept_of, kept-back};
ghost use Rattle.per_bits.specs.Reading.{bits_at, read_at};
ghost use Rattle.per_bits.specs.Formats.{bit_string};
ghost use Rattle.per_bits.specs.Writing.{write_at, write_bits};
ghost use Rattle.per_streams.specs.Writing.{Wrote};

use crate::element::Element;
use crate::kept::Kept;
use per_streams::{BitReader, BitWriter, PerError, PerFault};
use std::alloc::Global;
use std::marker::Model;

/// `N` bits, N below 65536; a contract sees their list.
#[derive(Clone, Copy)]
pub struct BitField<const N: usize> {
    kept: Kept<N>,
}

impl<const N: usize> Model for BitField<N> {
    ghost Value = { List Bool };

    ghost view = { λ b. kept_bits b.kept };

    ghost invariant = { λ b. IsKept b.kept };

    ghost inverse = { λ bs. record { kept = kept_of N bs } };

    ghost inverse_ok = { λ b h. rw (kept-back b.kept h) refl };
}

impl<const N: usize> BitField<N> {
    /// These bits, the first of them the highest.
    pub fn new(bits: [bool; N]) -> Self
        ensures { result ≡ bits.entry }
    {
        if N <= 64 {
            let number = number_of(bits);
            return BitField {
                kept: Kept::Number(number),
            };
        }
        BitField {
            kept: Kept::Each(bits),
        }
    }

    /// The bits, the first of them the highest.
    pub fn bits(&self) -> [bool; N]
        ensures { result ≡ self.now }
    {
        // how many bits there are, a proof knows where a field is used
        let _ = &self.kept;
        let mut bits = [false; N];
        for i in 0..N {
            bits[i] = self.bit(i);
        }
        bits
    }

    /// The bit at a place, counted from 0; the first bit is the highest.
    pub fn bit(&self, i: usize) -> bool
        requires { i < N }
        ensures { result ≡ slice_index_or self.now i false }
    {
        match &self.kept {
            Kept::Number(number) => (*number >> (N - 1 - i)) % 2 == 1,
            Kept::Each(bits) => bits[i],
        }
    }
}

impl<'a, const N: usize> Element<'a> for BitField<N> {
    ghost format = { bit_string N };

    ghost view = { λ b. b };

    #[tactic(auto, unfolding(crate::specs::Reading::bits_at, per_streams::specs::Bits::aligned_bits_at))]
    #[inline(always)]
    fn read(_alloc: Global, reader: &mut BitReader<'a>) -> Result<Self, PerError> {
        if N >= 17 {
            reader.align()?;
        }
        let kept = take_kept::<N>(reader)?;
        Ok(BitField { kept })
    }

    #[tactic(auto, unfolding(crate::specs::Writing::write_bits))]
    #[inline(always)]
    fn write(&self, _alloc: Global, writer: &mut BitWriter) -> Result<(), PerError> {
        if N < 17 {
            put_kept(&self.kept, writer)
        } else {
            writer.align()?;
            put_kept(&self.kept, writer)
        }
    }
}

/// The number that bits stand for, the first of them the highest.
#[inline(always)]
fn number_of<const N: usize>(field: [bool; N]) -> u64
    requires { N ≤ 64 }
    ensures value { bits N result ≡ field.entry }
    ensures fits { result < 2 ^ N }
{
    let mut number = 0u64;
    for bit in field {
        number = 2 * number + bit as u64;
    }
    number
}

/// The next `N` bits.
#[inline(always)]
fn take_kept<const N: usize>(reader: &mut BitReader) -> Result<Kept<N>, PerFault>
    ensures exact { Answers kept_bits result reader.new (take_at N reader.old) }
    ensures kept { IfOk result IsKept }
{
    if N > 64 {
        let mut bits = [false; N];
        take_each(&mut bits, reader)?;
        return Ok(Kept::Each(bits));
    }
    let number = reader.take_bits(N as u8)?;
    Ok(Kept::Number(number))
}

/// Fills bits from the next bits, one by one; nothing is said of them where this is refused.
fn take_each(out: &mut [bool], reader: &mut BitReader) -> Result<(), PerFault>
    ensures exact { Answers (λ _. out.new) result reader.new (take_at (length out.old) reader.old) }
    ensures long { length out.new ≡ length out.old }
{
    for bit in out {
        *bit = reader.take_bit()?;
    }
    Ok(())
}

/// Writes bits, after the bits so far.
#[inline(always)]
fn put_kept<const N: usize>(kept: &Kept<N>, writer: &mut BitWriter) -> Result<(), PerError>
    requires { IsKept kept.now }
    ensures ok { OnOk result (writer.new ≡ writer.old ++ kept_bits kept.now) }
    ensures memory { OnErr result (result ≡ Err NoMemory) }
{
    match kept {
        Kept::Number(number) => writer.put_bits(N as u8, *number),
        Kept::Each(bits) => put_each(bits, writer),
    }
}

/// Writes bits one by one, after the bits so far.
fn put_each(field: &[bool], writer: &mut BitWriter) -> Result<(), PerError>
    ensures ok { OnOk result (writer.new ≡ writer.old ++ field.now) }
    ensures memory { OnErr result (result ≡ Err NoMemory) }
{
    for bit in field {
        writer.put_bit(*bit)?;
    }
    Ok(())
}
