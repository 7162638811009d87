//! Whole numbers in a range.

ghost use Rattle.std.specs.Prelude.{ℕ, true, ◌↔◌, IsSome, IfSome, ◌≡◌, ◌≤◌, ◌<◌, ◌^◌, ◌*◌, ◌-◌, ◌+◌, ◌++◌, ◌∷◌, [], false, length, Ok, IfOk};
ghost use Rattle.per_streams.specs.Bits.{Answers, bits, pad};
ghost use Rattle.per_streams.specs.Reading.{number_at, offset_at, small_at, aligned_small_at, large_at};
ghost use Rattle.per_streams.specs.Numbers.{width_of, octets_for, offset_bits};
ghost use Rattle.per_streams.specs.Writing.{write_number, Wrote};

use crate::fault::{PerError, PerFault};
use crate::reader::BitReader;
use crate::writer::BitWriter;
use std::marker::Model;

/// A whole number from `LO` to `HI` (X.691 clauses 11.5 and 13); a contract sees the number.
#[derive(Clone, Copy, PartialEq, Eq)]
pub struct Whole<const LO: u64, const HI: u64> {
    value: u64,
}

impl<const LO: u64, const HI: u64> Model for Whole<LO, HI> {
    ghost Value = { ℕ };

    ghost view = { λ n. n.value };

    ghost invariant = { λ n. (LO ≤ n.value) × (n.value - LO ≤ HI - LO) };

    ghost inverse = { λ n. record { value = n } };
}

impl<const LO: u64, const HI: u64> Whole<LO, HI> {
    /// A number of the range; takes no memory.
    pub fn new(value: u64) -> Self
        requires low { LO ≤ value }
        requires high { value ≤ HI }
        ensures { result ≡ value }
    {
        Whole { value }
    }

    /// The number, where it lies in the range; takes no memory.
    pub fn try_new(value: u64) -> Option<Self>
        ensures some { IsSome result ↔ ((LO ≤ value) × (value ≤ HI)) }
        ensures value { IfSome result (λ n. n ≡ value) }
    {
        if value < LO || value > HI {
            return None;
        }
        Some(Whole { value })
    }

    /// The number.
    pub fn get(self) -> u64
        ensures value { result ≡ self.entry }
        ensures low { LO ≤ result }
        ensures high { LO ≤ HI → result ≤ HI }
    {
        self.value
    }

    /// Reads a number; takes no memory.
    #[tactic(auto, unfolding(crate::specs::Reading::number_at))]
    #[inline(always)]
    pub fn read(reader: &mut BitReader) -> Result<Self, PerFault>
        ensures { Answers (λ n. n) result reader.new (number_at LO HI reader.old) }
    {
        let offset = offset_of(HI.saturating_sub(LO), reader)?;
        Ok(Whole { value: LO + offset })
    }
}

/// Writes a number of `lo..hi` (X.691 clause 11.5); one outside is Range.
#[tactic(auto, unfolding(crate::specs::Writing::write_number))]
#[inline(always)]
pub fn put_number(lo: u64, hi: u64, number: u64, writer: &mut BitWriter) -> Result<(), PerError>
    ensures { Wrote result writer.new (write_number lo hi number writer.old) }
{
    if number < lo || number > hi {
        return Err(PerError::Fault(PerFault::Range));
    }
    put_offset(hi - lo, number - lo, writer)
}

/// Writes a number of the root of an extensible type, 0 to `last`, after a zero bit which says that it is one; one above is Range.
#[inline(always)]
pub fn put_root(last: u64, number: u64, writer: &mut BitWriter) -> Result<(), PerError>
    ensures { Wrote result writer.new (write_number 0 last number (writer.old ++ false ∷ [])) }
{
    if last >= 128 {
        writer.put_bit(false)?;
        return put_number(0, last, number, writer);
    }
    if number > last {
        return Err(PerError::Fault(PerFault::Range));
    }
    writer.put_bits(1 + width(last), number)?;
    Ok(())
}

/// Writes the offset of a number in a range whose last offset is `span`.
#[tactic(auto, unfolding(crate::specs::Numbers::offset_bits))]
#[inline(always)]
fn put_offset(span: u64, offset: u64, writer: &mut BitWriter) -> Result<(), PerError>
    requires { offset ≤ span }
    ensures { Wrote result writer.new (Ok (writer.old ++ offset_bits span offset (length writer.old))) }
{
    if span < 255 {
        writer.put_bits(width(span), offset)
    } else if span < 256 {
        put_one(offset, writer)
    } else if span < 65536 {
        put_two(offset, writer)
    } else {
        put_counted(width((octets_of(span) - 1) as u64), offset, writer)
    }
}

/// Writes a number in one octet, from the next octet on.
#[inline(always)]
fn put_one(number: u64, writer: &mut BitWriter) -> Result<(), PerError>
    requires { number < 2 ^ 8 }
    ensures { Wrote result writer.new (Ok (writer.old ++ (pad (length writer.old) ++ bits 8 number))) }
{
    writer.align()?;
    writer.put_octet(number as u8)
}

/// Writes a number in two octets, from the next octet on.
#[inline(always)]
fn put_two(number: u64, writer: &mut BitWriter) -> Result<(), PerError>
    requires { number < 2 ^ 16 }
    ensures { Wrote result writer.new (Ok (writer.old ++ (pad (length writer.old) ++ bits 16 number))) }
{
    writer.align()?;
    writer.put_octets(&[(number / 256) as u8, (number % 256) as u8])?;
    Ok(())
}

/// Writes how many octets a number has, in `wide` bits, and then these from the next octet on; out of line, as it would make
/// every write of a number large.
#[inline(never)]
fn put_counted(wide: u8, number: u64, writer: &mut BitWriter) -> Result<(), PerError>
    requires some { 0 < wide }
    requires wide { wide ≤ 8 }
    requires fits { octets_for number - 1 < 2 ^ wide }
    ensures { Wrote result writer.new (Ok (writer.old ++ (bits wide (octets_for number - 1)
        ++ (pad (length writer.old + length (bits wide (octets_for number - 1))) ++ bits (8 * octets_for number) number)))) }
{
    let count = octets_of(number);
    match count {
        1 => put_counted_one(wide, number, writer),
        2 => put_counted_two(wide, number, writer),
        3 => put_counted_three(wide, number, writer),
        4 => put_counted_four(wide, number, writer),
        _ => put_counted_bits(wide, count, number, writer),
    }
}

/// Writes in `wide` bits that a number has one octet, and then it from the next octet on.
#[inline(always)]
fn put_counted_one(wide: u8, number: u64, writer: &mut BitWriter) -> Result<(), PerError>
    requires some { 0 < wide }
    requires wide { wide ≤ 8 }
    requires fits { number < 2 ^ 8 }
    ensures { Wrote result writer.new (Ok (writer.old ++ (bits wide 0
        ++ (pad (length writer.old + length (bits wide 0)) ++ bits 8 number)))) }
{
    let head = writer.fill_octet(wide, 0)?;
    writer.put_whole(&[head, number as u8])?;
    Ok(())
}

/// Writes in `wide` bits that a number has two octets, and then these from the next octet on.
#[inline(always)]
fn put_counted_two(wide: u8, number: u64, writer: &mut BitWriter) -> Result<(), PerError>
    requires some { 0 < wide }
    requires wide { wide ≤ 8 }
    requires few { 1 < 2 ^ wide }
    requires fits { number < 2 ^ 16 }
    ensures { Wrote result writer.new (Ok (writer.old ++ (bits wide 1
        ++ (pad (length writer.old + length (bits wide 1)) ++ bits 16 number)))) }
{
    let head = writer.fill_octet(wide, 1)?;
    writer.put_whole(&[head, (number / 256) as u8, (number % 256) as u8])?;
    Ok(())
}

/// Writes in `wide` bits that a number has three octets, and then these from the next octet on.
#[inline(always)]
fn put_counted_three(wide: u8, number: u64, writer: &mut BitWriter) -> Result<(), PerError>
    requires some { 0 < wide }
    requires wide { wide ≤ 8 }
    requires few { 2 < 2 ^ wide }
    requires fits { number < 2 ^ 24 }
    ensures { Wrote result writer.new (Ok (writer.old ++ (bits wide 2
        ++ (pad (length writer.old + length (bits wide 2)) ++ bits 24 number)))) }
{
    let high = number / 256;
    let head = writer.fill_octet(wide, 2)?;
    writer.put_whole(&[
        head,
        (high / 256) as u8,
        (high % 256) as u8,
        (number % 256) as u8,
    ])?;
    Ok(())
}

/// Writes in `wide` bits that a number has four octets, and then these from the next octet on.
#[inline(always)]
fn put_counted_four(wide: u8, number: u64, writer: &mut BitWriter) -> Result<(), PerError>
    requires some { 0 < wide }
    requires wide { wide ≤ 8 }
    requires few { 3 < 2 ^ wide }
    requires fits { number < 2 ^ 32 }
    ensures { Wrote result writer.new (Ok (writer.old ++ (bits wide 3
        ++ (pad (length writer.old + length (bits wide 3)) ++ bits 32 number)))) }
{
    let high = number / 65536;
    let low = number % 65536;
    let head = writer.fill_octet(wide, 3)?;
    writer.put_whole(&[
        head,
        (high / 256) as u8,
        (high % 256) as u8,
        (low / 256) as u8,
        (low % 256) as u8,
    ])?;
    Ok(())
}

/// Writes in `wide` bits that a number has `count` octets, and then these from the next octet on.
#[inline(never)]
fn put_counted_bits(
    wide: u8,
    count: u8,
    number: u64,
    writer: &mut BitWriter,
) -> Result<(), PerError>
    requires wide { wide ≤ 8 }
    requires few { count - 1 < 2 ^ wide }
    requires some { 0 < count }
    requires count { count ≤ 8 }
    requires fits { number < 2 ^ (8 * count) }
    ensures { Wrote result writer.new (Ok (writer.old ++ (bits wide (count - 1)
        ++ (pad (length writer.old + length (bits wide (count - 1))) ++ bits (8 * count) number)))) }
{
    writer.put_bits(wide, (count - 1) as u64)?;
    writer.align()?;
    writer.put_bits(8 * count, number)?;
    Ok(())
}

/// The number of bits for numbers up to one below 256.
#[tactic(auto, unfolding(crate::specs::Numbers::width_of))]
#[inline(always)]
fn width(most: u64) -> u8
    requires { most < 256 }
    ensures exact { result ≡ width_of most }
    ensures fits { most < 2 ^ result }
    ensures octet { result ≤ 8 }
{
    if most < 1 {
        0
    } else if most < 2 {
        1
    } else if most < 4 {
        2
    } else if most < 8 {
        3
    } else if most < 16 {
        4
    } else if most < 32 {
        5
    } else if most < 64 {
        6
    } else if most < 128 {
        7
    } else {
        8
    }
}

#[tactic(auto, unfolding(crate::specs::Reading::small_at))]
#[inline(always)]
fn small(span: u64, bits: u8, reader: &mut BitReader) -> Result<u64, PerFault>
    requires { bits ≤ 64 }
    ensures exact { Answers (λ n. n) result reader.new (small_at span bits reader.old) }
    ensures within { IfOk result (λ n. n ≤ span) }
{
    let offset = reader.take_bits(bits)?;
    if offset <= span {
        Ok(offset)
    } else {
        Err(PerFault::Range)
    }
}

// a number in `octets` octets, from the next octet on
#[tactic(auto, unfolding(crate::specs::Reading::small_at))]
#[inline(always)]
fn aligned(span: u64, octets: u8, reader: &mut BitReader) -> Result<u64, PerFault>
    requires { octets ≤ 8 }
    ensures exact { Answers (λ n. n) result reader.new (aligned_small_at span (8 * octets) reader.old) }
    ensures within { IfOk result (λ n. n ≤ span) }
{
    reader.align()?;
    let offset = reader.number_here(octets)?;
    if offset <= span {
        Ok(offset)
    } else {
        Err(PerFault::Range)
    }
}

/// Reads the offset of a number in a range whose last offset is `span` (X.691 clause 11.5); takes no memory.
#[tactic(auto, unfolding(crate::specs::Reading::offset_at))]
#[inline(always)]
pub fn offset_of(span: u64, reader: &mut BitReader) -> Result<u64, PerFault>
    ensures exact { Answers (λ n. n) result reader.new (offset_at span reader.old) }
    ensures within { IfOk result (λ n. n ≤ span) }
{
    if span < 255 {
        small(span, width(span), reader)
    } else if span < 256 {
        aligned(span, 1, reader)
    } else if span < 65536 {
        aligned(span, 2, reader)
    } else {
        large(span, reader)
    }
}

#[tactic(auto, unfolding(crate::specs::Numbers::octets_for))]
#[inline(always)]
fn octets_of(n: u64) -> u8
    ensures exact { result ≡ octets_for n }
    ensures some { 1 ≤ result }
    ensures most { result ≤ 8 }
    ensures fits { n < 2 ^ (8 * result) }
{
    if n < 1 << 8 {
        1
    } else if n < 1 << 16 {
        2
    } else if n < 1 << 24 {
        3
    } else if n < 1 << 32 {
        4
    } else if n < 1 << 40 {
        5
    } else if n < 1 << 48 {
        6
    } else if n < 1 << 56 {
        7
    } else {
        8
    }
}

// whether a number of `count` octets needs them all
#[inline(always)]
fn is_fewest(count: u8, n: u64) -> bool
    requires some { 1 ≤ count }
    requires most { count ≤ 8 }
    requires fits { n < 2 ^ (8 * count) }
    ensures { (result ≡ true) ↔ (octets_for n ≡ count) }
{
    count == 1 || n >= 1u64 << (8 * (count - 1))
}

#[tactic(auto, unfolding(crate::specs::Reading::large_at))]
#[inline(always)]
fn large(span: u64, reader: &mut BitReader) -> Result<u64, PerFault>
    ensures exact { Answers (λ n. n) result reader.new (large_at span reader.old) }
    ensures within { IfOk result (λ n. n ≤ span) }
{
    let most = (octets_of(span) - 1) as u64;
    let count = small(most, width(most), reader)?;
    reader.align()?;
    let offset = reader.number_here(count as u8 + 1)?;
    if offset > span {
        return Err(PerFault::Range);
    }
    if !is_fewest(count as u8 + 1, offset) {
        return Err(PerFault::NotFewest);
    }
    Ok(offset)
}
