//! Writing bits into octets.

ghost use Rattle.std.specs.Prelude.{◌≡◌, ◌+◌, ◌-◌, ◌*◌, ◌/◌, ◌^◌, ◌<◌, ◌≤◌, ◌++◌, ◌∷◌, [], List, Bool, true, false, length, take, drop, eqb, ◌%◌, IfOk, OnOk, OnErr, Err};
ghost use Rattle.per_streams.specs.declared.fault.PerError.TheVariants.{NoMemory};
ghost use Rattle.per_streams.specs.Bits.{bits, octet_bits, pad, IsBytes, padded};

use crate::fault::PerError;
use std::alloc::Global;
use std::marker::Model;

/// An encoding as far as it was written. Each call says by equations which bits it adds.
///
/// A contract sees its bits. After a refusal nothing is said of it.
#[derive(Drop)]
pub struct BitWriter {
    octets: Vec<u8>,
    // the bits after the last octet, as a number
    current: u8,
    used: u8,
}

impl Model for BitWriter {
    ghost Value = { List Bool };

    ghost view = { λ w. octet_bits w.octets.items ++ bits w.used w.current };

    ghost invariant = { λ w. (w.used < 8) × (w.current < 2 ^ w.used) × IsBytes w.octets.items };
}

impl BitWriter {
    /// Nothing written yet; takes no memory.
    pub fn new(alloc: Global) -> BitWriter
        ensures { result ≡ [] }
    {
        BitWriter::with_octets(Vec::new(alloc))
    }

    /// Nothing written yet, with room for `octets` octets; more are written where memory grows.
    pub fn with_room(alloc: Global, octets: usize) -> Result<BitWriter, PerError>
        ensures ok { IfOk result (λ w. w ≡ []) }
        ensures memory { OnErr result (result ≡ Err NoMemory) }
    {
        let octets = Vec::with_capacity(alloc, octets)?;
        Ok(BitWriter::with_octets(octets))
    }

    // nothing written yet, by a list without octets
    #[tactic(auto, unfolding(crate::specs::Bits::bits))]
    fn with_octets(octets: Vec<u8>) -> BitWriter
        requires { octets.items ≡ [] }
        ensures { result ≡ [] }
    {
        BitWriter {
            octets,
            current: 0,
            used: 0,
        }
    }

    /// One bit.
    #[inline(always)]
    pub fn put_bit(&mut self, bit: bool) -> Result<(), PerError>
        ensures ok { OnOk result (self.new ≡ self.old ++ bit ∷ []) }
        ensures memory { OnErr result (result ≡ Err NoMemory) }
    {
        let current = with_bit(self.current, self.used, bit);
        if self.used == 7 {
            self.octets.push(current)?;
            self.current = 0;
            self.used = 0;
        } else {
            self.current = current;
            self.used += 1;
        }
        Ok(())
    }

    /// A number in `count` bits, at most 64, the highest first.
    #[inline(always)]
    pub fn put_bits(&mut self, count: u8, number: u64) -> Result<(), PerError>
        requires count { count ≤ 64 }
        requires fits { number < 2 ^ count }
        ensures ok { OnOk result (self.new ≡ self.old ++ bits count number) }
        ensures memory { OnErr result (result ≡ Err NoMemory) }
    {
        if count <= 8 {
            return self.put_few(count, number as u8);
        }
        if count <= 16 {
            let (first, others) = split_number(number, count, 8);
            self.put_few(8, first)?;
            return self.put_few(count - 8, others as u8);
        }
        self.put_parts(count, number)
    }

    // a number of eight bits at most: the octet that is begun, and where it becomes full, the next
    #[inline(always)]
    fn put_few(&mut self, count: u8, number: u8) -> Result<(), PerError>
        requires count { count ≤ 8 }
        requires fits { number < 2 ^ count }
        ensures ok { OnOk result (self.new ≡ self.old ++ bits count number) }
        ensures memory { OnErr result (result ≡ Err NoMemory) }
    {
        let used = self.used + count;
        let both = joined(self.current, self.used, number, count);
        if used < 8 {
            self.current = both as u8;
            self.used = used;
            return Ok(());
        }
        let (octet, rest) = split_number(both as u64, used, 8);
        self.octets.push(octet)?;
        self.current = rest as u8;
        self.used = used - 8;
        Ok(())
    }

    /// The octet in which a number in `count` bits ends, filled up with zero bits, for the caller to write; what stands in the
    /// octets before it is written.
    #[inline(always)]
    pub fn fill_octet(&mut self, count: u8, number: u8) -> Result<u8, PerError>
        requires some { 0 < count }
        requires count { count ≤ 8 }
        requires fits { number < 2 ^ count }
        ensures ok { IfOk result (λ octet. self.new ++ bits 8 octet
            ≡ (self.old ++ bits count number) ++ pad (length self.old + count)) }
        ensures whole { IfOk result (λ _. length self.new % 8 ≡ 0) }
        ensures memory { OnErr result (result ≡ Err NoMemory) }
    {
        let used = self.used + count;
        let both = joined(self.current, self.used, number, count);
        self.current = 0;
        self.used = 0;
        if used <= 8 {
            return Ok(filled(both, used));
        }
        let (octet, last) = split_number(both as u64, used, 8);
        self.octets.push(octet)?;
        Ok(filled(last as u16, used - 8))
    }

    // a number of more than sixteen bits, eight at a time
    fn put_parts(&mut self, count: u8, number: u64) -> Result<(), PerError>
        requires count { count ≤ 64 }
        requires fits { number < 2 ^ count }
        ensures ok { OnOk result (self.new ≡ self.old ++ bits count number) }
        ensures memory { OnErr result (result ≡ Err NoMemory) }
    {
        let mut rest = number;
        let mut wanted = count;
        while wanted > 8 {
            let (part, lower) = split_number(rest, wanted, 8);
            self.put_few(8, part)?;
            wanted -= 8;
            rest = lower;
        }
        self.put_few(wanted, rest as u8)
    }
}

impl BitWriter {
    /// Zero bits up to the next octet.
    #[inline(always)]
    pub fn align(&mut self) -> Result<(), PerError>
        ensures ok { OnOk result (self.new ≡ self.old ++ pad (length self.old)) }
        ensures memory { OnErr result (result ≡ Err NoMemory) }
    {
        let used = self.used;
        if used == 0 {
            return Ok(());
        }
        self.put_few(8 - used, 0)
    }

    /// One octet, after the bits so far.
    #[inline(always)]
    pub fn put_octet(&mut self, octet: u8) -> Result<(), PerError>
        ensures ok { OnOk result (self.new ≡ self.old ++ bits 8 octet) }
        ensures memory { OnErr result (result ≡ Err NoMemory) }
    {
        if self.used == 0 {
            self.octets.push(octet)?;
            return Ok(());
        }
        self.put_bits(8, octet as u64)
    }

    /// Octets, after the bits so far.
    #[inline(always)]
    pub fn put_octets(&mut self, octets: &[u8]) -> Result<(), PerError>
        ensures ok { OnOk result (self.new ≡ self.old ++ octet_bits octets.now) }
        ensures memory { OnErr result (result ≡ Err NoMemory) }
    {
        if self.used == 0 {
            return self.put_whole(octets);
        }
        self.put_each(octets)
    }

    /// Octets, where the place is at an octet.
    #[inline(always)]
    pub fn put_whole(&mut self, octets: &[u8]) -> Result<(), PerError>
        requires { length self.old % 8 ≡ 0 }
        ensures ok { OnOk result (self.new ≡ self.old ++ octet_bits octets.now) }
        ensures memory { OnErr result (result ≡ Err NoMemory) }
    {
        self.octets.extend_from_slice(octets)?;
        Ok(())
    }

    // octets where the last octet is not full; cold, as the octets of a message mostly stand at an octet
    #[cold]
    #[inline(never)]
    fn put_each(&mut self, octets: &[u8]) -> Result<(), PerError>
        ensures ok { OnOk result (self.new ≡ self.old ++ octet_bits octets.now) }
        ensures memory { OnErr result (result ≡ Err NoMemory) }
    {
        for octet in octets {
            self.put_bits(8, *octet as u64)?;
        }
        Ok(())
    }
}

impl BitWriter {
    /// The octets, the last of them filled up with zero bits.
    #[inline(always)]
    pub fn finish(mut self) -> Result<Vec<u8>, PerError>
        ensures ok { IfOk result (λ v. v.items ≡ padded self) }
        ensures memory { OnErr result (result ≡ Err NoMemory) }
    {
        self.align()?;
        Ok(self.octets)
    }
}

impl BitWriter {
    /// How many whole octets were written.
    pub fn octets(&self) -> usize
        ensures { result ≡ length self.now / 8 }
    {
        self.octets.len()
    }

    /// Another octet in the place of one that was written.
    pub fn set_octet(&mut self, place: usize, octet: u8)
        requires { 8 * place + 8 ≤ length self.old }
        ensures { self.new ≡ take (8 * place) self.old ++ (bits 8 octet ++ drop (8 * place + 8) self.old) }
    {
        self.octets[place] = octet;
    }

    /// One octet more before those from this place on, which moves them.
    pub fn insert_octet(&mut self, place: usize, octet: u8) -> Result<(), PerError>
        requires { 8 * place ≤ length self.old }
        ensures ok { OnOk result (self.new ≡ take (8 * place) self.old ++ (bits 8 octet ++ drop (8 * place) self.old)) }
        ensures memory { OnErr result (result ≡ Err NoMemory) }
    {
        self.octets.insert(place, octet)?;
        Ok(())
    }
}

/// A number with one bit more at its end.
fn with_bit(current: u8, used: u8, bit: bool) -> u8
    requires used { used < 8 }
    requires fits { current < 2 ^ used }
    ensures bits { bits (used + 1) result ≡ bits used current ++ bit ∷ [] }
    ensures fits { result < 2 ^ (used + 1) }
{
    2 * current + bit as u8
}

/// A number of `used` bits and after it one of `some` bits, as one number.
#[inline(always)]
fn joined(current: u8, used: u8, part: u8, some: u8) -> u16
    requires used { used < 8 }
    requires some { some ≤ 8 }
    requires fits { current < 2 ^ used }
    requires part { part < 2 ^ some }
    ensures bits { bits (used + some) result ≡ bits used current ++ bits some part }
    ensures fits { result < 2 ^ (used + some) }
{
    current as u16 * (1u16 << some) + part as u16
}

/// A number of `used` bits and after it zero bits, as an octet.
#[inline(always)]
fn filled(number: u16, used: u8) -> u8
    requires used { used ≤ 8 }
    requires fits { number < 2 ^ used }
    ensures { bits 8 result ≡ bits used number ++ bits (8 - used) 0 }
{
    (number * (1u16 << (8 - used))) as u8
}

/// The first bits of a number of `left` bits, and the others, each as a number.
fn split_number(number: u64, left: u8, some: u8) -> (u8, u64)
    requires some { 0 < some }
    requires octet { some ≤ 8 }
    requires most { some ≤ left }
    requires left { left ≤ 64 }
    requires fits { number < 2 ^ left }
    ensures parts { bits left number ≡ bits some result.0 ++ bits (left - some) result.1 }
    ensures part { result.0 < 2 ^ some }
    ensures rest { result.1 < 2 ^ (left - some) }
{
    let lower = left - some;
    ((number >> lower) as u8, number % (1u64 << lower))
}
