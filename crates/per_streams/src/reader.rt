//! Reading bits from octets.

ghost use Rattle.std.specs.Prelude.{true, eqb, ◌↔◌, ◌≡◌, ◌%◌, ◌+◌, ◌-◌, ◌*◌, ◌^◌, ◌<◌, ◌≤◌, ◌++◌, ◌∷◌, length, drop, take, IsOk, OnErr, IsSome};
ghost use Rattle.per_streams.specs.TwoOctets.{two_at, past_two};
ghost use Rattle.per_streams.specs.Bits.{TakesPart, Place, Answers, start, bits, value, octet_bits, align_at, bit_at, number_bits_at, aligned_octets_at, whole_octets_at, IsBytes, end_at};

use crate::fault::PerFault;
use std::marker::Model;

/// A reading place in an encoding. Each call says by equations which bits it reads, or its fault.
///
/// A contract sees how many bits stand before it, and those from it on. No call takes memory.
#[derive(Drop)]
pub struct BitReader<'a> {
    octets: &'a [u8],
    // how many octets were begun
    begun: usize,
    // the bits of the last of them that are left, as a number
    current: u8,
    left: u8,
}

impl<'a> Model for BitReader<'a> {
    ghost Value = { Place };

    ghost view = { λ r. record {
      at = 8 * r.begun - r.left;
      rest = bits r.left r.current ++ octet_bits (drop r.begun r.octets.now);
    } };

    ghost invariant = { λ r. (r.begun ≤ length r.octets.now) × (r.left < 8) × (r.left ≤ 8 * r.begun)
        × (r.current < 2 ^ r.left) × IsBytes r.octets.now };
}

impl<'a> BitReader<'a> {
    /// At the beginning of these octets.
    #[tactic(auto, unfolding(crate::specs::Bits::bits))]
    pub fn new(octets: &'a [u8]) -> BitReader<'a>
        ensures { result ≡ start octets.now }
    {
        BitReader {
            octets,
            begun: 0,
            current: 0,
            left: 0,
        }
    }

    /// The next bit; none left is Truncated.
    #[inline(always)]
    pub fn take_bit(&mut self) -> Result<bool, PerFault>
        ensures { Answers (λ b. b) result self.new (bit_at self.old) }
    {
        if self.left == 0 {
            if self.begun == self.octets.len() {
                return Err(PerFault::Truncated);
            }
            let (bit, current) = split_bit(self.octets[self.begun], 8);
            self.current = current;
            self.left = 7;
            self.begun += 1;
            return Ok(bit);
        }
        let (bit, current) = split_bit(self.current, self.left);
        self.current = current;
        self.left -= 1;
        Ok(bit)
    }

    /// The number that the next `count` bits stand for, the first of them the highest; at most 64.
    #[inline(always)]
    pub fn take_bits(&mut self, count: u8) -> Result<u64, PerFault>
        requires { count ≤ 64 }
        ensures { Answers (λ n. n) result self.new (number_bits_at count self.old) }
    {
        if self.is_in_one_octet(count) {
            let (_, part) = self.take_part(count)?;
            return Ok(u64::from(part));
        }
        if self.left == 0 {
            return self.take_from_octets(count);
        }
        self.take_parts(count)
    }

    // whether `count` bits, one at least, lie in one octet
    #[inline(always)]
    fn is_in_one_octet(&self, count: u8) -> bool
        ensures { (result ≡ true) ↔ ((0 < count) × (count ≤ 8 - self.now.at % 8)) }
    {
        0 < count && (count <= self.left || self.left == 0 && count <= 8)
    }

    // at an octet: reads as many octets as hold `count` bits, and leaves the bits of the last of them that are more
    #[inline(always)]
    fn take_from_octets(&mut self, count: u8) -> Result<u64, PerFault>
        requires most { count ≤ 64 }
        requires whole { self.old.at % 8 ≡ 0 }
        requires octets { length self.old.rest % 8 ≡ 0 }
        ensures { Answers (λ n. n) result self.new (number_bits_at count self.old) }
    {
        let octets = (count + 7) / 8;
        let number = self.number_here(octets)?;
        let more = 8 * octets - count;
        self.leave(more, (number % (1u64 << more)) as u8);
        Ok(number >> more)
    }

    // at an octet: the last `count` bits of the octet before it, as a number, are still to be read
    #[inline(always)]
    fn leave(&mut self, count: u8, number: u8)
        requires whole { self.old.at % 8 ≡ 0 }
        requires few { count < 8 }
        requires before { count ≤ self.old.at }
        requires fits { number < 2 ^ count }
        ensures { self.new ≡ record { at = self.old.at - count; rest = bits count number ++ self.old.rest } }
    {
        self.current = number;
        self.left = count;
    }

    fn take_parts(&mut self, count: u8) -> Result<u64, PerFault>
        requires { count ≤ 64 }
        ensures { Answers (λ n. n) result self.new (number_bits_at count self.old) }
    {
        let mut number = 0u64;
        let mut wanted = count;
        while wanted > 0 {
            let (some, part) = self.take_part(wanted)?;
            number = with_part(number, some, part);
            wanted -= some;
        }
        Ok(number)
    }

    // bits of one octet, at most `most`: how many, and the number that they stand for
    #[inline(always)]
    fn take_part(&mut self, most: u8) -> Result<(u8, u8), PerFault>
        requires { 0 < most }
        ensures { TakesPart most result self.old self.new }
    {
        if self.left == 0 {
            if self.begun == self.octets.len() {
                return Err(PerFault::Truncated);
            }
            let octet = self.octets[self.begun];
            self.begun += 1;
            if most >= 8 {
                return Ok((8, octet));
            }
            let (part, current) = split(octet, 8, most);
            self.current = current;
            self.left = 8 - most;
            return Ok((most, part));
        }
        let some = most.min(self.left);
        let (part, current) = split(self.current, self.left, some);
        self.current = current;
        self.left -= some;
        Ok((some, part))
    }

    /// Up to the next octet: the bits until there are 0, else Padding.
    #[inline(always)]
    pub fn align(&mut self) -> Result<(), PerFault>
        ensures { Answers (λ _. tt) result self.new (align_at self.old) }
    {
        if self.current != 0 {
            return Err(PerFault::Padding);
        }
        self.left = 0;
        Ok(())
    }

    /// `count` octets from the next octet on, lent by the encoding; Padding comes before Truncated.
    pub fn take_octets(&mut self, count: usize) -> Result<&'a [u8], PerFault>
        ensures { Answers (λ s. s.now) result self.new (aligned_octets_at count self.old) }
    {
        self.align()?;
        self.octets_here(count)
    }

    /// The end of a complete encoding: zero up to the next octet, else Padding, and nothing after it, else Trailing.
    #[tactic(auto, unfolding(crate::specs::Bits::end_at))]
    pub fn end(&mut self) -> Result<(), PerFault>
        ensures { Answers (λ _. tt) result self.new (end_at self.old) }
    {
        self.align()?;
        if !self.is_spent() {
            return Err(PerFault::Trailing);
        }
        Ok(())
    }

    // at an octet
    fn is_spent(&self) -> bool
        requires { self.now.at % 8 ≡ 0 }
        ensures { result ≡ eqb (length self.now.rest) 0 }
    {
        self.begun == self.octets.len()
    }

    /// Fills octets from the next bits, not aligned; refused, they are as they were.
    #[inline(always)]
    pub fn fill(&mut self, out: &mut [u8]) -> Result<(), PerFault>
        ensures reads { Answers (λ _. out.new) result self.new (whole_octets_at (length out.old) self.old) }
        ensures err { OnErr result (out.new ≡ out.old) }
    {
        if self.left == 0 {
            let octets = self.octets_here(out.len())?;
            out.copy_from_slice(octets);
            return Ok(());
        }
        if self.octets.len() - self.begun < out.len() {
            return Err(PerFault::Truncated);
        }
        self.fill_each(out)
    }

    // where the last octet is not read to its end, and bits enough are left
    fn fill_each(&mut self, out: &mut [u8]) -> Result<(), PerFault>
        requires { 8 * length out.old ≤ length self.old.rest }
        ensures reads { Answers (λ _. out.new) result self.new (whole_octets_at (length out.old) self.old) }
        ensures ok { IsOk result }
    {
        for octet in out {
            *octet = self.take_bits(8)? as u8;
        }
        Ok(())
    }

    /// The next two octets, where the place is at an octet and two are left; nothing is taken.
    #[inline(always)]
    pub fn next_two(&self) -> Option<[u8; 2]>
        ensures { result ≡ two_at self.now }
    {
        if self.left != 0 || self.octets.len() - self.begun < 2 {
            return None;
        }
        Some([self.octets[self.begun], self.octets[self.begun + 1]])
    }

    /// Past the next two octets, where the place is at an octet and two are left.
    #[inline(always)]
    pub fn pass_two(&mut self)
        requires { IsSome (two_at self.old) }
        ensures { self.new ≡ past_two self.old }
    {
        self.begun += 2;
    }

    /// `count` octets, where the place is at an octet, lent by the encoding; fewer left is Truncated.
    #[inline(always)]
    pub fn octets_here(&mut self, count: usize) -> Result<&'a [u8], PerFault>
        requires { self.old.at % 8 ≡ 0 }
        ensures { Answers (λ s. s.now) result self.new (whole_octets_at count self.old) }
    {
        let rest = &self.octets[self.begun..];
        if rest.len() < count {
            return Err(PerFault::Truncated);
        }
        self.begun += count;
        Ok(&rest[..count])
    }

    /// The number that `count` octets stand for, the first of them the highest, where the place is at an octet; at most 8.
    #[inline(always)]
    pub fn number_here(&mut self, count: u8) -> Result<u64, PerFault>
        requires most { count ≤ 8 }
        requires whole { self.old.at % 8 ≡ 0 }
        ensures { Answers (λ n. n) result self.new (number_bits_at (8 * count) self.old) }
    {
        let octets = self.octets_here(count as usize)?;
        Ok(number_of_octets(octets))
    }
}

/// The first of the bits of a number, and the number of the others.
fn split_bit(current: u8, left: u8) -> (bool, u8)
    requires some { 0 < left }
    requires octet { left ≤ 8 }
    requires fits { current < 2 ^ left }
    ensures parts { bits left current ≡ result.0 ∷ bits (left - 1) result.1 }
    ensures fits { result.1 < 2 ^ (left - 1) }
{
    let (part, lower) = split(current, left, 1);
    (part == 1, lower)
}

/// The first bits of a number of `left` bits, and the others, each as a number.
fn split(current: u8, left: u8, some: u8) -> (u8, u8)
    requires some { 0 < some }
    requires most { some ≤ left }
    requires octet { left ≤ 8 }
    requires fits { current < 2 ^ left }
    ensures parts { bits left current ≡ bits some result.0 ++ bits (left - some) result.1 }
    ensures part { result.0 < 2 ^ some }
    ensures rest { result.1 < 2 ^ (left - some) }
{
    let lower = left - some;
    (current >> lower, current % (1u8 << lower))
}

/// A number with `some` bits more at its end.
fn with_part(number: u64, some: u8, part: u8) -> u64
    requires some { some ≤ 8 }
    requires fits { number * 2 ^ some + part < 2 ^ 64 }
    ensures { result ≡ number * 2 ^ some + part }
{
    number * (1u64 << some) + part as u64
}

/// The number that at most eight octets stand for, the first of them the highest.
#[inline(always)]
fn number_of_octets(octets: &[u8]) -> u64
    requires { length octets.now ≤ 8 }
    ensures { result ≡ value (octet_bits octets.now) }
{
    let mut number = 0u64;
    for octet in octets {
        number = number * 256 + u64::from(*octet);
    }
    number
}
