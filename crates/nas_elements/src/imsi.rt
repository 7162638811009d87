//! IMSIs (TS 23.003 clause 2.2).

ghost use Rattle.std.specs.Prelude.{◌≡◌, ◌+◌, ◌*◌, ◌<◌, ◌≤◌, ◌++◌, length, map, IfErr, OnErr, OnOk, ok_or, true};
ghost use Rattle.nas_elements.specs.Digits.{are_digits, imsi_checked, imsi_octets, imsi_of, imsi_of_text, imsi_text, is_digit, is_digit_text, is_imsi};
ghost use Rattle.std.specs.List.{list_all};

use crate::fault::NasFault;
use arrayvec::{ArrayString, ArrayVec};
use std::marker::Model;

/// A phone's IMSI: fourteen or fifteen digits. Contracts see fifteen half octets, the last of which is 15 where there are
/// fourteen digits.
#[derive(Clone, Copy, PartialEq, Eq)]
pub struct Imsi {
    digits: [u8; 15],
}

impl Model for Imsi {
    ghost use Rattle.std.specs.Prelude.{◌≡◌, ℕ, List, true};
    ghost use Rattle.nas_elements.specs.Digits.{is_imsi};

    ghost Value = { List ℕ };

    ghost view = { λ i. i.digits };

    ghost invariant = { λ i. is_imsi i.digits ≡ true };

    ghost inverse = { λ ds. record { digits = ds } };
}

fn are_digits(digits: &[u8]) -> bool
    ensures { result ≡ are_digits digits.now }
{
    digits.iter().all(|digit| *digit < 10)
}

#[tactic(auto, unfolding(crate::specs::Digits::is_imsi))]
fn is_imsi(digits: &[u8; 15]) -> bool
    ensures { result ≡ is_imsi digits.now }
{
    let last = digits[14];
    if !are_digits(&digits[..14]) {
        return false;
    }
    last < 10 || last == 15
}

fn are_text_digits(text: &[u8]) -> bool
    ensures { result ≡ list_all is_digit text.now }
{
    text.iter().all(|octet| 48 <= *octet && *octet <= 57)
}

fn is_digit_text(text: &[u8]) -> bool
    ensures { result ≡ is_digit_text text.now }
{
    (text.len() == 14 || text.len() == 15) && are_text_digits(text)
}

impl Imsi {
    #[tactic(auto, unfolding(crate::specs::Digits::imsi_checked))]
    fn checked(digits: [u8; 15], kind: u8) -> Option<Imsi>
        ensures { result ≡ imsi_checked digits kind }
    {
        if !is_imsi(&digits) {
            return None;
        }
        if kind != (if digits[14] == 15 { 1 } else { 9 }) {
            return None;
        }
        Some(Imsi { digits })
    }

    /// The IMSI whose text is these fourteen or fifteen ASCII digits; `None` for any other text.
    #[tactic(auto, unfolding(crate::specs::Digits::imsi_of_text))]
    pub fn try_from_digits(text: &str) -> Option<Imsi>
        ensures { result ≡ imsi_of_text text.now }
    {
        let octets = text.as_bytes();
        if !is_digit_text(octets) {
            return None;
        }
        let mut digits: ArrayVec<u8, 15> = ArrayVec::new();
        for octet in octets {
            digits.push(*octet - 48);
        }
        if octets.len() == 14 {
            digits.push(15);
        }
        Some(Imsi {
            digits: digits.into_inner().unwrap(),
        })
    }

    /// Its fourteen or fifteen digits as text.
    #[tactic(auto, unfolding(crate::specs::Digits::imsi_text))]
    pub fn digits(&self) -> ArrayString<15>
        ensures { result.bytes ≡ imsi_text self.now }
    {
        if self.digits[14] == 15 {
            return text_of(&self.digits[..14]);
        }
        text_of(&self.digits)
    }

    /// The IMSI that these octets are: exactly eight, of the type 1, with bit 4 of the first set where the number of digits
    /// is odd, digits alone and the filler f; else the fault Mandatory (TS 24.301 clause 9.9.3.12).
    pub fn read(octets: &[u8]) -> Result<Imsi, NasFault>
        ensures { result ≡ ok_or (imsi_of octets.now) NasFault.Mandatory }
    {
        Imsi::of_octets(octets).ok_or(NasFault::Mandatory)
    }

    #[tactic(auto, unfolding(crate::specs::Digits::imsi_of))]
    pub(crate) fn of_octets(octets: &[u8]) -> Option<Imsi>
        ensures { result ≡ imsi_of octets.now }
    {
        if octets.len() != 8 {
            return None;
        }
        let digits = [
            octets[0] / 16,
            octets[1] % 16,
            octets[1] / 16,
            octets[2] % 16,
            octets[2] / 16,
            octets[3] % 16,
            octets[3] / 16,
            octets[4] % 16,
            octets[4] / 16,
            octets[5] % 16,
            octets[5] / 16,
            octets[6] % 16,
            octets[6] / 16,
            octets[7] % 16,
            octets[7] / 16,
        ];
        Imsi::checked(digits, octets[0] % 16)
    }

    /// Its eight octets.
    #[tactic(auto, unfolding(crate::specs::Digits::imsi_octets))]
    pub fn octets(&self) -> [u8; 8]
        ensures { result ≡ imsi_octets self.now }
    {
        let d = self.digits;
        let kind = if d[14] == 15 { 1 } else { 9 };
        [
            packed(d[0], kind),
            packed(d[2], d[1]),
            packed(d[4], d[3]),
            packed(d[6], d[5]),
            packed(d[8], d[7]),
            packed(d[10], d[9]),
            packed(d[12], d[11]),
            packed(d[14], d[13]),
        ]
    }

    /// Appends its eight octets; where that is refused, with the fault NoMemory, `out` is as before.
    pub fn write(&self, out: &mut Vec<u8>) -> Result<(), NasFault>
        ensures ok { OnOk result (out.new.items ≡ out.old.items ++ imsi_octets self.now) }
        ensures err { OnErr result (out.new.items ≡ out.old.items) }
        ensures memory { IfErr result (λ fault. fault ≡ NasFault.NoMemory) }
    {
        Ok(out.extend_from_slice(&self.octets())?)
    }
}

fn text_of(digits: &[u8]) -> ArrayString<15>
    requires few { length digits.now ≤ 15 }
    requires small { are_digits digits.now ≡ true }
    ensures { result.bytes ≡ map (λ d. 48 + d) digits.now }
{
    let mut text = ArrayString::new();
    for digit in digits {
        text.push(char::from(48 + *digit));
    }
    text
}

/// Two half octets in one.
fn packed(high: u8, low: u8) -> u8
    requires first { high < 16 }
    requires second { low < 16 }
    ensures { result ≡ high * 16 + low }
{
    high * 16 + low
}
