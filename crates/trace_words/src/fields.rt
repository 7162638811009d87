//! The fields of a line, each from its text.

ghost use Rattle.std.specs.Prelude.{◌≡◌, ◌⊎◌, ◌<◌, ◌≤◌, ◌^◌, ◌*◌, length, IfOk, Ok, Err};
ghost use Rattle.std.specs.Str.{bytes_eq};
ghost use Rattle.trace_words.specs.Trace.{capped, decimal_of, number_field, station_field, rate_field, digit_of, country_of, network_of, plmn_field, octets_field, sized_of, label_field, ticks_field, xres_field, subscriber_field};

use crate::fault::TraceFault;
use crate::values::{TraceOctets, TraceTicks};
use hex::FromHexError;
use identity_slots::{StationNumber, Xres};
use mme_types::{AggregateBitRate, Apn};
use nas_elements::Imsi;
use std::alloc::Global;

/// Whether a word of a line is this one.
pub(crate) fn is_named(word: &[u8], name: &str) -> bool
    ensures { result ≡ bytes_eq word.now name.now }
{
    word == name.as_bytes()
}

/// A number in decimal digits that is at most `most`.
pub(crate) fn decimal(text: &[u8], most: u64) -> Option<u64>
    requires { most < 2 ^ 60 }
    ensures { result ≡ capped most (decimal_of text.now) }
{
    if text.is_empty() {
        return None;
    }
    let mut value = 0u64;
    for byte in text {
        if !byte.is_ascii_digit() {
            return None;
        }
        value = value * 10 + u64::from(*byte - b'0');
        if value > most {
            return None;
        }
    }
    Some(value)
}

/// A number in decimal digits from `least` to `most`, else BadNumber.
pub(crate) fn number(text: &[u8], least: u64, most: u64) -> Result<u64, TraceFault>
    requires { most < 2 ^ 60 }
    ensures value { result ≡ number_field least most text.now }
    ensures range { IfOk result (λ n. (least ≤ n) × (n ≤ most)) }
{
    match decimal(text, most) {
        Some(value) if value >= least => Ok(value),
        _ => Err(TraceFault::BadNumber),
    }
}

/// The number of a station, 0 to 127, else BadNumber.
pub(crate) fn station(text: &[u8]) -> Result<StationNumber, TraceFault>
    ensures { result ≡ station_field text.now }
{
    let value = number(text, 0, 127)?;
    Ok(StationNumber::new(value as u8))
}

pub(crate) fn bit_rate(text: &[u8]) -> Result<AggregateBitRate, TraceFault>
    ensures { result ≡ rate_field text.now }
{
    let rate = number(text, 1, 10_000_000_000)?;
    Ok(AggregateBitRate::new(rate))
}

pub(crate) fn ticks(text: &[u8]) -> Result<TraceTicks, TraceFault>
    ensures { result ≡ ticks_field text.now }
{
    let ticks = number(text, 1, 1_000_000)?;
    Ok(TraceTicks::new(ticks as u32))
}

fn digit(octet: u8) -> Result<u8, TraceFault>
    ensures value { result ≡ digit_of octet }
    ensures small { IfOk result (λ d. d ≤ 9) }
{
    if octet.is_ascii_digit() {
        Ok(octet - b'0')
    } else {
        Err(TraceFault::BadNumber)
    }
}

/// Three digits, as those of a country.
fn three_digits(text: &[u8]) -> Result<(u8, u8, u8), TraceFault>
    ensures value { result ≡ country_of text.now }
    ensures small { IfOk result (λ d. (d.0 ≤ 15) × (d.1 ≤ 15) × (d.2 ≤ 15)) }
{
    match text {
        [a, b, c] => Ok((digit(*a)?, digit(*b)?, digit(*c)?)),
        _ => Err(TraceFault::BadNumber),
    }
}

/// The two or three digits of a network, with the filler before two.
fn network(text: &[u8]) -> Result<(u8, u8, u8), TraceFault>
    ensures value { result ≡ network_of text.now }
    ensures small { IfOk result (λ d. (d.0 ≤ 15) × (d.1 ≤ 15) × (d.2 ≤ 15)) }
{
    match text {
        [a, b] => Ok((15, digit(*a)?, digit(*b)?)),
        _ => three_digits(text),
    }
}

/// The octets that name a network, from the digits of its country and its own.
pub(crate) fn plmn(country_text: &[u8], network_text: &[u8]) -> Result<[u8; 3], TraceFault>
    ensures { result ≡ plmn_field country_text.now network_text.now }
{
    let of_country = three_digits(country_text)?;
    let of_network = network(network_text)?;
    Ok([
        16 * of_country.1 + of_country.0,
        16 * of_network.0 + of_country.2,
        16 * of_network.2 + of_network.1,
    ])
}

/// Octets: `-` for none, or hex digits of either case, else BadHex.
pub(crate) fn octets(alloc: Global, text: &[u8]) -> Result<TraceOctets, TraceFault>
    ensures { (result ≡ Err TraceFault.NoMemory) ⊎ (result ≡ octets_field text.now) }
{
    if text.is_empty() {
        return Err(TraceFault::BadHex);
    }
    if text == b"-".as_slice() {
        return Ok(TraceOctets::none());
    }
    match TraceOctets::from_hex(alloc, text) {
        Ok(octets) => Ok(octets),
        Err(FromHexError::OutOfMemory) => Err(TraceFault::NoMemory),
        Err(_) => Err(TraceFault::BadHex),
    }
}

/// `N` octets in hex, no more and no fewer, else BadHex.
pub(crate) fn sized_octets<const N: usize>(text: &[u8]) -> Result<[u8; N], TraceFault>
    requires { N < 2 ^ 32 }
    ensures { result ≡ sized_of N text.now }
{
    let mut octets = [0u8; N];
    match hex::decode_to_slice(text, &mut octets) {
        Ok(()) => Ok(octets),
        Err(_) => Err(TraceFault::BadHex),
    }
}

pub(crate) fn label(text: &[u8]) -> Result<Apn, TraceFault>
    ensures { result ≡ label_field text.now }
{
    Apn::try_new(text).ok_or(TraceFault::BadNumber)
}

/// An IMSI in its fourteen or fifteen digits, else BadNumber.
pub fn imsi(text: &[u8]) -> Result<Imsi, TraceFault>
    ensures { result ≡ subscriber_field text.now }
{
    match str::from_utf8(text) {
        Ok(digits) => Imsi::try_from_digits(digits).ok_or(TraceFault::BadNumber),
        Err(_) => Err(TraceFault::BadNumber),
    }
}

pub(crate) fn xres(alloc: Global, text: &[u8]) -> Result<Xres, TraceFault>
    ensures { (result ≡ Err TraceFault.NoMemory) ⊎ (result ≡ xres_field text.now) }
{
    match hex::decode(alloc, text) {
        Ok(octets) => Xres::try_new(octets.as_slice()).ok_or(TraceFault::BadHex),
        Err(FromHexError::OutOfMemory) => Err(TraceFault::NoMemory),
        Err(_) => Err(TraceFault::BadHex),
    }
}
