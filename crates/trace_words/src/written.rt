//! How a line of a trace is written.

ghost use Rattle.std.specs.Prelude.{◌≡◌, ◌≤◌, ◌++◌, ℕ, List, codes, length, true, IfOk, OnOk, Ok, string_bytes};
ghost use Rattle.std.specs.Fmt.{decimal};
ghost use Rattle.hex.specs.Hex.{encode_lower};
ghost use Rattle.nas_elements.specs.Digits.{imsi_text};
ghost use Rattle.trace_words.specs.Trace.{◌␣◌, line_of, line_text, octets_text, country_text, network_text};
ghost use Rattle.trace_words.specs.Lines.{is_unbroken};
ghost use Rattle.trace_words.specs.declared.line.Line.TheVariants.{Mme, Sub, Vec, Up, Lost, In};

use crate::line::Line;
use identity_slots::{Profile, StationNumber, Vector};
use mme_types::Network;
use nas_elements::{Imsi, text_is_imsi};
use std::alloc::{AllocError, Global};

/// The text of a line, without an LF, which is read as this line.
///
/// It has one spelling: numbers without leading zeros, octets in lower case. It is read as this line, where any text is. A line
/// that says nothing is the empty text.
pub fn write_line(alloc: Global, line: &Line) -> Result<String, AllocError>
    ensures text { IfOk result (λ text. string_bytes text ≡ line_text line.now) }
    ensures read { IfOk result
        (λ text. (source : List ℕ) → line_of source ≡ Ok line.now → line_of (string_bytes text) ≡ Ok line.now) }
{
    // What is written of an IMSI is what it was read from.
    text_is_imsi();
    let text = line_as_text(alloc, line)?;
    Ok(text)
}

#[tactic(auto, unfolding(crate::specs::Trace::line_text))]
fn line_as_text(alloc: Global, line: &Line) -> Result<String, AllocError>
    ensures { IfOk result (λ text. string_bytes text ≡ line_text line.now) }
{
    match line {
        Line::Skip => Ok(String::new(alloc)),
        Line::Mme(network) => write_mme(alloc, network),
        Line::Sub(profile) => write_sub(alloc, profile),
        Line::Vec(imsi, vector) => write_vec(alloc, imsi, vector),
        Line::Up(station) => write_up(alloc, *station),
        Line::Lost(station) => write_lost(alloc, *station),
        Line::In(station, octets) => write_in(alloc, *station, octets.as_slice()),
        Line::Tick(ticks) => write_number(alloc, "tick", ticks.get()),
        Line::Data(imsi) => write_imsi(alloc, "data", imsi),
        Line::Cancel(imsi) => write_imsi(alloc, "cancel", imsi),
        Line::Show(imsi) => write_imsi(alloc, "show", imsi),
    }
}

#[tactic(auto, unfolding(crate::specs::Trace::line_text))]
fn write_mme(alloc: Global, network: &Network) -> Result<String, AllocError>
    ensures { IfOk result (λ text. string_bytes text ≡ line_text (Mme network.now)) }
{
    let mut text = write_plmn(alloc, &network.plmn.get())?;
    push_octets(alloc, &mut text, network.group.as_slice())?;
    push_octets(alloc, &mut text, network.code.as_slice())?;
    push_field(&mut text, network.apn.as_str())?;
    push_number(&mut text, network.down.get())?;
    push_number(&mut text, network.up.get())?;
    Ok(text)
}

/// The line of an MME as far as its network.
fn write_plmn(alloc: Global, plmn: &[u8; 3]) -> Result<String, AllocError>
    ensures { IfOk result (λ text. string_bytes text ≡ codes "mme" ␣ country_text plmn.now ␣ network_text plmn.now) }
{
    let country = write_country(alloc, plmn)?;
    let network = write_network(alloc, plmn)?;
    format!(in alloc; "mme {country} {network}")
}

fn write_country(alloc: Global, plmn: &[u8; 3]) -> Result<String, AllocError>
    ensures { IfOk result (λ text. string_bytes text ≡ country_text plmn.now) }
{
    three_digits(alloc, plmn[0] % 16, plmn[0] / 16, plmn[1] % 16)
}

fn write_network(alloc: Global, plmn: &[u8; 3]) -> Result<String, AllocError>
    ensures { IfOk result (λ text. string_bytes text ≡ network_text plmn.now) }
{
    if plmn[1] / 16 == 15 {
        return two_digits(alloc, plmn[2] % 16, plmn[2] / 16);
    }
    three_digits(alloc, plmn[1] / 16, plmn[2] % 16, plmn[2] / 16)
}

fn two_digits(alloc: Global, first: u8, second: u8) -> Result<String, AllocError>
    ensures { IfOk result (λ text. string_bytes text ≡ decimal first ++ decimal second) }
{
    format!(in alloc; "{first}{second}")
}

fn three_digits(alloc: Global, first: u8, second: u8, third: u8) -> Result<String, AllocError>
    ensures { IfOk result (λ text. string_bytes text ≡ decimal first ++ decimal second ++ decimal third) }
{
    format!(in alloc; "{first}{second}{third}")
}

#[tactic(auto, unfolding(crate::specs::Trace::line_text))]
fn write_sub(alloc: Global, profile: &Profile) -> Result<String, AllocError>
    ensures { IfOk result (λ text. string_bytes text ≡ line_text (Sub profile.now)) }
{
    let mut text = write_imsi(alloc, "sub", &profile.imsi)?;
    push_octets(alloc, &mut text, &profile.address)?;
    push_octets(alloc, &mut text, &profile.gateway)?;
    push_octets(alloc, &mut text, &profile.teid)?;
    Ok(text)
}

#[tactic(auto, unfolding(crate::specs::Trace::line_text))]
fn write_vec(alloc: Global, imsi: &Imsi, vector: &Vector) -> Result<String, AllocError>
    ensures { IfOk result (λ text. string_bytes text ≡ line_text (Vec imsi.now vector.now)) }
{
    let mut text = write_imsi(alloc, "vec", imsi)?;
    push_octets(alloc, &mut text, &vector.rand)?;
    push_octets(alloc, &mut text, &vector.autn)?;
    push_octets(alloc, &mut text, vector.xres.as_slice())?;
    push_octets(alloc, &mut text, vector.kasme.octets())?;
    Ok(text)
}

/// The line `up E` without its LF: a station connects.
#[tactic(auto, unfolding(crate::specs::Trace::line_text))]
pub fn write_up(alloc: Global, station: StationNumber) -> Result<String, AllocError>
    ensures text { IfOk result (λ text. string_bytes text ≡ line_text (Up station)) }
    ensures read { IfOk result (λ text. line_of (string_bytes text) ≡ Ok (Up station)) }
    ensures unbroken { IfOk result (λ text. is_unbroken (string_bytes text) ≡ true) }
{
    write_number(alloc, "up", u32::from(station.get()))
}

/// The line `lost E` without its LF: a station's connection is lost.
#[tactic(auto, unfolding(crate::specs::Trace::line_text))]
pub fn write_lost(alloc: Global, station: StationNumber) -> Result<String, AllocError>
    ensures text { IfOk result (λ text. string_bytes text ≡ line_text (Lost station)) }
    ensures read { IfOk result (λ text. line_of (string_bytes text) ≡ Ok (Lost station)) }
    ensures unbroken { IfOk result (λ text. is_unbroken (string_bytes text) ≡ true) }
{
    write_number(alloc, "lost", u32::from(station.get()))
}

/// The line of an event, without an LF, which is read as it; a line `in` only up to 40000 octets.
///
/// The line is `in E OCTETS`: a station sends these octets.
#[tactic(auto, unfolding(crate::specs::Trace::line_text))]
pub fn write_in(alloc: Global, station: StationNumber, octets: &[u8]) -> Result<String, AllocError>
    ensures text { IfOk result (λ text. string_bytes text ≡ line_text (In station octets.now)) }
    ensures read { IfOk result
        (λ text. length (string_bytes text) ≤ 40000 → line_of (string_bytes text) ≡ Ok (In station octets.now)) }
    ensures unbroken { IfOk result (λ text. is_unbroken (string_bytes text) ≡ true) }
{
    let hex = write_octets(alloc, octets)?;
    let number = station.get();
    format!(in alloc; "in {number} {hex}")
}

fn write_number(alloc: Global, word: &str, number: u32) -> Result<String, AllocError>
    ensures { IfOk result (λ text. string_bytes text ≡ word.now ␣ decimal number) }
{
    format!(in alloc; "{word} {number}")
}

fn write_imsi(alloc: Global, word: &str, imsi: &Imsi) -> Result<String, AllocError>
    ensures { IfOk result (λ text. string_bytes text ≡ word.now ␣ imsi_text imsi.now) }
{
    let digits = imsi.digits();
    let imsi = digits.as_str();
    format!(in alloc; "{word} {imsi}")
}

fn push_number(text: &mut String, number: u64) -> Result<(), AllocError>
    ensures { OnOk result (string_bytes text.new ≡ string_bytes text.old ␣ decimal number) }
{
    write!(text, " {number}")
}

fn push_octets(alloc: Global, text: &mut String, octets: &[u8]) -> Result<(), AllocError>
    ensures { OnOk result (string_bytes text.new ≡ string_bytes text.old ␣ encode_lower octets.now) }
{
    let hex = hex::encode(alloc, octets)?;
    push_field(text, hex.as_str())
}

/// Octets in lower case, or `-` for none.
fn write_octets(alloc: Global, octets: &[u8]) -> Result<String, AllocError>
    ensures { IfOk result (λ text. string_bytes text ≡ octets_text octets.now) }
{
    if octets.is_empty() {
        String::from_str(alloc, "-")
    } else {
        hex::encode(alloc, octets)
    }
}

/// Appends a space and a field.
fn push_field(text: &mut String, field: &str) -> Result<(), AllocError>
    ensures { OnOk result (string_bytes text.new ≡ string_bytes text.old ␣ field.now) }
{
    text.push_str(" ")?;
    text.push_str(field)
}
