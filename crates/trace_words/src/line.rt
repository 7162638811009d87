//! One line of a trace.

ghost use Rattle.std.specs.Prelude.{◌≡◌, ◌⊎◌, ◌==◌, ◌∷◌, [], map, IfOk, IfSome, Ok, Err};
ghost use Rattle.std.specs.List.{slice_split};
ghost use Rattle.std.specs.Result.{result_map_both};
ghost use Rattle.trace_words.specs.Trace.{line_of, mme_of, sub_of, vec_of, read_mme, read_sub, read_vec, read_up, read_lost, read_in, read_tick, read_data, read_cancel, read_show, read_event, read_words};
ghost use Rattle.trace_words.specs.declared.line.Line.TheVariants.{Up, Lost, In, Data, Cancel, Show};

use crate::fault::TraceFault;
use crate::fields::{
    bit_rate, imsi, is_named, label, octets, plmn, sized_octets, station, ticks, xres,
};
use crate::values::{TraceOctets, TraceTicks};
use identity_slots::{GivenKasme, Profile, StationNumber, Vector};
use memchr::memchr;
use mme_types::Network;
use nas_elements::Imsi;
use per_bits::Octets;
use std::alloc::{AllocError, Global};

/// What a line of a trace says.
#[derive(Drop)]
pub enum Line {
    /// Nothing: it is empty, or a comment.
    Skip,
    /// `mme MCC MNC GROUP CODE APN AMBRDOWN AMBRUP`: what the MME is, and what it grants each phone.
    Mme(Network),
    /// `sub IMSI ADDRESS SGW TEID`: a subscriber is provisioned.
    Sub(Profile),
    /// `vec IMSI RAND AUTN XRES KASME`: a subscriber is given an authentication vector.
    Vec(Imsi, Vector),
    /// `up E`: a station connects.
    Up(StationNumber),
    /// `lost E`: a station's connection is lost.
    Lost(StationNumber),
    /// `in E OCTETS`: a station sends one whole message.
    In(StationNumber, TraceOctets),
    /// `tick N`: N seconds pass.
    Tick(TraceTicks),
    /// `data IMSI`: downlink data waits for a subscriber.
    Data(Imsi),
    /// `cancel IMSI`: a subscription is withdrawn.
    Cancel(Imsi),
    /// `show IMSI`: the states of a subscriber are asked for.
    Show(Imsi),
}

/// The most octets of a line, without its LF.
pub const LONGEST_LINE: usize = 40000;

/// As many words as a good line of a trace has at most: room for them is taken at once.
const USUAL_WORDS: usize = 8;

/// What `line_of` says of a line of a trace, given without its LF, or its fault. Only NoMemory may stand in place of that.
///
/// The first fault of TooLong, UnknownWord, FieldCount, and then BadNumber or BadHex of the leftmost field that has one.
#[tactic(auto, unfolding(crate::specs::Trace::line_of))]
pub fn parse_line(alloc: Global, line: &[u8]) -> Result<Line, TraceFault>
    ensures { (result ≡ Err TraceFault.NoMemory) ⊎ (result ≡ line_of line.now) }
{
    if line.len() > LONGEST_LINE {
        return Err(TraceFault::TooLong);
    }
    if line.is_empty() || line[0] == b'#' {
        return Ok(Line::Skip);
    }
    match good_in(alloc, line) {
        Ok(Some((from, octets))) => Ok(Line::In(from, octets)),
        Ok(None) => parse_any(alloc, line),
        Err(_) => Err(TraceFault::NoMemory),
    }
}

/// What a good line `in E OCTETS` says, as most lines are; it needs no list of words. Nothing is said of any other line.
fn good_in(alloc: Global, line: &[u8]) -> Result<Option<(StationNumber, TraceOctets)>, AllocError>
    ensures { IfOk result
        (λ good. IfSome good (λ fields. read_words (slice_split (λ c. c == 32) line.now) ≡ Ok (In fields.0 fields.1))) }
{
    let Some(fields) = line.strip_prefix(b"in ".as_slice()) else {
        return Ok(None);
    };
    let Some(at) = memchr(b' ', fields) else {
        return Ok(None);
    };
    let Ok(from) = station(&fields[..at]) else {
        return Ok(None);
    };
    match octets(alloc, &fields[at + 1..]) {
        Ok(sent) => Ok(Some((from, sent))),
        Err(TraceFault::NoMemory) => Err(AllocError),
        Err(_) => Ok(None),
    }
}

/// What a line says by its words, where it is neither too long, nor empty, nor a comment.
fn parse_any(alloc: Global, line: &[u8]) -> Result<Line, TraceFault>
    ensures { (result ≡ Err TraceFault.NoMemory) ⊎ (result ≡ read_words (slice_split (λ c. c == 32) line.now)) }
{
    if let Some((word, field)) = two_words(line) {
        return parse_words(alloc, &[word, field]);
    }
    match split_words(alloc, line) {
        Ok(words) => parse_words(alloc, words.as_slice()),
        Err(_) => Err(TraceFault::NoMemory),
    }
}

/// The two words of a line that has no more, as a notice, a tick or a question has; they need no list.
fn two_words(line: &[u8]) -> Option<(&[u8], &[u8])>
    ensures { IfSome result (λ words. slice_split (λ c. c == 32) line.now ≡ words.0.now ∷ words.1.now ∷ []) }
{
    let at = memchr(b' ', line)?;
    let field = &line[at + 1..];
    match memchr(b' ', field) {
        Some(_) => None,
        None => Some((&line[..at], field)),
    }
}

/// The words of a line: its parts between single spaces, at least one.
pub(crate) fn split_words(alloc: Global, line: &[u8]) -> Result<Vec<&[u8]>, AllocError>
    ensures { IfOk result (λ v. map (λ w. w.now) v.items ≡ slice_split (λ c. c == 32) line.now) }
{
    let mut words = Vec::with_capacity(alloc, USUAL_WORDS)?;
    let mut rest = line;
    while let Some(at) = memchr(b' ', rest) {
        words.push(&rest[..at])?;
        rest = &rest[at + 1..];
    }
    words.push(rest)?;
    Ok(words)
}

/// What a line says by its words, where it is neither empty nor a comment; faults as in `parse_line`.
pub(crate) fn parse_words(alloc: Global, words: &[&[u8]]) -> Result<Line, TraceFault>
    ensures { (result ≡ Err TraceFault.NoMemory) ⊎ (result ≡ read_words (map (λ w. w.now) words.now)) }
{
    let Some((word, fields)) = words.split_first() else {
        return Err(TraceFault::UnknownWord);
    };
    if is_named(word, "mme") {
        return parse_mme(fields);
    }
    if is_named(word, "sub") {
        return parse_sub(fields);
    }
    if is_named(word, "vec") {
        return parse_vec(alloc, fields);
    }
    parse_event(alloc, word, fields)
}

fn parse_event(alloc: Global, word: &[u8], fields: &[&[u8]]) -> Result<Line, TraceFault>
    ensures { (result ≡ Err TraceFault.NoMemory) ⊎ (result ≡ read_event word.now (map (λ f. f.now) fields.now)) }
{
    if is_named(word, "up") {
        return lone_station(fields).map(Line::Up);
    }
    if is_named(word, "lost") {
        return lone_station(fields).map(Line::Lost);
    }
    if is_named(word, "in") {
        return parse_in(alloc, fields);
    }
    if is_named(word, "tick") {
        return parse_tick(fields);
    }
    if is_named(word, "data") {
        return lone_subscriber(fields).map(Line::Data);
    }
    if is_named(word, "cancel") {
        return lone_subscriber(fields).map(Line::Cancel);
    }
    if is_named(word, "show") {
        return lone_subscriber(fields).map(Line::Show);
    }
    Err(TraceFault::UnknownWord)
}

fn parse_mme(fields: &[&[u8]]) -> Result<Line, TraceFault>
    ensures { result ≡ read_mme (map (λ f. f.now) fields.now) }
{
    match fields {
        [country, network, group, code, apn, down, up] => {
            mme_line(country, network, group, code, apn, down, up)
        }
        _ => Err(TraceFault::FieldCount),
    }
}

fn mme_line(
    country: &[u8],
    network: &[u8],
    group: &[u8],
    code: &[u8],
    apn: &[u8],
    down: &[u8],
    up: &[u8],
) -> Result<Line, TraceFault>
    ensures { result ≡ mme_of country.now network.now group.now code.now apn.now down.now up.now }
{
    Ok(Line::Mme(Network {
        plmn: Octets::new(plmn(country, network)?),
        group: Octets::new(sized_octets::<2>(group)?),
        code: Octets::new(sized_octets::<1>(code)?),
        apn: label(apn)?,
        down: bit_rate(down)?,
        up: bit_rate(up)?,
    }))
}

fn parse_sub(fields: &[&[u8]]) -> Result<Line, TraceFault>
    ensures { result ≡ read_sub (map (λ f. f.now) fields.now) }
{
    match fields {
        [subscriber, address, gateway, teid] => sub_line(subscriber, address, gateway, teid),
        _ => Err(TraceFault::FieldCount),
    }
}

fn sub_line(
    subscriber: &[u8],
    address: &[u8],
    gateway: &[u8],
    teid: &[u8],
) -> Result<Line, TraceFault>
    ensures { result ≡ sub_of subscriber.now address.now gateway.now teid.now }
{
    Ok(Line::Sub(Profile {
        imsi: imsi(subscriber)?,
        address: sized_octets::<4>(address)?,
        gateway: sized_octets::<4>(gateway)?,
        teid: sized_octets::<4>(teid)?,
    }))
}

fn parse_vec(alloc: Global, fields: &[&[u8]]) -> Result<Line, TraceFault>
    ensures { (result ≡ Err TraceFault.NoMemory) ⊎ (result ≡ read_vec (map (λ f. f.now) fields.now)) }
{
    match fields {
        [subscriber, rand, autn, answer, kasme] => {
            vec_line(alloc, subscriber, rand, autn, answer, kasme)
        }
        _ => Err(TraceFault::FieldCount),
    }
}

fn vec_line(
    alloc: Global,
    subscriber: &[u8],
    rand: &[u8],
    autn: &[u8],
    answer: &[u8],
    kasme: &[u8],
) -> Result<Line, TraceFault>
    ensures { (result ≡ Err TraceFault.NoMemory)
        ⊎ (result ≡ vec_of subscriber.now rand.now autn.now answer.now kasme.now) }
{
    let of = imsi(subscriber)?;
    let vector = Vector {
        rand: sized_octets::<16>(rand)?,
        autn: sized_octets::<16>(autn)?,
        xres: xres(alloc, answer)?,
        kasme: GivenKasme::new(sized_octets::<32>(kasme)?),
    };
    Ok(Line::Vec(of, vector))
}

/// The station of a line that names nothing else.
fn lone_station(fields: &[&[u8]]) -> Result<StationNumber, TraceFault>
    ensures up { result_map_both Up (λ e. e) result ≡ read_up (map (λ f. f.now) fields.now) }
    ensures lost { result_map_both Lost (λ e. e) result ≡ read_lost (map (λ f. f.now) fields.now) }
{
    match fields {
        [number] => station(number),
        _ => Err(TraceFault::FieldCount),
    }
}

fn parse_in(alloc: Global, fields: &[&[u8]]) -> Result<Line, TraceFault>
    ensures { (result ≡ Err TraceFault.NoMemory) ⊎ (result ≡ read_in (map (λ f. f.now) fields.now)) }
{
    match fields {
        [number, hex] => {
            let from = station(number)?;
            Ok(Line::In(from, octets(alloc, hex)?))
        }
        _ => Err(TraceFault::FieldCount),
    }
}

fn parse_tick(fields: &[&[u8]]) -> Result<Line, TraceFault>
    ensures { result ≡ read_tick (map (λ f. f.now) fields.now) }
{
    match fields {
        [number] => Ok(Line::Tick(ticks(number)?)),
        _ => Err(TraceFault::FieldCount),
    }
}

/// The subscriber of a line that names nothing else.
fn lone_subscriber(fields: &[&[u8]]) -> Result<Imsi, TraceFault>
    ensures data { result_map_both Data (λ e. e) result ≡ read_data (map (λ f. f.now) fields.now) }
    ensures cancel { result_map_both Cancel (λ e. e) result ≡ read_cancel (map (λ f. f.now) fields.now) }
    ensures show { result_map_both Show (λ e. e) result ≡ read_show (map (λ f. f.now) fields.now) }
{
    match fields {
        [subscriber] => imsi(subscriber),
        _ => Err(TraceFault::FieldCount),
    }
}
