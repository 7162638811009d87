//! What simulated stations and phones do.

ghost use Rattle.std.specs.Prelude.{◌≡◌, ◌⊎◌, [], ◌∷◌, map, Ok, Err};
ghost use Rattle.trace_words.specs.Script.{radio_word, phone_word, read_act, read_station, station_of, read_up_act, read_raw, read_radio, read_phone};

use crate::fault::TraceFault;
use crate::fields::{imsi, is_named, octets, station};
use crate::script_fields::{enb_ue_id, macro_id, tracking_area};
use crate::script_values::MacroId;
use crate::values::TraceOctets;
use identity_slots::StationNumber;
use nas_elements::Imsi;
use s1ap_elements::EnbUeId;
use std::alloc::Global;

/// What a station or a phone does.
#[derive(Drop)]
pub enum ScriptAct {
    /// `station E ID TAC`: there is such a station.
    Station(StationLine),
    /// `up E`: the station connects, and is set up.
    Up(StationNumber),
    /// `raw E OCTETS`: the station sends these octets.
    Raw(StationNumber, TraceOctets),
    /// `WORD IMSI E B`: the phone does this at a station, by its eNB UE S1AP ID.
    Radio(RadioWord, Imsi, RadioPlace),
    /// `WORD IMSI`: the phone does this where it is.
    Phone(PhoneWord, Imsi),
}

/// The fields of `station E ID TAC`.
#[derive(Clone, Copy)]
pub struct StationLine {
    /// Which station.
    pub station: StationNumber,
    /// Its id in its network.
    pub macro_id: MacroId,
    /// The tracking area that it broadcasts (TS 36.413 clause 9.2.3.7).
    pub tac: [u8; 2],
}

/// Where a phone is: at a station, by its eNB UE S1AP ID.
#[derive(Clone, Copy, PartialEq, Eq)]
pub struct RadioPlace {
    /// The station.
    pub station: StationNumber,
    /// What the station calls the phone (TS 36.413 clause 9.2.3.4).
    pub enb_ue_id: EnbUeId,
}

/// What a phone does at a station.
#[derive(Clone, Copy)]
pub enum RadioWord {
    /// `attach`: it attaches.
    Attach,
    /// `info`: it attaches, and has ESM information to send.
    Info,
    /// `foreign`: it attaches with the GUTI of another network.
    Foreign,
    /// `service`: it asks for service.
    Service,
    /// `tau`: it updates its tracking area.
    Tau,
    /// `switch`: its path moves there.
    Switch,
}

/// What a phone does where it is.
#[derive(Clone, Copy)]
pub enum PhoneWord {
    /// `detach`: it detaches.
    Detach,
    /// `off`: it is switched off.
    Off,
    /// `idle`: its station asks for its release, as nothing is sent.
    Idle,
    /// `deaf`: it answers nothing from now on.
    Deaf,
    /// `replay`: it sends its last protected message again.
    Replay,
    /// `forge`: it sends that message with the next sequence number and the MAC as it was.
    Forge,
}

impl RadioWord {
    fn of_text(word: &[u8]) -> Option<RadioWord>
        ensures { result ≡ radio_word word.now }
    {
        if is_named(word, "attach") {
            return Some(RadioWord::Attach);
        }
        if is_named(word, "info") {
            return Some(RadioWord::Info);
        }
        if is_named(word, "foreign") {
            return Some(RadioWord::Foreign);
        }
        if is_named(word, "service") {
            return Some(RadioWord::Service);
        }
        if is_named(word, "tau") {
            return Some(RadioWord::Tau);
        }
        if is_named(word, "switch") {
            return Some(RadioWord::Switch);
        }
        None
    }
}

impl PhoneWord {
    fn of_text(word: &[u8]) -> Option<PhoneWord>
        ensures { result ≡ phone_word word.now }
    {
        if is_named(word, "detach") {
            return Some(PhoneWord::Detach);
        }
        if is_named(word, "off") {
            return Some(PhoneWord::Off);
        }
        if is_named(word, "idle") {
            return Some(PhoneWord::Idle);
        }
        if is_named(word, "deaf") {
            return Some(PhoneWord::Deaf);
        }
        if is_named(word, "replay") {
            return Some(PhoneWord::Replay);
        }
        if is_named(word, "forge") {
            return Some(PhoneWord::Forge);
        }
        None
    }
}

/// What a line says whose first word a trace hasn't.
pub(crate) fn parse_act(
    alloc: Global,
    word: &[u8],
    fields: &[&[u8]],
) -> Result<ScriptAct, TraceFault>
    ensures { (result ≡ Err TraceFault.NoMemory) ⊎ (result ≡ read_act word.now (map (λ f. f.now) fields.now)) }
{
    if is_named(word, "station") {
        return parse_station(fields);
    }
    if is_named(word, "up") {
        return parse_up(fields);
    }
    if is_named(word, "raw") {
        return parse_raw(alloc, fields);
    }
    if let Some(radio) = RadioWord::of_text(word) {
        return parse_radio(radio, fields);
    }
    match PhoneWord::of_text(word) {
        Some(alone) => parse_phone(alone, fields),
        None => Err(TraceFault::UnknownWord),
    }
}

fn parse_station(fields: &[&[u8]]) -> Result<ScriptAct, TraceFault>
    ensures { result ≡ read_station (map (λ f. f.now) fields.now) }
{
    match fields {
        [number, id, area] => station_line(number, id, area),
        _ => Err(TraceFault::FieldCount),
    }
}

fn station_line(number: &[u8], id: &[u8], area: &[u8]) -> Result<ScriptAct, TraceFault>
    ensures { result ≡ station_of number.now id.now area.now }
{
    Ok(ScriptAct::Station(StationLine {
        station: station(number)?,
        macro_id: macro_id(id)?,
        tac: tracking_area(area)?,
    }))
}

fn parse_up(fields: &[&[u8]]) -> Result<ScriptAct, TraceFault>
    ensures { result ≡ read_up_act (map (λ f. f.now) fields.now) }
{
    match fields {
        [number] => Ok(ScriptAct::Up(station(number)?)),
        _ => Err(TraceFault::FieldCount),
    }
}

fn parse_raw(alloc: Global, fields: &[&[u8]]) -> Result<ScriptAct, TraceFault>
    ensures { (result ≡ Err TraceFault.NoMemory) ⊎ (result ≡ read_raw (map (λ f. f.now) fields.now)) }
{
    match fields {
        [number, hex] => raw_line(alloc, number, hex),
        _ => Err(TraceFault::FieldCount),
    }
}

fn raw_line(alloc: Global, number: &[u8], hex: &[u8]) -> Result<ScriptAct, TraceFault>
    ensures { (result ≡ Err TraceFault.NoMemory) ⊎ (result ≡ read_raw (number.now ∷ hex.now ∷ [])) }
{
    let from = station(number)?;
    Ok(ScriptAct::Raw(from, octets(alloc, hex)?))
}

fn parse_radio(word: RadioWord, fields: &[&[u8]]) -> Result<ScriptAct, TraceFault>
    ensures { result ≡ read_radio word (map (λ f. f.now) fields.now) }
{
    match fields {
        [subscriber, number, there] => radio_line(word, subscriber, number, there),
        _ => Err(TraceFault::FieldCount),
    }
}

fn radio_line(
    word: RadioWord,
    subscriber: &[u8],
    number: &[u8],
    there: &[u8],
) -> Result<ScriptAct, TraceFault>
    ensures { result ≡ read_radio word (subscriber.now ∷ number.now ∷ there.now ∷ []) }
{
    let of = imsi(subscriber)?;
    let place = RadioPlace {
        station: station(number)?,
        enb_ue_id: enb_ue_id(there)?,
    };
    Ok(ScriptAct::Radio(word, of, place))
}

fn parse_phone(word: PhoneWord, fields: &[&[u8]]) -> Result<ScriptAct, TraceFault>
    ensures { result ≡ read_phone word (map (λ f. f.now) fields.now) }
{
    match fields {
        [subscriber] => Ok(ScriptAct::Phone(word, imsi(subscriber)?)),
        _ => Err(TraceFault::FieldCount),
    }
}
