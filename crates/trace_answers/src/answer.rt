//! The lines of a trace's answers.

ghost use Rattle.std.specs.Prelude.{◌≡◌, ◌+◌, ◌*◌, ◌++◌, length, IfOk, OnOk};
ghost use Rattle.std.specs.Fmt.{decimal};
ghost use Rattle.hex.specs.Hex.{encode_lower};
ghost use Rattle.trace_words.specs.Trace.{◌␣◌, octets_text};
ghost use Rattle.trace_answers.specs.Lines.{IsLineWithin, IsPartWithin, octets_said};
ghost use Rattle.trace_answers.specs.Words.{answer_text, out_text, sent_text, refused_text, states_text, owner_text, emm_word, ecm_word, esm_word};

use emm_machine::{EcmState, EmmState, States};
use esm_machine::BearerState;
use identity_slots::{StationNumber, number_in, station_in};
use itoa::Buffer;
use mme_answering::{Out, Owner};
use nas_elements::Imsi;
use std::alloc::{AllocError, Global};

// The octets of a line of a message that is sent, without those of the message, at most: two words, an owner, a station, spaces and
// LF.
const LONGEST_FRONT: usize = 32;

// The octets of a line of states, at most: its word, 15 digits, the longest of the words, spaces and LF.
const LONGEST_STATE: usize = 74;

/// What a line of the answers says.
#[derive(Clone, Copy)]
pub enum Answer<'a> {
    /// `out OWNER E OCTETS`: for the owner these octets are sent to the station.
    Sent(Owner, StationNumber, &'a [u8]),
    /// `refused K`: the event was refused with the fault of that number.
    Refused(u8),
    /// `state IMSI EMM ECM ESM`: the states of the subscriber of that IMSI.
    State(Imsi, States),
}

/// The line of one message that an event sends; the octets are lent.
pub fn sent_line(out: &Out) -> Answer<'_>
    ensures text { answer_text result ≡ out_text out.now }
    ensures octets { octets_said result ≡ length out.now.octets }
{
    Answer::Sent(out.owner, out.station, out.octets.as_slice())
}

/// The line of an answer, with its LF, as defined (`out_text`, `sent_text`, `refused_text`, `states_text`).
///
/// It has no other LF, and is longer than its octets in hex by at most 80 octets.
pub fn write_answer(alloc: Global, answer: &Answer<'_>) -> Result<Vec<u8>, AllocError>
    ensures text { IfOk result (λ line. line.items ≡ answer_text answer.now) }
    ensures line { IfOk result (λ line. IsLineWithin (80 + 2 * octets_said answer.now) line.items) }
{
    write_answer_in(Vec::new(alloc), answer)
}

/// The same line in the room of a Vec that is given: what that held is dropped. Where the room is too small and no more is given,
/// it is dropped.
pub fn write_answer_in(room: Vec<u8>, answer: &Answer<'_>) -> Result<Vec<u8>, AllocError>
    ensures text { IfOk result (λ line. line.items ≡ answer_text answer.now) }
    ensures line { IfOk result (λ line. IsLineWithin (80 + 2 * octets_said answer.now) line.items) }
{
    let mut line = room;
    line.clear();
    push_answer(&mut line, answer)?;
    Ok(line)
}

/// Appends the line of an answer.
fn push_answer(line: &mut Vec<u8>, answer: &Answer<'_>) -> Result<(), AllocError>
    ensures text { OnOk result (line.new.items ≡ line.old.items ++ answer_text answer.now) }
    ensures line { OnOk result (IsLineWithin (80 + 2 * octets_said answer.now) (answer_text answer.now)) }
{
    match answer {
        Answer::Sent(owner, station, octets) => push_sent(line, *owner, *station, octets),
        Answer::Refused(fault) => push_refused(line, *fault),
        Answer::State(imsi, states) => push_states(line, imsi, *states),
    }
}

/// Appends the line of a refusal.
#[tactic(auto, unfolding(crate::specs::Words::refused_text))]
fn push_refused(line: &mut Vec<u8>, fault: u8) -> Result<(), AllocError>
    ensures text { OnOk result (line.new.items ≡ line.old.items ++ refused_text fault) }
    ensures line { OnOk result (IsLineWithin 80 (refused_text fault)) }
{
    push_named(line, b"refused ", u32::from(fault))?;
    line.push(b'\n')?;
    Ok(())
}

/// Appends the line of a message that is sent.
#[tactic(auto, unfolding(crate::specs::Words::sent_text))]
fn push_sent(
    line: &mut Vec<u8>,
    owner: Owner,
    station: StationNumber,
    octets: &[u8],
) -> Result<(), AllocError>
    ensures text { OnOk result (line.new.items ≡ line.old.items ++ sent_text owner station octets.now) }
    ensures line { OnOk result (IsLineWithin (80 + 2 * length octets.now) (sent_text owner station octets.now)) }
{
    line.reserve(octets.len().saturating_mul(2).saturating_add(LONGEST_FRONT))?;
    push_owner(line, owner)?;
    push_number(line, u32::from(station.get()))?;
    line.push(b' ')?;
    push_octets(line, octets)?;
    line.push(b'\n')?;
    Ok(())
}

/// Appends the word `out` and for whom a message is, each with the space after it.
fn push_owner(line: &mut Vec<u8>, owner: Owner) -> Result<(), AllocError>
    ensures text { OnOk result (line.new.items ≡ line.old.items ++ owner_text owner) }
    ensures part { OnOk result (IsPartWithin 20 (owner_text owner)) }
{
    match owner {
        Owner::Station(station) => push_named(line, b"out e", u32::from(station.get()))?,
        Owner::Stranger(id) => {
            push_named(line, b"out x", u32::from(station_in(id)))?;
            push_named(line, b".", number_in(id))?;
        }
        Owner::Subscriber(slot) => push_named(line, b"out s", slot.get())?,
    }
    line.push(b' ')?;
    Ok(())
}

/// Appends a mark and a number after it.
#[inline(always)]
fn push_named(line: &mut Vec<u8>, mark: &[u8], number: u32) -> Result<(), AllocError>
    ensures { OnOk result (line.new.items ≡ line.old.items ++ mark.now ++ decimal number) }
{
    line.extend_from_slice(mark)?;
    push_number(line, number)
}

/// Appends a number in decimal digits; out of line, since the digits have a buffer of their own.
#[inline(never)]
fn push_number(line: &mut Vec<u8>, number: u32) -> Result<(), AllocError>
    ensures { OnOk result (line.new.items ≡ line.old.items ++ decimal number) }
{
    let mut buffer = Buffer::new();
    line.extend_from_slice(buffer.format(number).as_bytes())
}

/// Appends octets in lower case, or `-` for none.
fn push_octets(line: &mut Vec<u8>, octets: &[u8]) -> Result<(), AllocError>
    ensures { OnOk result (line.new.items ≡ line.old.items ++ octets_text octets.now) }
{
    if octets.is_empty() {
        line.push(b'-')?;
        return Ok(());
    }
    push_hex(line, octets)
}

/// Appends the hex digits of octets, which are written where they stand then.
fn push_hex(line: &mut Vec<u8>, octets: &[u8]) -> Result<(), AllocError>
    ensures { OnOk result (line.new.items ≡ line.old.items ++ encode_lower octets.now) }
{
    let start = line.len();
    line.resize(start.saturating_add(octets.len().saturating_mul(2)), 0)?;
    hex::encode_to_slice(octets, &mut line.as_mut_slice()[start..]).map_err(|_| AllocError)
}

/// Appends the line of a subscriber's states.
#[tactic(auto, unfolding(crate::specs::Words::states_text))]
fn push_states(line: &mut Vec<u8>, imsi: &Imsi, states: States) -> Result<(), AllocError>
    ensures text { OnOk result (line.new.items ≡ line.old.items ++ states_text imsi.now states) }
    ensures line { OnOk result (IsLineWithin 80 (states_text imsi.now states)) }
{
    line.reserve(LONGEST_STATE)?;
    let digits = imsi.digits();
    line.extend_from_slice(b"state")?;
    push_field(line, digits.as_str())?;
    push_field(line, emm_word(states.emm))?;
    push_field(line, ecm_word(states.ecm))?;
    push_field(line, esm_word(states.esm))?;
    line.push(b'\n')?;
    Ok(())
}

/// The word for how a subscriber is registered.
fn emm_word(state: EmmState) -> &'static str
    ensures { result.now ≡ emm_word state }
{
    match state {
        EmmState::Deregistered => "DEREGISTERED",
        EmmState::CommonProcedureInitiated => "COMMON-PROCEDURE-INITIATED",
        EmmState::Registered => "REGISTERED",
        EmmState::DeregisteredInitiated => "DEREGISTERED-INITIATED",
    }
}

/// The word for whether a subscriber has a connection.
fn ecm_word(state: EcmState) -> &'static str
    ensures { result.now ≡ ecm_word state }
{
    match state {
        EcmState::Idle => "IDLE",
        EcmState::Connected => "CONNECTED",
    }
}

/// The word for how far a subscriber's default bearer is.
fn esm_word(state: BearerState) -> &'static str
    ensures { result.now ≡ esm_word state }
{
    match state {
        BearerState::Inactive => "INACTIVE",
        BearerState::ActivePending => "ACTIVE-PENDING",
        BearerState::Active => "ACTIVE",
    }
}

/// Appends a space and a field.
fn push_field(line: &mut Vec<u8>, field: &str) -> Result<(), AllocError>
    ensures { OnOk result (line.new.items ≡ line.old.items ␣ field.now) }
{
    line.push(b' ')?;
    line.extend_from_slice(field.as_bytes())
}
