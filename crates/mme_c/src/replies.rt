//! The replies to the last event, and questions.

ghost use Rattle.std.specs.Prelude.{◌≡◌};
ghost use Rattle.c_session.specs.Asked.{slot_of, states_of};
ghost use Rattle.c_session.specs.Kept.{count_at, message_at};
ghost use Rattle.mme_c.specs.Asked.{IsCopied, IsOutput, IsOutputOf, IsTold, asked_of, ecm_number, emm_number, esm_number, numbered, output_of, owner_kind, owner_number, replies_of, states_numbers};

use crate::handle::MmeHandle;
use crate::numbers::{OK, refused};
use c_session::{Refusal, Session};
use emm_machine::{EcmState, EmmState, States};
use esm_machine::BearerState;
use mme_core::{Out, Owner};
use std::alloc::Global;

/// A message that is sent to a station, but for its octets: for whom, the owner's number, where to, and how long it is.
#[repr(C)]
#[derive(Drop)]
pub struct Output {
    pub owner: u32,
    pub number: u32,
    pub station: u32,
    pub length: usize,
}

/// The states of a subscriber, as numbers in the order of their names in `States`.
#[repr(C)]
#[derive(Drop)]
pub struct SubscriberStates {
    pub emm: u32,
    pub ecm: u32,
    pub esm: u32,
}

/// How many replies there are.
#[unsafe(no_mangle)]
pub extern "C" fn soizkadur_replies(alloc: Global, mme: &mut MmeHandle) -> usize
    ensures replies { result ≡ replies_of mme.old.session }
    ensures unchanged { mme.new.session ≡ mme.old.session }
{
    let Some(session) = mme.take(alloc) else {
        return 0;
    };
    let replies = session.replies.len();
    mme.put(alloc, session);
    replies
}

/// How many messages the reply at a place has.
#[unsafe(no_mangle)]
pub extern "C" fn soizkadur_count(
    alloc: Global,
    mme: &mut MmeHandle,
    reply: usize,
    count: &mut usize,
) -> u32
    ensures told { IsTold (asked_of (λ s. count_at s.replies reply) mme.old.session) count.old result count.new }
    ensures unchanged { mme.new.session ≡ mme.old.session }
{
    let Some(session) = mme.take(alloc) else {
        return refused(Refusal::NoMme);
    };
    let found = session.count(reply);
    mme.put(alloc, session);
    match found {
        Ok(messages) => {
            *count = messages;
            OK
        }
        Err(refusal) => refused(refusal),
    }
}

/// The message at a place of the reply at a place: what it is, and its octets at the start of the buffer.
#[unsafe(no_mangle)]
pub extern "C" fn soizkadur_out(
    alloc: Global,
    mme: &mut MmeHandle,
    reply: usize,
    index: usize,
    output: &mut Output,
    buffer: &mut [u8],
) -> u32
    ensures output { IsOutputOf mme.old.session reply index output.old buffer.old result output.new buffer.new }
    ensures unchanged { mme.new.session ≡ mme.old.session }
{
    let Some(session) = mme.take(alloc) else {
        return refused(Refusal::NoMme);
    };
    let answer = written(&session, reply, index, output, buffer);
    mme.put(alloc, session);
    answer
}

fn written(
    session: &Session,
    reply: usize,
    index: usize,
    output: &mut Output,
    buffer: &mut [u8],
) -> u32
    ensures { IsOutput (message_at session.now.replies reply index) output.old buffer.old result output.new buffer.new }
{
    let Some(out) = session.message(reply, index) else {
        return refused(Refusal::NoOutput);
    };
    *output = output_of(out);
    copied(out.octets.as_slice(), buffer)
}

/// Copies octets to the start of a buffer, where there is room for them.
pub(crate) fn copied(octets: &[u8], buffer: &mut [u8]) -> u32
    ensures { IsCopied octets.now buffer.old result buffer.new }
{
    if octets.len() > buffer.len() {
        return refused(Refusal::NoRoom);
    }
    buffer[..octets.len()].copy_from_slice(octets);
    OK
}

fn output_of(out: &Out) -> Output
    ensures { result ≡ output_of out.now }
{
    Output {
        owner: owner_kind(&out.owner),
        number: owner_number(&out.owner),
        station: u32::from(out.station.get()),
        length: out.octets.as_slice().len(),
    }
}

fn owner_kind(owner: &Owner) -> u32
    ensures { result ≡ owner_kind owner.now }
{
    match owner {
        Owner::Station(_) => 1,
        Owner::Stranger(_) => 2,
        Owner::Subscriber(_) => 3,
    }
}

fn owner_number(owner: &Owner) -> u32
    ensures { result ≡ owner_number owner.now }
{
    match owner {
        Owner::Station(station) => u32::from(station.get()),
        Owner::Stranger(id) => id.get(),
        Owner::Subscriber(slot) => slot.get(),
    }
}

/// The states of the subscriber of an IMSI.
#[unsafe(no_mangle)]
pub extern "C" fn soizkadur_states(
    alloc: Global,
    mme: &mut MmeHandle,
    imsi: &[u8],
    states: &mut SubscriberStates,
) -> u32
    ensures told { IsTold (numbered (asked_of (λ s. states_of s imsi.now) mme.old.session)) states.old result states.new }
    ensures unchanged { mme.new.session ≡ mme.old.session }
{
    let Some(session) = mme.take(alloc) else {
        return refused(Refusal::NoMme);
    };
    let found = session.states(imsi);
    mme.put(alloc, session);
    match found {
        Ok(known) => {
            *states = states_numbers(known);
            OK
        }
        Err(refusal) => refused(refusal),
    }
}

fn states_numbers(states: States) -> SubscriberStates
    ensures { result ≡ states_numbers states }
{
    SubscriberStates {
        emm: emm_number(states.emm),
        ecm: ecm_number(states.ecm),
        esm: esm_number(states.esm),
    }
}

fn emm_number(state: EmmState) -> u32
    ensures { result ≡ emm_number state }
{
    match state {
        EmmState::Deregistered => 0,
        EmmState::CommonProcedureInitiated => 1,
        EmmState::Registered => 2,
        EmmState::DeregisteredInitiated => 3,
    }
}

fn ecm_number(state: EcmState) -> u32
    ensures { result ≡ ecm_number state }
{
    match state {
        EcmState::Idle => 0,
        EcmState::Connected => 1,
    }
}

fn esm_number(state: BearerState) -> u32
    ensures { result ≡ esm_number state }
{
    match state {
        BearerState::Inactive => 0,
        BearerState::ActivePending => 1,
        BearerState::Active => 2,
    }
}

/// The slot of the subscriber of an IMSI.
#[unsafe(no_mangle)]
pub extern "C" fn soizkadur_slot_of_imsi(
    alloc: Global,
    mme: &mut MmeHandle,
    imsi: &[u8],
    slot: &mut u32,
) -> u32
    ensures told { IsTold (asked_of (λ s. slot_of s imsi.now) mme.old.session) slot.old result slot.new }
    ensures unchanged { mme.new.session ≡ mme.old.session }
{
    let Some(session) = mme.take(alloc) else {
        return refused(Refusal::NoMme);
    };
    let found = session.slot(imsi);
    mme.put(alloc, session);
    match found {
        Ok(known) => {
            *slot = known.get();
            OK
        }
        Err(refusal) => refused(refusal),
    }
}
