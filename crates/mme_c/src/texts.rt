//! The lines of a text, many at once.

ghost use Rattle.std.specs.Prelude.{◌≡◌, ◌++◌, ◌≤◌, drop, length, IfNone, IfSome, None};
ghost use Rattle.c_session.specs.Texts.{PlaysText};
ghost use Rattle.mme_c.specs.Texts.{IsPlayed, IsText, one_if_unsaid, session_of, text_answer, text_played};

use crate::handle::MmeHandle;
use crate::numbers::{OK, refused};
use c_session::{Refusal, Session, Stop};
use std::alloc::Global;

/// How far the lines of a text were played: how many whole, how many events of the next one were taken and answered, 1 where one
/// more was taken that isn't answered, and how many octets all answers have.
#[repr(C)]
#[derive(Drop)]
pub struct TextPlayed {
    pub lines: u64,
    pub taken: u32,
    pub unsaid: u32,
    pub length: usize,
}

/// Plays the whole lines of a text, and writes their answers to the start of the buffer.
#[tactic(auto, using(crate::proofs::Answered::text_is_played))]
#[unsafe(no_mangle)]
pub extern "C" fn soizkadur_play(
    alloc: Global,
    mme: &mut MmeHandle,
    lines: &[u8],
    played: &mut TextPlayed,
    buffer: &mut [u8],
) -> u32
    ensures { IsText mme.old.session lines.now played.old buffer.old result mme.new.session played.new buffer.new }
{
    let Some(mut session) = held(alloc, mme) else {
        return refused(Refusal::NoMemory);
    };
    let answer = play(alloc, &mut session, lines, played, buffer);
    mme.put(alloc, session);
    answer
}

/// Takes the session out of a handle, and of an empty one a session in which nothing is provisioned, if there is memory for it.
fn held(alloc: Global, mme: &mut MmeHandle) -> Option<Box<Session>>
    ensures held { IfSome result (λ b. b.value ≡ session_of mme.old.session) }
    ensures none { IfNone result (mme.old.session ≡ None) }
    ensures left { mme.new.session ≡ None }
{
    match mme.take(alloc) {
        Some(session) => Some(session),
        None => match Box::new(alloc, Session::new(alloc)) {
            Ok(session) => Some(session),
            Err(_) => None,
        },
    }
}

fn play(
    alloc: Global,
    session: &mut Session,
    lines: &[u8],
    played: &mut TextPlayed,
    buffer: &mut [u8],
) -> u32
    ensures { IsPlayed session.old lines.now buffer.old result session.new played.new buffer.new }
{
    let mut answers = Vec::new(alloc);
    let told = session.play_text(alloc, lines, buffer.len(), &mut answers);
    let answer = put(told, answers.as_slice(), played, buffer);
    // (they may carry a key)
    answers.as_mut_slice().fill(0);
    answer
}

/// Writes what was played, and its answers.
fn put(told: Result<u64, Stop>, answers: &[u8], played: &mut TextPlayed, buffer: &mut [u8]) -> u32
    requires { length answers.now ≤ length buffer.old }
    ensures answer { result ≡ text_answer told }
    ensures played { played.new ≡ text_played told (length answers.now) }
    ensures buffer { buffer.new ≡ answers.now ++ drop (length answers.now) buffer.old }
{
    buffer[..answers.len()].copy_from_slice(answers);
    match told {
        Ok(lines) => {
            *played = TextPlayed {
                lines,
                taken: 0,
                unsaid: 0,
                length: answers.len(),
            };
            OK
        }
        Err(stop) => {
            *played = TextPlayed {
                lines: stop.lines,
                taken: stop.taken,
                unsaid: one_if_unsaid(stop.unsaid),
                length: answers.len(),
            };
            refused(stop.refusal)
        }
    }
}

fn one_if_unsaid(unsaid: bool) -> u32
    ensures { result ≡ one_if_unsaid unsaid }
{
    if unsaid { 1 } else { 0 }
}
