//! The whole lines of a text, played one after another, with their answers as `mme play` prints them.

ghost use Rattle.std.specs.Prelude.{◌≡◌};
ghost use Rattle.trace_words.specs.Trace.{line_of};
ghost use Rattle.trace_progress.specs.Effects.{effect_of, happened, shown, ticked, ticks_passed};
ghost use Rattle.trace_progress.specs.Text.{line_effect};
ghost use Rattle.c_session.specs.Texts.{PlaysText, Says, events_in, events_of, first_events, first_of_text, first_taken, once, silent, undone};

use crate::refusal::{Refusal, of_line, told};
use crate::said::{LineStop, push_answer, say_once, say_ticks};
use crate::session::Session;
use memchr::memchr;
use mme_core::Event;
use nas_elements::Imsi;
use std::alloc::Global;
use trace_answers::Answer;
use trace_progress::{Progress, add, give, start, states_of_imsi};
use trace_words::{Line, parse_line};

/// Where the lines of a text aren't played on: how many were played, how many events of the next one were taken and answered,
/// whether one more was taken whose answers had no room, and why.
#[derive(Clone, Copy, Debug, PartialEq, Eq)]
pub struct Stop {
    pub lines: u64,
    pub taken: u32,
    pub unsaid: bool,
    pub refusal: Refusal,
}

/// Nothing of a line is done.
fn undone(refusal: Refusal) -> LineStop
    ensures { result ≡ undone refusal }
{
    LineStop {
        taken: 0,
        unsaid: false,
        refusal,
    }
}

/// What a step of provisioning answered, which nothing is written of.
fn silent(told: Result<(), Refusal>) -> Result<(), LineStop>
    ensures { result ≡ silent told }
{
    match told {
        Ok(()) => Ok(()),
        Err(refusal) => Err(undone(refusal)),
    }
}

impl Session {
    /// Plays the whole lines of a text, one after another, and adds what `mme play` prints of them to the answers, which stay
    /// within that room. What comes after the last LF is no line, and isn't taken. Answers how many lines were played.
    ///
    /// It stops at the first line that has a fault, and what that line says isn't done; at one for which memory ran out: the
    /// events before, of a line of many ticks, were taken, or nothing is provisioned any more (Lost) where the MME was being made;
    /// and at an event whose answers have no room (NoRoom): it is taken, and its answers are the replies, or it is one that
    /// sends nothing, and wasn't taken.
    pub fn play_text(
        &mut self,
        alloc: Global,
        text: &[u8],
        room: usize,
        answers: &mut Vec<u8>,
    ) -> Result<u64, Stop>
        ensures { PlaysText text.now self.old room answers.old.items result self.new answers.new.items }
    {
        let mut lines = 0u64;
        let mut rest = text;
        while let Some(at) = memchr(b'\n', rest) {
            match self.say_text(alloc, &rest[..at], room, answers) {
                Ok(()) => {}
                Err(stop) => {
                    return Err(Stop {
                        lines,
                        taken: stop.taken,
                        unsaid: stop.unsaid,
                        refusal: stop.refusal,
                    });
                }
            }
            lines += 1;
            rest = &rest[at + 1..];
        }
        Ok(lines)
    }

    /// Plays one line, given without its LF.
    #[tactic(auto, using(crate::proofs::Texts::says_read))]
    fn say_text(
        &mut self,
        alloc: Global,
        text: &[u8],
        room: usize,
        answers: &mut Vec<u8>,
    ) -> Result<(), LineStop>
        ensures { Says (line_effect self.old.progress text.now) (first_of_text self.old.progress text.now)
            (events_of (line_of text.now)) self.old room answers.old.items result self.new answers.new.items }
    {
        match parse_line(alloc, text) {
            Ok(line) => self.say_line(alloc, line, room, answers),
            Err(fault) => Err(undone(of_line(fault))),
        }
    }

    /// Does what a line says.
    #[tactic(auto, using(crate::proofs::Texts::says_silent), unfolding(trace_progress::specs::Effects::effect_of))]
    fn say_line(
        &mut self,
        alloc: Global,
        line: Line,
        room: usize,
        answers: &mut Vec<u8>,
    ) -> Result<(), LineStop>
        ensures { Says (effect_of self.old.progress line) (first_events self.old.progress line) (events_in line) self.old room
            answers.old.items result self.new answers.new.items }
    {
        match line {
            Line::Skip => Ok(()),
            Line::Mme(network) => silent(told(start(alloc, &mut self.progress, 0, network))),
            Line::Sub(profile) => silent(told(add(&mut self.progress, 0, profile))),
            Line::Vec(imsi, vector) => silent(told(give(&mut self.progress, 0, imsi, vector))),
            Line::Up(station) => self.say_started(alloc, &Event::Up(station), room, answers),
            Line::Lost(station) => self.say_started(alloc, &Event::Lost(station), room, answers),
            Line::In(station, octets) => {
                self.say_started(alloc, &Event::In(station, octets.as_slice()), room, answers)
            }
            Line::Tick(ticks) => self.say_ticks_started(alloc, ticks.get(), room, answers),
            Line::Data(imsi) => self.say_started(alloc, &Event::Data(imsi), room, answers),
            Line::Cancel(imsi) => self.say_started(alloc, &Event::Cancel(imsi), room, answers),
            Line::Show(imsi) => self.say_states(alloc, imsi, room, answers),
        }
    }

    /// An event, by the MME that its line speaks to.
    fn say_started(
        &mut self,
        alloc: Global,
        event: &Event<'_>,
        room: usize,
        answers: &mut Vec<u8>,
    ) -> Result<(), LineStop>
        ensures { Says (happened self.old.progress event.now)
            (first_taken self.old.progress (λ w. once w event.now)) 1 self.old room answers.old.items
            result self.new answers.new.items }
    {
        match self.start(alloc) {
            Ok(()) => {}
            Err(refusal) => return Err(undone(refusal)),
        }
        let Progress::Running(mme) = &mut self.progress else {
            return Err(undone(Refusal::NoMme));
        };
        say_once(alloc, mme, &mut self.replies, event, room, answers)
    }

    /// Ticks, by the MME that their line speaks to.
    fn say_ticks_started(
        &mut self,
        alloc: Global,
        count: u32,
        room: usize,
        answers: &mut Vec<u8>,
    ) -> Result<(), LineStop>
        ensures { Says (ticks_passed self.old.progress count)
            (first_taken self.old.progress (λ w n. ticked n w)) count self.old room answers.old.items result
            self.new answers.new.items }
    {
        match self.start(alloc) {
            Ok(()) => {}
            Err(refusal) => return Err(undone(refusal)),
        }
        let Progress::Running(mme) = &mut self.progress else {
            return Err(undone(Refusal::NoMme));
        };
        say_ticks(alloc, mme, &mut self.replies, count, room, answers)
    }

    /// The states of the subscriber of an IMSI, in the MME that the line speaks to.
    #[tactic(auto, using(crate::proofs::Texts::says_states))]
    fn say_states(
        &mut self,
        alloc: Global,
        imsi: Imsi,
        room: usize,
        answers: &mut Vec<u8>,
    ) -> Result<(), LineStop>
        ensures { Says (shown self.old.progress imsi) (first_events self.old.progress (Line.Show imsi)) 1 self.old room
            answers.old.items result self.new answers.new.items }
    {
        match self.start(alloc) {
            Ok(()) => {}
            Err(refusal) => return Err(undone(refusal)),
        }
        let Progress::Running(mme) = &self.progress else {
            return Err(undone(Refusal::NoMme));
        };
        let Some(states) = states_of_imsi(mme, imsi) else {
            return Err(undone(Refusal::Provision));
        };
        match push_answer(alloc, &Answer::State(imsi, states), room, answers) {
            Ok(()) => Ok(()),
            Err(refusal) => Err(undone(refusal)),
        }
    }
}
