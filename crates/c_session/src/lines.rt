//! An MME from the provisioning lines of a trace.

ghost use Rattle.std.specs.Prelude.{◌≡◌, ◌⊎◌, length, IfErr, IfOk, IsOk, OnErr, OnOk, Ok, Err};
ghost use Rattle.c_session.specs.Lines.{IsOfMemory, IsShortAt, IsShortOf, all_lines, made_of, provisioned_by, provisioned_from, provisioned_of};
ghost use Rattle.c_session.specs.Sessions.{nothing, started};

use crate::refusal::{Refusal, of_line};
use crate::session::Session;
use memchr::memchr;
use std::alloc::Global;
use trace_words::{Line, parse_line};

/// Why lines make no MME: the number of the line, counted from 1, and its refusal.
#[derive(Clone, Copy, Debug, PartialEq, Eq)]
pub struct LinesFault {
    pub line: u64,
    pub refusal: Refusal,
}

impl Session {
    /// An MME that runs, of the provisioning lines of a trace, which are parted by LF. The fault is that of the first line that
    /// isn't taken: Order also for the line of an event or a question, and for the last line where none is `mme`. Where memory
    /// ran out, it is NoMemory at a line before which all were taken, or Lost at the last line, where the MME was being made.
    #[tactic(auto, using(crate::proofs::Parting::whole_stops))]
    pub fn of_lines(alloc: Global, text: &[u8]) -> Result<Session, LinesFault>
        ensures ok { IfOk result (λ s. made_of text.now ≡ Ok s) }
        ensures refused { IfErr result (λ fault. IsShortOf text.now fault ⊎ (made_of text.now ≡ Err fault)) }
    {
        let mut session = Session::new(alloc);
        match session.provision_whole(alloc, text) {
            Ok(()) => Ok(session),
            Err(fault) => Err(fault),
        }
    }

    /// Takes the provisioning lines of a text, and starts the MME; faults as in `of_lines`. The session is the caller's, so that it
    /// is let go in one place.
    #[tactic(auto, using(crate::proofs::Parting::made_by, crate::proofs::Parting::line_stops, crate::proofs::Parting::start_stops))]
    fn provision_whole(&mut self, alloc: Global, text: &[u8]) -> Result<(), LinesFault>
        requires { self.old ≡ nothing }
        ensures ok { OnOk result (made_of text.now ≡ Ok self.new) }
        ensures refused { IfErr result (λ fault. IsOfMemory text.now fault self.new ⊎ (made_of text.now ≡ Err fault)) }
    {
        match self.provision_lines(alloc, text) {
            Ok(line) => self.start_at(alloc, line),
            Err(fault) => Err(fault),
        }
    }

    /// Takes the provisioning lines of a text; the number of the last line.
    #[tactic(auto, using(crate::proofs::Parting::none_taken))]
    fn provision_lines(&mut self, alloc: Global, text: &[u8]) -> Result<u64, LinesFault>
        requires { self.old ≡ nothing }
        ensures ok { OnOk result (provisioned_of (all_lines text.now) ≡ Ok self.new) }
        ensures last { IfOk result (λ line. line ≡ length (all_lines text.now)) }
        ensures refused { IfErr result
            (λ fault. IsShortAt (all_lines text.now) fault self.new ⊎ (provisioned_of (all_lines text.now) ≡ Err fault)) }
    {
        let mut line = 0u64;
        let mut rest = text;
        while let Some(at) = memchr(b'\n', rest) {
            match self.provision_at(alloc, line + 1, &rest[..at]) {
                Ok(()) => {}
                Err(fault) => return Err(fault),
            }
            line += 1;
            rest = &rest[at + 1..];
        }
        match self.provision_at(alloc, line + 1, rest) {
            Ok(()) => Ok(line + 1),
            Err(fault) => Err(fault),
        }
    }

    /// Takes the provisioning line of that number.
    fn provision_at(&mut self, alloc: Global, line: u64, text: &[u8]) -> Result<(), LinesFault>
        ensures ok { OnOk result (provisioned_from self.old text.now ≡ Ok self.new) }
        ensures line { IfErr result (λ fault. fault.line ≡ line) }
        ensures refused { IfErr result
            (λ fault. (fault.refusal ≡ Refusal.NoMemory) ⊎ (provisioned_from self.old text.now ≡ Err fault.refusal)) }
        ensures err { OnErr result (self.new ≡ self.old) }
    {
        match self.provision(alloc, text) {
            Ok(()) => Ok(()),
            Err(refusal) => Err(LinesFault { line, refusal }),
        }
    }

    /// Starts the MME after the line of that number.
    #[tactic(auto, using(crate::proofs::Left::starts_ok, crate::proofs::Left::starts_err))]
    fn start_at(&mut self, alloc: Global, line: u64) -> Result<(), LinesFault>
        ensures ok { OnOk result (started self.old ≡ Ok self.new) }
        ensures line { IfErr result (λ fault. fault.line ≡ line) }
        ensures refused { IfErr result
            (λ fault. ((fault.refusal ≡ Refusal.Lost) × IsOk (started self.old)) ⊎ (started self.old ≡ Err fault.refusal)) }
    {
        match self.start(alloc) {
            Ok(()) => Ok(()),
            Err(refusal) => Err(LinesFault { line, refusal }),
        }
    }

    /// Takes a provisioning line.
    fn provision(&mut self, alloc: Global, text: &[u8]) -> Result<(), Refusal>
        ensures ok { OnOk result (provisioned_from self.old text.now ≡ Ok self.new) }
        ensures refused { IfErr result
            (λ refusal. (refusal ≡ Refusal.NoMemory) ⊎ (provisioned_from self.old text.now ≡ Err refusal)) }
        ensures err { OnErr result (self.new ≡ self.old) }
    {
        match parse_line(alloc, text) {
            Ok(line) => self.provision_by(alloc, line),
            Err(fault) => Err(of_line(fault)),
        }
    }

    /// Does what a provisioning line says; Order for another line.
    #[tactic(auto, using(crate::proofs::Left::leaves_ok, crate::proofs::Left::leaves_err, crate::proofs::Left::leaves_same))]
    fn provision_by(&mut self, alloc: Global, line: Line) -> Result<(), Refusal>
        ensures ok { OnOk result (provisioned_by self.old line ≡ Ok self.new) }
        ensures refused { IfErr result (λ refusal. (refusal ≡ Refusal.NoMemory) ⊎ (provisioned_by self.old line ≡ Err refusal)) }
        ensures err { OnErr result (self.new ≡ self.old) }
    {
        match line {
            Line::Skip => Ok(()),
            Line::Mme(network) => self.configure(alloc, network),
            Line::Sub(profile) => self.subscribe(profile),
            Line::Vec(imsi, vector) => self.equip(imsi, vector),
            Line::Up(_station) => Err(Refusal::Order),
            Line::Lost(_station) => Err(Refusal::Order),
            Line::In(_station, _octets) => Err(Refusal::Order),
            Line::Tick(_ticks) => Err(Refusal::Order),
            Line::Data(_imsi) => Err(Refusal::Order),
            Line::Cancel(_imsi) => Err(Refusal::Order),
            Line::Show(_imsi) => Err(Refusal::Order),
        }
    }
}
