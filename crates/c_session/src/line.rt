//! One line of a trace.

ghost use Rattle.std.specs.Prelude.{◌≡◌};
ghost use Rattle.mme_core.specs.declared.event.Event.TheVariants as event;
ghost use Rattle.c_session.specs.Sessions.{Acts, Leaves, OnceStarted, Plays, Runs, happened, shown, started, world_in};
ghost use Rattle.trace_progress.specs.Effects.{in_event};

use crate::refusal::{Refusal, of_line};
use crate::session::Session;
use identity_slots::StationNumber;
use mme_core::Event;
use nas_elements::Imsi;
use std::alloc::Global;
use trace_progress::{Progress, states_of_imsi};
use trace_words::{Line, parse_line};

impl Session {
    /// Plays one line of a trace, given without its LF. The first line of an event or a question starts the MME, also where it is
    /// then refused. Lost where memory ran out while that was made; NoMemory may stand in place of another refusal.
    pub fn play(&mut self, alloc: Global, text: &[u8]) -> Result<(), Refusal>
        ensures { Plays text.now self.old result self.new }
    {
        match parse_line(alloc, text) {
            Ok(line) => self.act(alloc, line),
            Err(fault) => Err(of_line(fault)),
        }
    }

    /// Does what a line says.
    fn act(&mut self, alloc: Global, line: Line) -> Result<(), Refusal>
        ensures { Acts line self.old result self.new }
    {
        match line {
            Line::Skip => Ok(()),
            Line::Mme(network) => self.configure(alloc, network),
            Line::Sub(profile) => self.subscribe(profile),
            Line::Vec(imsi, vector) => self.equip(imsi, vector),
            Line::Up(station) => self.happen_once_started(alloc, &Event::Up(station)),
            Line::Lost(station) => self.happen_once_started(alloc, &Event::Lost(station)),
            Line::In(station, octets) => self.hear_once_started(alloc, station, octets.as_slice()),
            Line::Tick(ticks) => self.pass_once_started(alloc, ticks.get()),
            Line::Data(imsi) => self.happen_once_started(alloc, &Event::Data(imsi)),
            Line::Cancel(imsi) => self.happen_once_started(alloc, &Event::Cancel(imsi)),
            Line::Show(imsi) => self.show_once_started(alloc, imsi),
        }
    }

    fn happen_once_started(&mut self, alloc: Global, event: &Event<'_>) -> Result<(), Refusal>
        ensures { OnceStarted (started self.old) (λ s. Leaves (happened s event.now) s) self.old result self.new }
    {
        self.start(alloc)?;
        self.happen(event)
    }

    fn hear_once_started(
        &mut self,
        alloc: Global,
        station: StationNumber,
        octets: &[u8],
    ) -> Result<(), Refusal>
        ensures { OnceStarted (started self.old) (λ s. Leaves (happened s (in_event station octets.now)) s) self.old result
            self.new }
    {
        self.start(alloc)?;
        self.hear_from(station, octets)
    }

    fn pass_once_started(&mut self, alloc: Global, count: u32) -> Result<(), Refusal>
        ensures { OnceStarted (started self.old) (λ s. Runs (world_in s.progress) count s) self.old result self.new }
    {
        self.start(alloc)?;
        self.pass(alloc, count)
    }

    fn show_once_started(&mut self, alloc: Global, imsi: Imsi) -> Result<(), Refusal>
        ensures { OnceStarted (started self.old) (λ s. Leaves (shown s imsi) s) self.old result self.new }
    {
        self.start(alloc)?;
        self.show(imsi)
    }

    /// Whether somebody has the IMSI: NoMme, then Provision where nobody has.
    fn show(&self, imsi: Imsi) -> Result<(), Refusal>
        ensures { Leaves (shown self.now imsi) self.now result self.now }
    {
        let Progress::Running(mme) = &self.progress else {
            return Err(Refusal::NoMme);
        };
        match states_of_imsi(mme, imsi) {
            Some(_) => Ok(()),
            None => Err(Refusal::Provision),
        }
    }
}
