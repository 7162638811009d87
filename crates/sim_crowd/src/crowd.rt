//! The stations and phones.

ghost use Rattle.std.specs.Prelude.{◌≡◌, ◌++◌, IfOk, OnOk, OnErr, Ok, None, is_some};
ghost use Rattle.sim_crowd.specs.declared.acted.Acted.TheVariants.{Skipped};
ghost use Rattle.sim_crowd.specs.Acting.{acting, acting_there, adding_station, outcome, setting_up};
ghost use Rattle.sim_crowd.specs.Crowds.{empty_crowd, in_network, with_phone_for, with_station_left, with_vector_given};
ghost use Rattle.sim_crowd.specs.Refused.{StopsActing, StopsDelivering, StopsThere};
ghost use Rattle.sim_crowd.specs.Hearing.{delivering};
ghost use Rattle.sim_crowd.specs.Phones.{phone_named};
ghost use Rattle.sim_crowd.specs.Stations.{site_of};

use crate::acted::{Acted, Uplink};
use crate::hearing::push_answer;
use crate::phones::Phones;
use crate::stations::Stations;
use enb_sim::PhoneAct;
use identity_slots::{StationNumber, Vector};
use nas_elements::Imsi;
use std::alloc::{AllocError, Global};
use trace_words::{PhoneWord, RadioPlace, RadioWord, StationLine};

/// The stations and phones of a script, and the network of the stations to come.
#[derive(Drop)]
pub struct Crowd {
    plmn: [u8; 3],
    pub(crate) stations: Stations,
    pub(crate) phones: Phones,
}

impl Crowd {
    /// Nobody.
    pub fn new(alloc: Global) -> Crowd
        ensures { result ≡ empty_crowd }
    {
        Crowd {
            plmn: [0; 3],
            stations: Stations::new(alloc),
            phones: Phones::new(alloc),
        }
    }

    /// The network of the stations to come, as S1AP packs its digits.
    pub fn set_network(&mut self, plmn: [u8; 3])
        ensures { self.new ≡ in_network plmn self.old }
    {
        self.plmn = plmn;
    }

    /// There is a phone for this subscriber. Where there was one all is as it was. Refused for lack of memory alone, and then all
    /// is as it was, too.
    pub fn add_phone(&mut self, imsi: Imsi) -> Result<(), AllocError>
        ensures ok { OnOk result (self.new ≡ with_phone_for imsi self.old) }
        ensures err { OnErr result (self.new ≡ self.old) }
    {
        self.phones.add(imsi)
    }

    /// The phone of that subscriber has one vector more, if there is such a phone. One that has done something before makes no
    /// use of it. Refused for lack of memory alone, and then all is as it was.
    pub fn give_vector(&mut self, imsi: Imsi, vector: Vector) -> Result<(), AllocError>
        ensures ok { OnOk result (self.new ≡ with_vector_given imsi vector self.old) }
        ensures err { OnErr result (self.new ≡ self.old) }
    {
        self.phones.give(imsi, vector)
    }

    /// There is such a station: Skipped where one of that number was there, else Silent. Refused for lack of memory alone, and then
    /// all is as it was.
    pub fn add_station(&mut self, line: StationLine) -> Result<Acted, AllocError>
        ensures ok { IfOk result (λ a. outcome a self.new ≡ adding_station line self.old) }
        ensures err { OnErr result (self.new ≡ self.old) }
    {
        match self.stations.add(self.plmn, &line) {
            Ok(true) => Ok(Acted::Silent),
            Ok(false) => Ok(Acted::Skipped),
            Err(fault) => Err(fault),
        }
    }

    /// Whether there is a station of that number.
    pub fn has_station(&self, station: StationNumber) -> bool
        ensures { result ≡ is_some (site_of station self.now.stations) }
    {
        self.stations.has(station)
    }

    /// The station asks to be set up: Skipped where there is none. Refused for lack of memory alone, and then all is as it was.
    pub fn set_up(&mut self, station: StationNumber) -> Result<Acted, AllocError>
        ensures ok { IfOk result (λ a. outcome a self.new ≡ setting_up station self.old) }
        ensures err { OnErr result (self.new ≡ self.old) }
    {
        Ok(Acted::by(self.stations.set_up(station)?))
    }

    /// The station's connection is lost.
    pub fn lose(&mut self, station: StationNumber)
        ensures { self.new ≡ with_station_left station self.old }
    {
        self.stations.lose(station);
    }

    /// A phone does this at a station, by a number: Skipped where there is no such phone, or it can't be done. Refused as `act`.
    pub fn act_there(
        &mut self,
        word: RadioWord,
        imsi: Imsi,
        place: RadioPlace,
    ) -> Result<Acted, AllocError>
        ensures ok { IfOk result (λ a. outcome a self.new ≡ acting_there word imsi place self.old) }
        ensures unknown { phone_named imsi self.old.phones ≡ None → result ≡ Ok Skipped }
        ensures err { OnErr result (StopsThere word (phone_named imsi self.old.phones) self.old self.new) }
    {
        match self.phones.find(imsi) {
            Some(phone) => match word {
                RadioWord::Attach => self.enter(phone, place, PhoneAct::Attach),
                RadioWord::Info => self.enter(phone, place, PhoneAct::Info),
                RadioWord::Foreign => self.enter(phone, place, PhoneAct::Foreign),
                RadioWord::Service => self.enter(phone, place, PhoneAct::Service),
                RadioWord::Tau => self.update(phone, place),
                RadioWord::Switch => self.switch(phone, place),
            },
            None => Ok(Acted::Skipped),
        }
    }

    /// A phone does this where it is: Skipped where there is no such phone, or it can't be done. Refused for lack of memory alone:
    /// the phone may have spoken then, and where its path was moved it may have its new association, but nothing else changed.
    pub fn act(&mut self, word: PhoneWord, imsi: Imsi) -> Result<Acted, AllocError>
        ensures ok { IfOk result (λ a. outcome a self.new ≡ acting word imsi self.old) }
        ensures unknown { phone_named imsi self.old.phones ≡ None → result ≡ Ok Skipped }
        ensures err { OnErr result (StopsActing word (phone_named imsi self.old.phones) self.old self.new) }
    {
        match self.phones.find(imsi) {
            Some(phone) => match word {
                PhoneWord::Detach => self.go(phone, PhoneAct::Detach),
                PhoneWord::Off => self.go(phone, PhoneAct::Off),
                PhoneWord::Idle => self.rest(phone),
                PhoneWord::Deaf => Ok(self.deafen(phone)),
                PhoneWord::Replay => self.lie(phone, PhoneAct::Replay),
                PhoneWord::Forge => self.lie(phone, PhoneAct::Forge),
            },
            None => Ok(Acted::Skipped),
        }
    }

    /// Hands a message of the MME to its station; what station and phone answer is appended to the queue, in that order. Refused
    /// for lack of memory alone: nothing is appended then, but the station and the phone may have taken the message.
    pub fn deliver(
        &mut self,
        station: StationNumber,
        octets: &[u8],
        queue: &mut Vec<Uplink>,
    ) -> Result<(), AllocError>
        ensures ok { OnOk result (self.new ≡ (delivering station octets.now self.old).crowd) }
        ensures sent { OnOk result (queue.new.items ≡ queue.old.items ++ (delivering station octets.now self.old).sent) }
        ensures unsent { OnErr result (queue.new.items ≡ queue.old.items) }
        ensures err { OnErr result (StopsDelivering station octets.now self.old self.new) }
    {
        if !self.stations.has(station) {
            return Ok(());
        }
        queue.reserve(2)?;
        let (of_station, of_phone) = self.react(station, octets)?;
        push_answer(queue, of_station);
        push_answer(queue, of_phone);
        Ok(())
    }
}
