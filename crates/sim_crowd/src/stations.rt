//! The stations.

ghost use Rattle.std.specs.Prelude.{◌≡◌, ◌<◌, [], IfOk, IfSome, OnOk, OnErr, true, is_some, length, not, option_map};
ghost use Rattle.enb_sim.specs.View.{act_octets};
ghost use Rattle.sim_crowd.specs.Acting.{setup_octets};
ghost use Rattle.s1ap_pdus.specs.Pdus.{decoded};
ghost use Rattle.sim_crowd.specs.Hearing.{given_pair};
ghost use Rattle.sim_crowd.specs.Items.{item_of};
ghost use Rattle.sim_crowd.specs.Sites.{hearing_site, left_site, with_comer, with_phone, without_comer, without_phone};
ghost use Rattle.sim_crowd.specs.Stations.{changed_site, departed, is_quiet, is_set_up, parted, phone_by, place_of_site, seen_told, sent_by, served, site_of, told_at, with_station};

use crate::acted::{OrRefused, Sent, Uplink};
use crate::index::Index;
use crate::site::{Site, pair_key};
use crate::whereabouts::{Connection, is_same_place};
use enb_sim::{Delivery, PhoneAct, StationAct};
use identity_slots::StationNumber;
use s1ap_elements::UeIdPair;
use s1ap_messages::{Pdu, S1apFault, decode};
use std::alloc::{AllocError, Global};
use std::marker::Model;
use trace_words::{RadioPlace, StationLine};

/// The stations in the order in which they were added; each is found by its number.
#[derive(Drop)]
pub(crate) struct Stations {
    alloc: Global,
    sites: Vec<Site>,
    numbers: Index,
}

impl Model for Stations {
    ghost use Rattle.std.specs.Prelude.{List};
    ghost use Rattle.sim_crowd.specs.declared.site.Site.{Site};
    ghost use Rattle.sim_crowd.specs.Stations.{IsStationIndex};

    ghost Value = { List Site };

    ghost view = { λ s. s.sites.items };

    ghost invariant = { λ s. IsStationIndex s.numbers s.sites.items };
}

impl Stations {
    /// No station.
    pub(crate) fn new(alloc: Global) -> Stations
        ensures { result ≡ [] }
    {
        Stations {
            alloc,
            sites: Vec::new(alloc),
            numbers: Index::new(alloc),
        }
    }

    /// The association that a message without NAS gives a phone.
    pub(crate) fn given_pair(&self, octets: &[u8]) -> OrRefused<Option<UeIdPair>>
        ensures { IfOk result (λ pair. pair ≡ given_pair (decoded octets.now)) }
    {
        match decode(self.alloc, octets) {
            Ok(Pdu::InitialContextSetupRequest(message)) => Ok(Some(UeIdPair {
                mme_ue_id: message.mme_ue_id,
                enb_ue_id: message.enb_ue_id,
            })),
            Ok(Pdu::PathSwitchRequestAcknowledge(message)) => Ok(Some(UeIdPair {
                mme_ue_id: message.mme_ue_id,
                enb_ue_id: message.enb_ue_id,
            })),
            Ok(_) => Ok(None),
            Err(S1apFault::NoMemory) => Err(AllocError),
            Err(_) => Ok(None),
        }
    }

    /// The station of that number.
    fn get(&self, station: StationNumber) -> Option<&Site>
        ensures { option_map (λ s. s.now) result ≡ site_of station self.entry.now }
    {
        self.sites.as_slice().get(self.place_of(station)?)
    }

    // The place of the station of that number.
    fn place_of(&self, station: StationNumber) -> Option<usize>
        ensures place { result ≡ place_of_site station self.now }
        ensures bound { IfSome result (λ place. place < length self.now) }
        ensures site { item_of result self.now ≡ site_of station self.now }
    {
        self.numbers.get(u128::from(station.get()))
    }

    /// Whether there is a station of that number.
    pub(crate) fn has(&self, station: StationNumber) -> bool
        ensures { result ≡ is_some (site_of station self.now) }
    {
        self.get(station).is_some()
    }

    /// Whether a station takes what phones send.
    pub(crate) fn is_set_up(&self, station: StationNumber) -> bool
        ensures { result ≡ is_set_up (site_of station self.now) }
    {
        match self.get(station) {
            Some(site) => site.station.is_ready(),
            None => false,
        }
    }

    /// The phone with this association.
    pub(crate) fn phone_by(&self, connection: &Connection) -> Option<usize>
        ensures { result ≡ phone_by connection.now self.now }
    {
        let site = self.get(connection.station)?;
        site.phone_with(&connection.pair)
    }

    /// The association, if a phone has it.
    pub(crate) fn served(&self, phone: usize, known: Option<Connection>) -> Option<Connection>
        ensures { result ≡ served phone known self.now }
    {
        let connection = known?;
        match self.get(connection.station) {
            Some(site) if site.serves(phone, &connection.pair) => Some(connection),
            _ => None,
        }
    }

    /// Adds a station, unless there is one of its number: whether it was added. Refused, all is as it was.
    pub(crate) fn add(&mut self, plmn: [u8; 3], line: &StationLine) -> Result<bool, AllocError>
        ensures added { IfOk result (λ added. added ≡ not (is_some (site_of line.now.station self.old))) }
        ensures ok { OnOk result (self.new ≡ with_station plmn line.now self.old) }
        ensures err { OnErr result (self.new ≡ self.old) }
    {
        if self.has(line.station) {
            return Ok(false);
        }
        let place = self.sites.len();
        self.sites.reserve(1)?;
        self.numbers.put(u128::from(line.station.get()), place)?;
        self.sites.push_reserved(Site::new(self.alloc, plmn, line));
        Ok(true)
    }

    /// A station asks to be set up. Refused, all is as it was.
    pub(crate) fn set_up(&mut self, station: StationNumber) -> Sent
        ensures sent { IfOk result (λ u. u ≡ sent_by station setup_octets self.old) }
        ensures ok { OnOk result (self.new ≡ changed_site station left_site self.old) }
        ensures err { OnErr result (self.new ≡ self.old) }
    {
        match self.place_of(station) {
            Some(place) => {
                let alloc = self.alloc;
                let octets = self.sites[place].set_up(alloc)?;
                Ok(Uplink::of(station, octets))
            }
            None => Ok(None),
        }
    }

    /// A station's connection is lost.
    pub(crate) fn lose(&mut self, station: StationNumber)
        ensures { self.new ≡ changed_site station left_site self.old }
    {
        if let Some(place) = self.place_of(station) {
            let alloc = self.alloc;
            self.sites[place].lose(alloc);
        }
    }

    /// A phone came to a place. Refused, all is as it was.
    pub(crate) fn come(&mut self, phone: usize, place: &RadioPlace, act: PhoneAct) -> OrRefused<()>
        ensures ok { OnOk result (self.new ≡ changed_site place.now.station (with_comer phone place.now act) self.old) }
        ensures err { OnErr result (self.new ≡ self.old) }
    {
        match self.place_of(place.station) {
            Some(at) => self.sites[at].come(phone, place, act),
            None => Ok(()),
        }
    }

    /// A phone is gone from where it was, unless it is there.
    pub(crate) fn depart(&mut self, phone: usize, place: &RadioPlace, was: Option<RadioPlace>)
        ensures { self.new ≡ departed phone place.now was self.old }
    {
        let Some(was) = was else {
            return;
        };
        if is_same_place(&was, place) {
            return;
        }
        if let Some(at) = self.place_of(was.station) {
            self.sites[at]
                .comers
                .take(u128::from(was.enb_ue_id.get()), phone);
        }
    }

    /// A phone has this association, or will have it. Refused, all is as it was.
    pub(crate) fn connect(&mut self, phone: usize, connection: &Connection) -> OrRefused<()>
        ensures ok { OnOk result
            (self.new ≡ changed_site connection.now.station (with_phone phone connection.now.pair) self.old) }
        ensures err { OnErr result (self.new ≡ self.old) }
    {
        match self.place_of(connection.station) {
            Some(at) => self.sites[at]
                .connected
                .put(pair_key(&connection.pair), phone),
            None => Ok(()),
        }
    }

    /// A phone hasn't an old association, unless it is the one that it keeps.
    pub(crate) fn part(&mut self, phone: usize, kept: &Connection, old: Option<Connection>)
        ensures { self.new ≡ parted phone kept.now old self.old }
    {
        let Some(old) = old else {
            return;
        };
        if old.is_same(kept) {
            return;
        }
        if let Some(at) = self.place_of(old.station) {
            self.sites[at].connected.take(pair_key(&old.pair), phone);
        }
    }

    /// A station's message by an act that leaves the station as it is.
    pub(crate) fn send(&mut self, station: StationNumber, act: &StationAct<'_>) -> Sent
        requires { is_quiet act.now ≡ true }
        ensures sent { IfOk result (λ u. u ≡ sent_by station (act_octets act.now) self.old) }
        ensures same { self.new ≡ self.old }
    {
        match self.place_of(station) {
            Some(place) => {
                let octets = self.sites[place].station.act(act)?;
                Ok(Uplink::of(station, octets))
            }
            None => Ok(None),
        }
    }

    /// A station takes octets of the MME. Refused, all is as it was.
    pub(crate) fn deliver<'a>(
        &mut self,
        station: StationNumber,
        octets: &'a [u8],
    ) -> Result<Delivery<'a>, AllocError>
        ensures told { IfOk result (λ d. seen_told d ≡ told_at station octets.entry.now self.old) }
        ensures ok { OnOk result (self.new ≡ changed_site station (hearing_site octets.entry.now) self.old) }
        ensures err { OnErr result (self.new ≡ self.old) }
    {
        match self.place_of(station) {
            Some(place) => self.sites[place].station.deliver(octets),
            None => Ok(Delivery {
                octets: None,
                nas: None,
            }),
        }
    }
}
