//! What a phone does, through its station.

ghost use Rattle.std.specs.Prelude.{◌≡◌, IfOk, OnOk, OnErr};
ghost use Rattle.sim_crowd.specs.Acting.{asking, beginning, come_to, deafening, entering, expecting, going, lying, outcome, resting, sent_on, speaking, switching, updating};
ghost use Rattle.sim_crowd.specs.Refused.{StopsArriving, StopsGoing, StopsSpeaking};
ghost use Rattle.sim_crowd.specs.Crowds.{arrived, at_one, current, joined};

use crate::acted::{Acted, Done, OrRefused, Sent};
use crate::crowd::Crowd;
use crate::phones::FirstWords;
use crate::whereabouts::{Connection, Standing, is_same_place};
use enb_sim::{PhoneAct, StationAct};
use s1ap_elements::UeIdPair;
use trace_words::RadioPlace;

impl Crowd {
    // A phone has this association alone, and is there.
    fn settle(&mut self, phone: usize, connection: &Connection)
        ensures { self.new ≡ at_one phone connection.now self.old }
    {
        let standing = self.phones.standing(phone);
        if connection.is_in(&standing.connection) {
            return;
        }
        self.stations.part(phone, connection, standing.connection);
        self.stations.part(phone, connection, standing.awaited);
        self.stations
            .depart(phone, &connection.place(), standing.place);
        self.phones.stand(phone, Standing::of(connection));
    }

    /// A phone has this association from now on, and no other. Refused, all is as it was.
    pub(crate) fn connect(&mut self, phone: usize, connection: &Connection) -> OrRefused<()>
        ensures ok { OnOk result (self.new ≡ joined phone connection.now self.old) }
        ensures err { OnErr result (self.new ≡ self.old) }
    {
        self.stations.connect(phone, connection)?;
        self.settle(phone, connection);
        Ok(())
    }

    // The association of a phone, while it has one: that to which its path was moved, from now on. Refused, all is as it was.
    fn connection(&mut self, phone: usize) -> OrRefused<Option<Connection>>
        ensures known { IfOk result (λ k. k ≡ current phone self.old) }
        ensures ok { OnOk result (self.new ≡ arrived phone self.old) }
        ensures err { OnErr result (self.new ≡ self.old) }
    {
        let standing = self.phones.standing(phone);
        match self.stations.served(phone, standing.awaited) {
            Some(moved) => {
                self.connect(phone, &moved)?;
                Ok(Some(moved))
            }
            None => Ok(self.stations.served(phone, standing.connection)),
        }
    }

    // A phone comes to a place by this act. Refused, all is as it was.
    fn come(&mut self, phone: usize, place: RadioPlace, act: PhoneAct) -> OrRefused<()>
        ensures ok { OnOk result (self.new ≡ come_to phone place act self.old) }
        ensures err { OnErr result (self.new ≡ self.old) }
    {
        let standing = self.phones.standing(phone);
        self.stations.come(phone, &place, act)?;
        self.stations.depart(phone, &place, standing.place);
        let here = Standing {
            place: Some(place),
            ..standing
        };
        self.phones.stand(phone, here);
        Ok(())
    }

    // A phone begins with these words at a place, by INITIAL UE MESSAGE. Refused, all is as it was.
    #[tactic(auto, unfolding(enb_sim::specs::View::act_octets))]
    fn begin(&mut self, phone: usize, place: RadioPlace, act: PhoneAct, words: &FirstWords) -> Done
        ensures ok { IfOk result (λ a. outcome a self.new ≡ beginning phone place act words.now self.old) }
        ensures err { OnErr result (self.new ≡ self.old) }
    {
        let sent = self.stations.send(
            place.station,
            &StationAct::Initial {
                enb_ue_id: place.enb_ue_id,
                nas: &words.nas,
                s_tmsi: words.s_tmsi,
            },
        )?;
        self.come(phone, place, act)?;
        Ok(Acted::by(sent))
    }

    /// A phone begins to speak at a place, if its station is set up.
    #[tactic(auto, unfolding(crate::specs::Acting::entering))]
    pub(crate) fn enter(&mut self, phone: usize, place: RadioPlace, act: PhoneAct) -> Done
        ensures ok { IfOk result (λ a. outcome a self.new ≡ entering phone place act self.old) }
        ensures err { OnErr result (StopsSpeaking phone act self.old self.new) }
    {
        if !self.stations.is_set_up(place.station) {
            return Ok(Acted::Skipped);
        }
        match self.phones.act(phone, act)? {
            Some(words) => self.begin(phone, place, act, &words),
            None => Ok(Acted::Skipped),
        }
    }

    /// Sends a phone's message by UPLINK NAS TRANSPORT, if its station serves the association.
    #[tactic(auto, unfolding(enb_sim::specs::View::act_octets))]
    pub(crate) fn send(&mut self, connection: &Connection, nas: &[u8]) -> Sent
        ensures sent { IfOk result (λ u. u ≡ sent_on connection.now nas.now self.old) }
        ensures same { self.new ≡ self.old }
    {
        self.stations.send(
            connection.station,
            &StationAct::Uplink {
                mme_ue_id: connection.pair.mme_ue_id,
                enb_ue_id: connection.pair.enb_ue_id,
                nas,
            },
        )
    }

    // A phone that has an association speaks by it.
    #[tactic(auto, unfolding(crate::specs::Acting::speaking))]
    fn speak(&mut self, phone: usize, connection: &Connection, act: PhoneAct) -> Done
        ensures ok { IfOk result (λ a. outcome a self.new ≡ speaking phone connection.now act self.old) }
        ensures err { OnErr result (StopsSpeaking phone act self.old self.new) }
    {
        match self.phones.act(phone, act)? {
            Some(words) => Ok(Acted::by(self.send(connection, &words.nas)?)),
            None => Ok(Acted::Skipped),
        }
    }

    /// A phone updates its tracking area at a place.
    #[tactic(auto, unfolding(crate::specs::Acting::updating))]
    pub(crate) fn update(&mut self, phone: usize, place: RadioPlace) -> Done
        ensures ok { IfOk result (λ a. outcome a self.new ≡ updating phone place self.old) }
        ensures err { OnErr result (StopsGoing phone PhoneAct.Tau self.old self.new) }
    {
        match self.connection(phone)? {
            Some(connection) if is_same_place(&connection.place(), &place) => {
                self.speak(phone, &connection, PhoneAct::Tau)
            }
            _ => self.enter(phone, place, PhoneAct::Tau),
        }
    }

    /// A phone's path moves to a place: it has the association there once the MME has moved it.
    #[tactic(auto, unfolding(crate::specs::Acting::switching))]
    pub(crate) fn switch(&mut self, phone: usize, place: RadioPlace) -> Done
        ensures ok { IfOk result (λ a. outcome a self.new ≡ switching phone place self.old) }
        ensures err { OnErr result (StopsArriving phone self.old self.new) }
    {
        match self.connection(phone)? {
            Some(connection) => {
                let station = place.station;
                let pair = UeIdPair {
                    mme_ue_id: connection.pair.mme_ue_id,
                    enb_ue_id: place.enb_ue_id,
                };
                self.ask_for_path(phone, &Connection { station, pair })
            }
            None => Ok(Acted::Skipped),
        }
    }

    // A phone's new station asks for its path. Refused, all is as it was.
    #[tactic(auto, unfolding(crate::specs::Acting::asking, enb_sim::specs::View::act_octets))]
    fn ask_for_path(&mut self, phone: usize, moved: &Connection) -> Done
        ensures ok { IfOk result (λ a. outcome a self.new ≡ asking phone moved.now self.old) }
        ensures err { OnErr result (self.new ≡ self.old) }
    {
        let sent = self.stations.send(
            moved.station,
            &StationAct::Switch {
                mme_ue_id: moved.pair.mme_ue_id,
                enb_ue_id: moved.pair.enb_ue_id,
            },
        );
        match sent? {
            Some(uplink) => {
                self.expect_path(phone, moved)?;
                Ok(Acted::Sends(uplink))
            }
            None => Ok(Acted::Skipped),
        }
    }

    // A phone has this association once the MME has moved its path. Refused, all is as it was.
    fn expect_path(&mut self, phone: usize, moved: &Connection) -> OrRefused<()>
        ensures ok { OnOk result (self.new ≡ expecting phone moved.now self.old) }
        ensures err { OnErr result (self.new ≡ self.old) }
    {
        let standing = self.phones.standing(phone);
        if moved.is_in(&standing.connection) {
            return Ok(());
        }
        self.stations.connect(phone, moved)?;
        self.stations.part(phone, moved, standing.awaited);
        let awaiting = Standing {
            awaited: Some(*moved),
            ..standing
        };
        self.phones.stand(phone, awaiting);
        Ok(())
    }

    /// A phone speaks where it is: by its association, or else at its last place.
    #[tactic(auto, unfolding(crate::specs::Acting::going))]
    pub(crate) fn go(&mut self, phone: usize, act: PhoneAct) -> Done
        ensures ok { IfOk result (λ a. outcome a self.new ≡ going phone act self.old) }
        ensures err { OnErr result (StopsGoing phone act self.old self.new) }
    {
        match self.connection(phone)? {
            Some(connection) => self.speak(phone, &connection, act),
            None => match self.phones.standing(phone).place {
                Some(place) => self.enter(phone, place, act),
                None => Ok(Acted::Skipped),
            },
        }
    }

    /// A phone's station asks for its release.
    #[tactic(auto, unfolding(enb_sim::specs::View::act_octets))]
    pub(crate) fn rest(&mut self, phone: usize) -> Done
        ensures ok { IfOk result (λ a. outcome a self.new ≡ resting phone self.old) }
        ensures err { OnErr result (StopsArriving phone self.old self.new) }
    {
        let Some(connection) = self.connection(phone)? else {
            return Ok(Acted::Skipped);
        };
        let sent = self.stations.send(
            connection.station,
            &StationAct::Release {
                mme_ue_id: connection.pair.mme_ue_id,
                enb_ue_id: connection.pair.enb_ue_id,
            },
        );
        Ok(Acted::by(sent?))
    }

    /// A phone sends what no honest one would, by its association.
    pub(crate) fn lie(&mut self, phone: usize, act: PhoneAct) -> Done
        ensures ok { IfOk result (λ a. outcome a self.new ≡ lying phone act self.old) }
        ensures err { OnErr result (StopsGoing phone act self.old self.new) }
    {
        match self.connection(phone)? {
            Some(connection) => self.speak(phone, &connection, act),
            None => Ok(Acted::Skipped),
        }
    }

    /// A phone answers nothing from now on.
    pub(crate) fn deafen(&mut self, phone: usize) -> Acted
        ensures { outcome result self.new ≡ deafening phone self.old }
    {
        self.phones.deafen(phone);
        Acted::Silent
    }
}
