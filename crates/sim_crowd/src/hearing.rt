//! What comes of the MME's messages.

ghost use Rattle.std.specs.Prelude.{◌≡◌, ◌++◌, ◌+◌, ◌<◌, ◌≤◌, IfOk, OnOk, OnErr, option_map, vec_len};
ghost use Rattle.std.specs.Vec.{vec_capacity};
ghost use Rattle.enb_sim.specs.Delivering.{seen_nas};
ghost use Rattle.sim_crowd.specs.Refused.{StopsDelivering, StopsHandingTo, StopsHearing, StopsReacting};
ghost use Rattle.sim_crowd.specs.Stations.{phone_by};
ghost use Rattle.sim_crowd.specs.Hearing.{answered, delivering_there, handing, hearing_on, noticed, one_if, reacting, reaction};

use crate::acted::{OrRefused, Sent, Uplink};
use crate::crowd::Crowd;
use crate::whereabouts::Connection;
use enb_sim::PhoneNas;
use identity_slots::StationNumber;

/// An answer comes to the end of the queue, if there is one. There is room for it.
pub(crate) fn push_answer(queue: &mut Vec<Uplink>, answer: Option<Uplink>)
    requires { vec_len queue.old < vec_capacity queue.old }
    ensures items { queue.new.items ≡ queue.old.items ++ one_if answer }
    ensures len { vec_len queue.new ≤ vec_len queue.old + 1 }
    ensures capacity { vec_capacity queue.new ≡ vec_capacity queue.old }
{
    if let Some(uplink) = answer {
        queue.push_reserved(uplink);
    }
}

impl Crowd {
    // A phone takes a NAS message on an association: what it answers.
    fn hear(&mut self, phone: usize, connection: &Connection, nas: &[u8]) -> Sent
        ensures ok { IfOk result (λ u. reaction u self.new ≡ hearing_on phone connection.now nas.now self.old) }
        ensures err { OnErr result (StopsHearing phone nas.now self.old self.new) }
    {
        match self.phones.hear(phone, nas)? {
            Some(answer) => self.send(connection, &answer),
            None => Ok(None),
        }
    }

    // Hands a NAS message to the phone of its association.
    fn hand_over(&mut self, connection: &Connection, nas: &[u8]) -> Sent
        ensures ok { IfOk result (λ u. reaction u self.new ≡ handing connection.now nas.now self.old) }
        ensures err { OnErr result
            (StopsHandingTo (phone_by connection.now self.old.stations) connection.now nas.now self.old self.new) }
    {
        match self.stations.phone_by(connection) {
            Some(phone) => {
                self.connect(phone, connection)?;
                self.hear(phone, connection, nas)
            }
            None => Ok(None),
        }
    }

    // A message without NAS may give a phone an association, too: a context, or a path that was moved. Refused, all is as it was.
    fn notice(&mut self, station: StationNumber, octets: &[u8]) -> OrRefused<()>
        ensures ok { OnOk result (self.new ≡ noticed station octets.now self.old) }
        ensures err { OnErr result (self.new ≡ self.old) }
    {
        let Some(pair) = self.stations.given_pair(octets)? else {
            return Ok(());
        };
        let connection = Connection { station, pair };
        match self.stations.phone_by(&connection) {
            Some(phone) => self.connect(phone, &connection),
            None => Ok(()),
        }
    }

    /// A station takes a message of the MME, and so does the phone for which it is: what they answer.
    pub(crate) fn react(
        &mut self,
        station: StationNumber,
        octets: &[u8],
    ) -> OrRefused<(Option<Uplink>, Option<Uplink>)>
        ensures ok { IfOk result (λ a. answered a.0 a.1 self.new ≡ delivering_there station octets.now self.old) }
        ensures err { OnErr result (StopsDelivering station octets.now self.old self.new) }
    {
        let told = self.stations.deliver(station, octets)?;
        let of_phone = self.pass_on(station, octets, &told.nas)?;
        let of_station = Uplink::of(station, told.octets);
        Ok((of_station, of_phone))
    }

    // What comes of the rest of a message: its NAS message, if it has one, or else the association that it gives.
    fn pass_on(&mut self, station: StationNumber, octets: &[u8], nas: &Option<PhoneNas<'_>>) -> Sent
        ensures ok { IfOk result (λ u. reaction u self.new ≡ reacting station octets.now (option_map seen_nas nas.now) self.old) }
        ensures err { OnErr result (StopsReacting station (option_map seen_nas nas.now) self.old self.new) }
    {
        match nas {
            Some(message) => {
                let pair = message.pair;
                self.hand_over(&Connection { station, pair }, message.nas)
            }
            None => {
                self.notice(station, octets)?;
                Ok(None)
            }
        }
    }
}
