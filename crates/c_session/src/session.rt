//! A session: what is provisioned or the MME, and the replies to the last event that was taken.

ghost use Rattle.std.specs.Prelude.{◌≡◌, option_map};
ghost use Rattle.trace_progress.specs.Effects.{configured, in_event, subscriber_added, vector_given};
ghost use Rattle.c_session.specs.Asked.{slot_of, states_of};
ghost use Rattle.c_session.specs.Kept.{count_at, message_at};
ghost use Rattle.c_session.specs.Sessions.{Leaves, Starts, added, begun, cancelled, data_waits, down, given, happened, heard, nothing, started, up, with_effect};

use crate::arguments::{imsi_of, network_of, profile_of, station_of, vector_of};
use crate::refusal::{Refusal, of_step, told, told_of_start};
use crate::replies::Replies;
use emm_machine::States;
use identity_slots::{Profile, Slot, StationNumber, Vector};
use mme_core::{Event, Out};
use mme_types::Network;
use nas_elements::Imsi;
use std::alloc::Global;
use trace_progress::{Progress, add, give, run, start, states_of_imsi};

/// What a handle holds.
#[derive(Drop)]
pub struct Session {
    /// How far a trace has got: what is provisioned, or the MME.
    pub progress: Progress,
    /// The replies to the last event that was taken.
    pub replies: Replies,
}

impl Session {
    /// Nothing is provisioned, and nothing has happened; takes no memory.
    pub fn new(alloc: Global) -> Session
        ensures { result ≡ nothing }
    {
        Session {
            progress: Progress::Nothing,
            replies: Replies::none(alloc),
        }
    }

    /// Begins the provisioning: the network in 3 octets as S1AP has it (TS 36.413 clause 9.2.3.8), the MME's group and code, the
    /// access point name of each phone, and its bit rates. BadOctets or BadNumber of the first argument that isn't so, then Order
    /// where something is provisioned or the MME runs.
    pub fn begin(
        &mut self,
        alloc: Global,
        plmn: &[u8],
        group: u16,
        code: u8,
        apn: &[u8],
        down: u64,
        up: u64,
    ) -> Result<(), Refusal>
        ensures { Leaves (begun self.old plmn.now group code apn.now down up) self.old result self.new }
    {
        let network = network_of(plmn, group, code, apn, down, up)?;
        self.configure(alloc, network)
    }

    /// Begins the provisioning; Order where something is provisioned or the MME runs.
    #[tactic(auto, using(crate::proofs::Left::leaves_effect))]
    pub(crate) fn configure(&mut self, alloc: Global, network: Network) -> Result<(), Refusal>
        ensures { Leaves (with_effect self.old (configured self.old.progress network)) self.old result self.new }
    {
        told(start(alloc, &mut self.progress, 0, network))
    }

    /// Provisions a subscriber: its IMSI in digits, its address, that of its S-GW, and the S-GW's tunnel end. BadNumber where that
    /// is no IMSI, Order before the provisioning and once the MME runs, Provision where the subscriber is refused, then NoMemory.
    pub fn add(&mut self, imsi: &[u8], address: u32, gateway: u32, teid: u32) -> Result<(), Refusal>
        ensures { Leaves (added self.old imsi.now address gateway teid) self.old result self.new }
    {
        let profile = profile_of(imsi, address, gateway, teid)?;
        self.subscribe(profile)
    }

    /// Provisions a subscriber; refused as in `add`.
    #[tactic(auto, using(crate::proofs::Left::leaves_effect))]
    pub(crate) fn subscribe(&mut self, profile: Profile) -> Result<(), Refusal>
        ensures { Leaves (with_effect self.old (subscriber_added self.old.progress profile)) self.old result self.new }
    {
        told(add(&mut self.progress, 0, profile))
    }

    /// Gives a subscriber a vector: RAND and AUTN of 16 octets, XRES of 4 to 16, KASME of 32. BadNumber where that is no IMSI,
    /// BadOctets where there are more or fewer octets, Order before the provisioning and once the MME runs, Provision where nobody
    /// has the IMSI or the subscriber has 64 vectors, then NoMemory.
    pub fn give(
        &mut self,
        imsi: &[u8],
        rand: &[u8],
        autn: &[u8],
        xres: &[u8],
        kasme: &[u8],
    ) -> Result<(), Refusal>
        ensures { Leaves (given self.old imsi.now rand.now autn.now xres.now kasme.now) self.old result self.new }
    {
        let imsi = imsi_of(imsi)?;
        let vector = vector_of(rand, autn, xres, kasme)?;
        self.equip(imsi, vector)
    }

    /// Gives a subscriber a vector; refused as in `give`.
    #[tactic(auto, using(crate::proofs::Left::leaves_effect))]
    pub(crate) fn equip(&mut self, imsi: Imsi, vector: Vector) -> Result<(), Refusal>
        ensures { Leaves (with_effect self.old (vector_given self.old.progress imsi vector)) self.old result self.new }
    {
        told(give(&mut self.progress, 0, imsi, vector))
    }

    /// Makes the MME of what is provisioned, where it doesn't run yet. Order where nothing is, and then all is as it was; Lost
    /// where memory ran out, and then nothing is provisioned any more.
    #[tactic(auto, using(crate::proofs::Left::starts_by_run))]
    pub fn start(&mut self, alloc: Global) -> Result<(), Refusal>
        ensures { Starts (started self.old) self.old result self.new }
    {
        told_of_start(run(alloc, &mut self.progress, 0))
    }

    /// A station connects. BadNumber for a station above 127, NoMme, AlreadyUp, then NoMemory.
    pub fn up(&mut self, station: u8) -> Result<(), Refusal>
        ensures { Leaves (up self.old station) self.old result self.new }
    {
        let station = station_of(station)?;
        self.happen(&Event::Up(station))
    }

    /// A station's connection is lost. BadNumber for a station above 127, NoMme, NotUp, then NoMemory.
    pub fn down(&mut self, station: u8) -> Result<(), Refusal>
        ensures { Leaves (down self.old station) self.old result self.new }
    {
        let station = station_of(station)?;
        self.happen(&Event::Lost(station))
    }

    /// A station sends one whole message. BadNumber for a station above 127, NoMme, NotUp, then NoMemory.
    pub fn hear(&mut self, station: u8, octets: &[u8]) -> Result<(), Refusal>
        ensures { Leaves (heard self.old station octets.now) self.old result self.new }
    {
        let station = station_of(station)?;
        self.hear_from(station, octets)
    }

    /// A station sends one whole message. NoMme, NotUp, then NoMemory.
    #[tactic(auto, using(crate::proofs::Heard::heard_octets))]
    pub(crate) fn hear_from(&mut self, station: StationNumber, octets: &[u8]) -> Result<(), Refusal>
        ensures { Leaves (happened self.old (in_event station octets.now)) self.old result self.new }
    {
        self.happen(&Event::In(station, octets))
    }

    /// Downlink data waits for a subscriber. BadNumber where that is no IMSI, NoMme, UnknownImsi, then NoMemory.
    pub fn data_waits(&mut self, imsi: &[u8]) -> Result<(), Refusal>
        ensures { Leaves (data_waits self.old imsi.now) self.old result self.new }
    {
        let imsi = imsi_of(imsi)?;
        self.happen(&Event::Data(imsi))
    }

    /// A subscription is withdrawn. BadNumber where that is no IMSI, NoMme, UnknownImsi, then NoMemory.
    pub fn cancel(&mut self, imsi: &[u8]) -> Result<(), Refusal>
        ensures { Leaves (cancelled self.old imsi.now) self.old result self.new }
    {
        let imsi = imsi_of(imsi)?;
        self.happen(&Event::Cancel(imsi))
    }

    /// An event, whose reply is kept where it is taken. NoMme, why the event is refused, then NoMemory.
    pub(crate) fn happen(&mut self, event: &Event<'_>) -> Result<(), Refusal>
        ensures { Leaves (happened self.old event.now) self.old result self.new }
    {
        let Progress::Running(mme) = &mut self.progress else {
            return Err(Refusal::NoMme);
        };
        match mme.step(event) {
            Ok(outs) => {
                if let Some(before) = self.replies.exchange(outs) {
                    mme.take_back(before);
                }
                Ok(())
            }
            Err(fault) => Err(of_step(fault)),
        }
    }

    /// How many messages the reply at a place has. NoOutput where there is none, else why that event was refused.
    pub fn count(&self, reply: usize) -> Result<usize, Refusal>
        ensures { result ≡ count_at self.now.replies reply }
    {
        match self.replies.get(reply) {
            Some(Ok(outs)) => Ok(outs.len()),
            Some(Err(fault)) => Err(of_step(fault)),
            None => Err(Refusal::NoOutput),
        }
    }

    /// The message at a place of the reply at a place, if there is one.
    pub fn message(&self, reply: usize, index: usize) -> Option<&Out>
        ensures { option_map (λ out. out.now) result ≡ message_at self.entry.now.replies reply index }
    {
        match self.replies.get(reply) {
            Some(Ok(outs)) => outs.get(index),
            Some(Err(_)) | None => None,
        }
    }

    /// The states of the subscriber of an IMSI. BadNumber where that is none, NoMme, then UnknownImsi.
    pub fn states(&self, imsi: &[u8]) -> Result<States, Refusal>
        ensures { result ≡ states_of self.now imsi.now }
    {
        let imsi = imsi_of(imsi)?;
        let Progress::Running(mme) = &self.progress else {
            return Err(Refusal::NoMme);
        };
        states_of_imsi(mme, imsi).ok_or(Refusal::UnknownImsi)
    }

    /// The slot of the subscriber of an IMSI. BadNumber where that is none, NoMme, then UnknownImsi.
    pub fn slot(&self, imsi: &[u8]) -> Result<Slot, Refusal>
        ensures { result ≡ slot_of self.now imsi.now }
    {
        let imsi = imsi_of(imsi)?;
        let Progress::Running(mme) = &self.progress else {
            return Err(Refusal::NoMme);
        };
        mme.slot_of_imsi(imsi).ok_or(Refusal::UnknownImsi)
    }
}
