//! A station.

ghost use Rattle.std.specs.Prelude.{◌≡◌, ◌≢◌, ◌&&◌, ℕ, IfOk, OnOk, OnErr, IfSome, IsSome, Ok, Some, None, [], false, option_map};
ghost use Rattle.s1ap_pdus.specs.Pdus.{context_setup_request_lists, decoded, downlink_nas_transport_lists, encoded, listed};
ghost use Rattle.s1ap_pdus.specs.declared.pdu.Pdu.TheVariants as pdu;
ghost use Rattle.enb_sim.specs.Sending.{setup_pdu};
ghost use Rattle.enb_sim.specs.Delivering.{delivered, holding, holds_pair, pair_with, received, ended, handed, named_pair, seen_delivery, unmoved};
ghost use Rattle.enb_sim.specs.View.{act_octets, after_station_act, can_act, new_station};

use crate::delivering::{Delivery, first_bearer, handed};
use crate::messages::{
    Sent, context_response, initial, release_complete, release_request, switch, uplink,
};
use crate::pairs::{drop_pair, hold_pair, holds_pair, pair_of, pair_with};
use crate::profile::StationProfile;
use crate::setup::setup;
use identity_slots::StationNumber;
use per_bits::BitField;
use s1ap_elements::{EnbUeId, MmeUeId, Plmn, STmsi, Tac, UeIdPair, UeS1apIds};
use s1ap_messages::{DownlinkNasTransport, InitialContextSetupRequest, Pdu, S1apFault, decode};
use std::alloc::{AllocError, Global};
use std::marker::Model;

/// What a station does of its own accord.
#[derive(Clone, Copy)]
pub enum StationAct<'a> {
    /// S1 SETUP REQUEST. Always done; what associations there were have ended.
    SetUp,
    /// INITIAL UE MESSAGE with a phone's first NAS message.
    Initial {
        enb_ue_id: EnbUeId,
        nas: &'a [u8],
        s_tmsi: Option<STmsi>,
    },
    /// UPLINK NAS TRANSPORT on an association that the station holds.
    Uplink {
        mme_ue_id: MmeUeId,
        enb_ue_id: EnbUeId,
        nas: &'a [u8],
    },
    /// PATH SWITCH REQUEST: a phone came here with an association of another station, under a new eNB UE S1AP ID.
    Switch {
        mme_ue_id: MmeUeId,
        enb_ue_id: EnbUeId,
    },
    /// UE CONTEXT RELEASE REQUEST for inactivity, of an association that the station holds.
    Release {
        mme_ue_id: MmeUeId,
        enb_ue_id: EnbUeId,
    },
}

/// A simulated station, whose calls are as defined. If there is nothing to send, since the act can't be done or its NAS message is
/// too long, that is the answer whatever memory there is. Setting up always answers an S1 SETUP REQUEST that is decoded as the one
/// with its PLMN, macro id and TAC, DRX 128 and no name.
///
/// It has what never changes of it, whether it is set up, and the associations that it holds, by their two numbers.
#[derive(Drop)]
pub struct Station {
    alloc: Global,
    profile: StationProfile,
    ready: bool,
    pairs: Vec<UeIdPair>,
}

impl Model for Station {
    ghost use Rattle.enb_sim.specs.Delivering.{StationView};

    ghost Value = { StationView };

    ghost view = { λ s. record { profile = s.profile; ready = s.ready; pairs = s.pairs.items } };
}

impl Station {
    /// A station that isn't set up and holds no association, by its number here, its network in the form of S1AP, its Macro eNB ID
    /// and its one tracking area. Takes no memory.
    pub fn new(
        alloc: Global,
        number: StationNumber,
        plmn: Plmn,
        macro_id: BitField<20>,
        tac: Tac,
    ) -> Station
        ensures { result
            ≡ new_station (record { number = number; plmn = plmn; macro_id = macro_id; tac = tac }) }
    {
        Station {
            alloc,
            profile: StationProfile {
                number,
                plmn,
                macro_id,
                tac,
            },
            ready: false,
            pairs: Vec::new(alloc),
        }
    }

    /// Whether the MME has taken it.
    pub fn is_ready(&self) -> bool
        ensures { result ≡ self.now.ready }
    {
        self.ready
    }

    /// Whether it holds the association with these ids.
    pub fn holds(&self, mme_ue_id: MmeUeId, enb_ue_id: EnbUeId) -> bool
        ensures { result ≡ holds_pair (pair_with mme_ue_id enb_ue_id) self.now.pairs }
    {
        holds_pair(&self.pairs, &pair_with(mme_ue_id, enb_ue_id))
    }

    // Whether it is set up and holds an association.
    fn serves(&self, pair: &UeIdPair) -> bool
        ensures { result ≡ (self.now.ready && holds_pair pair.now self.now.pairs) }
    {
        if !self.ready {
            return false;
        }
        holds_pair(&self.pairs, pair)
    }

    /// Its connection to the MME is lost: it isn't set up, and its associations have ended.
    pub fn down(&mut self)
        ensures { self.new ≡ new_station self.old.profile }
    {
        self.ready = false;
        self.pairs.clear();
    }

    // S1 SETUP REQUEST; what associations there were have ended.
    fn set_up(&mut self) -> Result<Vec<u8>, AllocError>
        ensures octets { IfOk result (λ o. encoded (setup_pdu self.old.profile) ≡ Some o.items) }
        ensures read { IfOk result (λ o. decoded o.items ≡ Ok (setup_pdu self.old.profile)) }
        ensures written { encoded (setup_pdu self.old.profile) ≢ None }
        ensures station { OnOk result (self.new ≡ new_station self.old.profile) }
        ensures err { OnErr result (self.new ≡ self.old) }
    {
        let octets = setup(self.alloc, &self.profile)?;
        self.down();
        Ok(octets)
    }

    /// Does an act: the octets to send, or `None` where there are none, since it can't be done or its NAS message is too long,
    /// whatever memory there is. Refused for lack of memory alone, and the station is then as it was.
    #[tactic(auto, unfolding(crate::specs::View::act_octets, crate::specs::View::can_act))]
    pub fn act(&mut self, act: &StationAct<'_>) -> Sent
        ensures octets { IfOk result (λ o. option_map (λ v. v.items) o ≡ act_octets act.now self.old) }
        ensures station { OnOk result (self.new ≡ after_station_act act.now self.old) }
        ensures undone { can_act act.now self.old ≡ false → result ≡ Ok None }
        ensures unsent { act_octets act.now self.old ≡ None → result ≡ Ok None }
        ensures err { OnErr result (self.new ≡ self.old) }

        // Setting up always answers the request, which is decoded as that.
        ensures set_up { act.now ≡ StationAct.SetUp → IfOk result (λ o. IsSome o) }
        ensures read { act.now ≡ StationAct.SetUp
            → IfOk result (λ o. IfSome o (λ v. decoded v.items ≡ Ok (setup_pdu self.old.profile))) }
    {
        let alloc = self.alloc;
        match act {
            StationAct::SetUp => Ok(Some(self.set_up()?)),
            StationAct::Initial {
                enb_ue_id,
                nas,
                s_tmsi,
            } => {
                if !self.ready {
                    return Ok(None);
                }
                initial(alloc, &self.profile, *enb_ue_id, nas, *s_tmsi)
            }
            StationAct::Uplink {
                mme_ue_id,
                enb_ue_id,
                nas,
            } => {
                let pair = pair_with(*mme_ue_id, *enb_ue_id);
                if !self.serves(&pair) {
                    return Ok(None);
                }
                uplink(alloc, &self.profile, pair, nas)
            }
            StationAct::Switch {
                mme_ue_id,
                enb_ue_id,
            } => {
                if !self.ready {
                    return Ok(None);
                }
                switch(alloc, &self.profile, pair_with(*mme_ue_id, *enb_ue_id))
            }
            StationAct::Release {
                mme_ue_id,
                enb_ue_id,
            } => {
                let pair = pair_with(*mme_ue_id, *enb_ue_id);
                if !self.serves(&pair) {
                    return Ok(None);
                }
                release_request(alloc, pair)
            }
        }
    }

    // It holds the association, sends these octets, and hands this NAS message to the phone.
    fn give<'a>(
        &mut self,
        pair: UeIdPair,
        octets: Option<Vec<u8>>,
        nas: Option<&'a [u8]>,
    ) -> Result<Delivery<'a>, AllocError>
        ensures ok { IfOk result (λ d. seen_delivery d self.new
            ≡ record {
              octets = option_map (λ o. o.items) octets;
              nas = handed pair
                  (listed nas.entry);
              station = holding pair self.old;
            }) }
        ensures err { OnErr result (self.new ≡ self.old) }
    {
        hold_pair(&mut self.pairs, &pair)?;
        Ok(Delivery {
            octets,
            nas: handed(pair, nas),
        })
    }

    // DOWNLINK NAS TRANSPORT.
    fn hand_down<'a>(
        &mut self,
        message: DownlinkNasTransport<&'a [u8]>,
    ) -> Result<Delivery<'a>, AllocError>
        ensures ok { IfOk result (λ d. seen_delivery d self.new
            ≡ received (pdu.DownlinkNasTransport (downlink_nas_transport_lists message.entry)) self.old) }
        ensures err { OnErr result (self.new ≡ self.old) }
    {
        let pair = pair_with(message.mme_ue_id, message.enb_ue_id);
        self.give(pair, None, Some(message.nas))
    }

    // INITIAL CONTEXT SETUP REQUEST.
    fn serve<'a>(
        &mut self,
        message: InitialContextSetupRequest<'a, &'a [u8]>,
    ) -> Result<Delivery<'a>, AllocError>
        ensures ok { IfOk result (λ d. seen_delivery d self.new
            ≡ received (pdu.InitialContextSetupRequest (context_setup_request_lists message.entry)) self.old) }
        ensures err { OnErr result (self.new ≡ self.old) }
    {
        let pair = pair_with(message.mme_ue_id, message.enb_ue_id);
        match first_bearer(message.erabs.as_slice()) {
            Some((id, nas)) => {
                let octets = context_response(self.alloc, &self.profile, &pair, id)?;
                self.give(pair, octets, nas)
            }
            None => self.give(pair, None, None),
        }
    }

    // UE CONTEXT RELEASE COMMAND.
    fn release<'a>(&mut self, pair: Option<UeIdPair>) -> Result<Delivery<'a>, AllocError>
        ensures ok { IfOk result (λ d. seen_delivery d self.new ≡ ended pair self.old) }
        ensures err { OnErr result (self.new ≡ self.old) }
    {
        let Some(pair) = pair else {
            return Ok(Delivery::nothing());
        };
        let octets = release_complete(self.alloc, pair)?;
        drop_pair(&mut self.pairs, &pair);
        Ok(Delivery { octets, nas: None })
    }

    // The association that a command names.
    fn named_pair(&self, ids: UeS1apIds) -> Option<UeIdPair>
        ensures { result ≡ named_pair ids self.now.pairs }
    {
        match ids {
            UeS1apIds::Pair(pair) => Some(pair),
            UeS1apIds::MmeUeId(mme_ue_id) => pair_of(&self.pairs, mme_ue_id),
        }
    }

    // PATH SWITCH REQUEST ACKNOWLEDGE.
    fn hold<'a>(
        &mut self,
        mme_ue_id: MmeUeId,
        enb_ue_id: EnbUeId,
    ) -> Result<Delivery<'a>, AllocError>
        ensures ok { IfOk result (λ d. seen_delivery d self.new ≡ unmoved (holding (pair_with mme_ue_id enb_ue_id) self.old)) }
        ensures err { OnErr result (self.new ≡ self.old) }
    {
        self.give(pair_with(mme_ue_id, enb_ue_id), None, None)
    }

    // The MME has taken it, or not.
    fn taken<'a>(&mut self, ready: bool) -> Delivery<'a>
        ensures { seen_delivery result self.new ≡ unmoved (record self.old { ready = ready }) }
    {
        self.ready = ready;
        Delivery::nothing()
    }

    /// Takes S1AP octets of the MME. Octets that can't be read, and messages that ask nothing of a station, change nothing.
    /// Refused for lack of memory alone, and the station is then as it was.
    #[tactic(auto, unfolding(crate::specs::Delivering::delivered))]
    pub fn deliver<'a>(&mut self, octets: &'a [u8]) -> Result<Delivery<'a>, AllocError>
        ensures ok { IfOk result (λ d. seen_delivery d self.new ≡ delivered octets.entry.now self.old) }
        ensures err { OnErr result (self.new ≡ self.old) }
    {
        match decode(self.alloc, octets) {
            Ok(Pdu::S1SetupResponse(_)) => Ok(self.taken(true)),
            Ok(Pdu::S1SetupFailure(_)) => Ok(self.taken(false)),
            Ok(Pdu::DownlinkNasTransport(message)) => self.hand_down(message),
            Ok(Pdu::InitialContextSetupRequest(message)) => self.serve(message),
            Ok(Pdu::UeContextReleaseCommand(message)) => {
                let pair = self.named_pair(message.ids);
                self.release(pair)
            }
            Ok(Pdu::PathSwitchRequestAcknowledge(message)) => self.hold(
                message.mme_ue_id,
                message.enb_ue_id,
            ),
            Ok(_) => Ok(Delivery::nothing()),
            Err(S1apFault::NoMemory) => Err(AllocError),
            Err(_) => Ok(Delivery::nothing()),
        }
    }
}
