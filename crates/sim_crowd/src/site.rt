//! A station, and the phones that are there.

ghost use Rattle.std.specs.Prelude.{◌≡◌, ◌==◌, ◌%◌, ◌/◌, ◌^◌, ◌<◌, IfOk, OnOk, OnErr, option_map};
ghost use Rattle.sim_crowd.specs.Acting.{setup_octets};
ghost use Rattle.sim_crowd.specs.Sites.{bit_for, left_site, macro_bits, new_site, pair_key, pair_of_stranger, phone_with, serves, with_comer};

use crate::acted::OrRefused;
use crate::index::Index;
use enb_sim::{PhoneAct, Station, StationAct};
use identity_slots::AssociationId;
use per_bits::{BitField, Octets, Whole};
use s1ap_elements::UeIdPair;
use sorted_list::paired;
use std::alloc::Global;
use trace_words::{MacroId, RadioPlace, StationLine};

/// The key of an association: both of its numbers.
pub(crate) fn pair_key(pair: &UeIdPair) -> u128
    ensures { result ≡ pair_key pair.now }
{
    paired(pair.mme_ue_id.get(), pair.enb_ue_id.get())
}

/// The association of a phone that the MME doesn't know: it has but one for each eNB UE id at a station.
fn pair_of_stranger(place: &RadioPlace) -> UeIdPair
    ensures { result ≡ pair_of_stranger place.now }
{
    let id = AssociationId::of_stranger(place.station.get(), place.enb_ue_id.get() as u32);
    UeIdPair {
        mme_ue_id: Whole::new(u64::from(id.get())),
        enb_ue_id: place.enb_ue_id,
    }
}

/// The bit of a number that stands for 2^k.
fn bit_for(number: u32, k: u32) -> bool
    requires { k < 20 }
    ensures { result ≡ bit_for number k }
{
    (number >> k) % 2 == 1
}

/// Twenty bits, the first the highest.
#[tactic(auto, unfolding(crate::specs::Sites::macro_bits))]
fn macro_bits(macro_id: MacroId) -> BitField<20>
    ensures { result ≡ macro_bits macro_id }
{
    let n = macro_id.get();
    BitField::new([
        bit_for(n, 19),
        bit_for(n, 18),
        bit_for(n, 17),
        bit_for(n, 16),
        bit_for(n, 15),
        bit_for(n, 14),
        bit_for(n, 13),
        bit_for(n, 12),
        bit_for(n, 11),
        bit_for(n, 10),
        bit_for(n, 9),
        bit_for(n, 8),
        bit_for(n, 7),
        bit_for(n, 6),
        bit_for(n, 5),
        bit_for(n, 4),
        bit_for(n, 3),
        bit_for(n, 2),
        bit_for(n, 1),
        bit_for(n, 0),
    ])
}

/// A station, and which phones are there.
#[derive(Drop)]
pub(crate) struct Site {
    pub(crate) station: Station,
    // By eNB UE id, the phone that was last in an INITIAL UE MESSAGE with it.
    pub(crate) comers: Index,
    // By both numbers of an association, its phone. An association may have ended since.
    pub(crate) connected: Index,
}

impl Site {
    /// A station of a network where nobody is.
    pub(crate) fn new(alloc: Global, plmn: [u8; 3], line: &StationLine) -> Site
        ensures { result ≡ new_site plmn line.now }
    {
        Site {
            station: Station::new(
                alloc,
                line.station,
                Octets::new(plmn),
                macro_bits(line.macro_id),
                Octets::new(line.tac),
            ),
            comers: Index::new(alloc),
            connected: Index::new(alloc),
        }
    }

    /// The phone with this association: a new one is that of the phone that came last with its eNB UE id.
    pub(crate) fn phone_with(&self, pair: &UeIdPair) -> Option<usize>
        ensures { result ≡ phone_with pair.now self.now }
    {
        match self.connected.get(pair_key(pair)) {
            Some(phone) => Some(phone),
            None => self.comers.get(u128::from(pair.enb_ue_id.get())),
        }
    }

    /// Whether a phone has this association.
    pub(crate) fn serves(&self, phone: usize, pair: &UeIdPair) -> bool
        ensures { result ≡ serves phone pair.now self.now }
    {
        match self.connected.get(pair_key(pair)) {
            Some(known) => {
                known == phone
                    && (self.station.is_ready()
                        && self.station.holds(pair.mme_ue_id, pair.enb_ue_id))
            }
            None => false,
        }
    }

    /// A phone came, and is known by its eNB UE id. The MME's association for one that it doesn't know is then this phone's.
    /// Refused, all is as it was.
    pub(crate) fn come(&mut self, phone: usize, place: &RadioPlace, act: PhoneAct) -> OrRefused<()>
        ensures ok { OnOk result (self.new ≡ with_comer phone place.now act self.old) }
        ensures err { OnErr result (self.new ≡ self.old) }
    {
        self.comers.put(u128::from(place.enb_ue_id.get()), phone)?;
        if let PhoneAct::Foreign = act {
            self.connected.free(pair_key(&pair_of_stranger(place)));
        }
        Ok(())
    }

    /// S1 SETUP REQUEST: nobody is there. Refused, all is as it was.
    #[tactic(auto, unfolding(enb_sim::specs::View::act_octets))]
    pub(crate) fn set_up(&mut self, alloc: Global) -> OrRefused<Option<Vec<u8>>>
        ensures octets { IfOk result (λ o. option_map (λ v. v.items) o ≡ setup_octets self.old.station) }
        ensures ok { OnOk result (self.new ≡ left_site self.old) }
        ensures err { OnErr result (self.new ≡ self.old) }
    {
        let octets = self.station.act(&StationAct::SetUp)?;
        self.comers = Index::new(alloc);
        self.connected = Index::new(alloc);
        Ok(octets)
    }

    /// The connection to the MME is lost: nobody is there.
    pub(crate) fn lose(&mut self, alloc: Global)
        ensures { self.new ≡ left_site self.old }
    {
        self.station.down();
        self.comers = Index::new(alloc);
        self.connected = Index::new(alloc);
    }
}
