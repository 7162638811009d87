//! What a phone and a station are given is in range by its types.

ghost use Rattle.std.specs.Prelude.{◌≡◌, ◌≤◌, true, length, IfSome};
ghost use Rattle.per_streams.specs.Octet.{all_below};
ghost use Rattle.sim_phone.specs.View.{new_phone};
ghost use Rattle.enb_sim.specs.Ranges.{STmsiInRangeIf, SiteInRange};
ghost use Rattle.enb_sim.specs.View.{new_station};
ghost use Rattle.laws_simulation.specs.PhoneRanges.{AnswerInRange, AnswersInRange, PhoneInRange};
ghost use Rattle.laws_simulation.specs.StationRanges.{ActInRange, StationInRange};
ghost use Rattle.laws_simulation.specs.Stations.{nas_of_act};

use enb_sim::{StationAct, StationProfile};
use identity_slots::Vector;
use nas_elements::Imsi;
use s1ap_elements::STmsi;
use sim_phone::permanent;

/// A new phone is in range, whatever its IMSI and its vectors are.
pub fn phones_begin_in_range(imsi: Imsi, vectors: &[Vector])
    ensures { PhoneInRange (new_phone imsi vectors.now) }
{
    let _identity = permanent(imsi);
    answers_are_in_range(vectors);
}

fn answers_are_in_range(vectors: &[Vector])
    ensures { AnswersInRange vectors.now }
{
    for vector in vectors {
        answer_is_in_range(vector);
    }
}

fn answer_is_in_range(vector: &Vector)
    ensures { AnswerInRange vector.now }
{
    octets_are_below(vector.xres.as_slice());
}

fn octets_are_below(octets: &[u8])
    ensures { all_below 256 octets.now ≡ true }
{
    let _ = octets;
}

/// A new station is in range, whatever its profile is.
pub fn stations_begin_in_range(profile: StationProfile)
    ensures { StationInRange (new_station profile) }
{
    site_is_in_range(profile);
}

fn site_is_in_range(profile: StationProfile)
    ensures { SiteInRange profile }
{
    let _plmn = profile.plmn;
    let _macro_id = profile.macro_id.bits();
    let _tac = profile.tac;
}

/// An act whose NAS message has at most 15,000 octets is in range, as that of a phone is.
pub fn acts_are_in_range(act: &StationAct<'_>)
    requires { IfSome (nas_of_act act.now) (λ nas. length nas ≤ 15000) }
    ensures { ActInRange act.now }
{
    match act {
        StationAct::SetUp => {}
        StationAct::Initial {
            enb_ue_id,
            nas,
            s_tmsi,
        } => {
            let _enb_ue_id = enb_ue_id.get();
            octets_are_below(nas);
            s_tmsi_is_in_range(*s_tmsi);
        }
        StationAct::Uplink {
            mme_ue_id,
            enb_ue_id,
            nas,
        } => {
            let _ids = (mme_ue_id.get(), enb_ue_id.get());
            octets_are_below(nas);
        }
        StationAct::Switch {
            mme_ue_id,
            enb_ue_id,
        } => {
            let _ids = (mme_ue_id.get(), enb_ue_id.get());
        }
        StationAct::Release {
            mme_ue_id,
            enb_ue_id,
        } => {
            let _ids = (mme_ue_id.get(), enb_ue_id.get());
        }
    }
}

fn s_tmsi_is_in_range(s_tmsi: Option<STmsi>)
    ensures { STmsiInRangeIf s_tmsi }
{
    match s_tmsi {
        Some(s_tmsi) => {
            let _octets = (s_tmsi.code, s_tmsi.m_tmsi);
        }
        None => {}
    }
}
