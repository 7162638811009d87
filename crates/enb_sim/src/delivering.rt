//! What comes of the MME's messages at a station.

ghost use Rattle.std.specs.Prelude.{◌≡◌, option_map};
ghost use Rattle.s1ap_elements.specs.Bearers.{erabs_to_be_setup_lists};
ghost use Rattle.s1ap_pdus.specs.Pdus.{listed};
ghost use Rattle.enb_sim.specs.Delivering.{first_bearer, handed, seen_bearer, seen_nas};

use s1ap_elements::{ErabId, ErabToBeSetupItem, UeIdPair};

/// A NAS message for the phone of an association.
#[derive(Clone, Copy)]
pub struct PhoneNas<'a> {
    pub pair: UeIdPair,
    pub nas: &'a [u8],
}

/// What comes of a message of the MME: octets that the station sends, and a NAS message for a phone.
#[derive(Drop)]
pub struct Delivery<'a> {
    pub octets: Option<Vec<u8>>,
    pub nas: Option<PhoneNas<'a>>,
}

impl<'a> Delivery<'a> {
    /// Nothing comes of it.
    pub(crate) fn nothing() -> Delivery<'a>
        ensures { result ≡ record { octets = None; nas = None } }
    {
        Delivery {
            octets: None,
            nas: None,
        }
    }
}

/// The first of the bearers to be set up: its number, and the NAS message beside it.
#[tactic(auto, using(crate::proofs::Bearers::first_is, crate::proofs::Bearers::none_is))]
pub(crate) fn first_bearer<'a>(
    erabs: &[ErabToBeSetupItem<'a, &'a [u8]>],
) -> Option<(ErabId, Option<&'a [u8]>)>
    ensures { seen_bearer result ≡ first_bearer (erabs_to_be_setup_lists erabs.now) }
{
    match erabs.get(0) {
        Some(listed) => Some((listed.value.id, listed.value.nas)),
        None => None,
    }
}

/// A NAS message for the phone of an association, if there is one.
pub(crate) fn handed<'a>(pair: UeIdPair, nas: Option<&'a [u8]>) -> Option<PhoneNas<'a>>
    ensures { option_map seen_nas result ≡ handed pair (listed nas.entry) }
{
    match nas {
        Some(nas) => Some(PhoneNas { pair, nas }),
        None => None,
    }
}
