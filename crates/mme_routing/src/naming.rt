//! Whom an INITIAL UE MESSAGE names.

ghost use Rattle.std.specs.Prelude.{◌≡◌};
ghost use Rattle.nas_messages.specs.Messages.{lists};
ghost use Rattle.mme_routing.specs.Naming.{is_own, named_slot, slot_of_message, slot_of_guti, slot_of_identity, slot_of_s_tmsi};

use identity_slots::{Provision, Slot, Tmsi};
use mme_signalling::initial_octets;
use mme_types::Network;
use nas_elements::{Guti, MobileIdentity, Plmn};
use nas_messages::{Direction, Emm, EmmMessage, decode_emm};
use s1ap_elements::STmsi;

// Whether this MME gave the GUTI (TS 23.003 clause 2.8).
fn is_own(network: &Network, guti: &Guti) -> bool
    ensures { result ≡ is_own network.now guti.now }
{
    let [code] = network.code.get();
    guti.plmn == Plmn::from_s1ap(network.plmn.get())
        && guti.group == network.group.get()
        && guti.code == code
}

fn slot_of_guti(network: &Network, provision: &Provision, guti: &Guti) -> Option<Slot>
    ensures { result ≡ slot_of_guti network.now provision.now.profiles guti.now }
{
    if is_own(network, guti) {
        provision.slot_of_tmsi(Tmsi::new(guti.tmsi))
    } else {
        None
    }
}

fn slot_of_identity(
    network: &Network,
    provision: &Provision,
    identity: &MobileIdentity,
) -> Option<Slot>
    ensures { result ≡ slot_of_identity network.now provision.now.profiles identity.now }
{
    match identity {
        MobileIdentity::Imsi(imsi) => provision.slot_of_imsi(*imsi),
        MobileIdentity::Temporary(guti) => slot_of_guti(network, provision, guti),
    }
}

fn slot_of_s_tmsi(network: &Network, provision: &Provision, s_tmsi: Option<STmsi>) -> Option<Slot>
    ensures { result ≡ slot_of_s_tmsi network.now provision.now.profiles s_tmsi }
{
    let s_tmsi = s_tmsi?;
    if s_tmsi.code == network.code {
        provision.slot_of_tmsi(Tmsi::new(u32::from_be_bytes(s_tmsi.m_tmsi.get())))
    } else {
        None
    }
}

fn slot_of_message(
    network: &Network,
    provision: &Provision,
    s_tmsi: Option<STmsi>,
    message: &EmmMessage,
) -> Option<Slot>
    ensures { result ≡ slot_of_message network.now provision.now.profiles s_tmsi (lists message.now) }
{
    match message {
        Emm::AttachRequest(request) => slot_of_identity(network, provision, &request.identity),
        Emm::DetachRequest(request) => slot_of_identity(network, provision, &request.identity),
        Emm::TrackingAreaUpdateRequest(request) => slot_of_guti(network, provision, &request.guti),
        Emm::ServiceRequest { octets: _ } => slot_of_s_tmsi(network, provision, s_tmsi),
        _ => None,
    }
}

/// The slot that an INITIAL UE MESSAGE names, if any: as defined, by its octets, the network and the provisioning alone.
///
/// Takes no memory.
#[tactic(auto, unfolding(crate::specs::Naming::named_slot))]
pub(crate) fn named_slot(
    network: &Network,
    provision: &Provision,
    nas: &[u8],
    s_tmsi: Option<STmsi>,
) -> Option<Slot>
    ensures { result ≡ named_slot network.now provision.now.profiles nas.now s_tmsi }
{
    match decode_emm(initial_octets(nas), Direction::Uplink) {
        Ok(message) => slot_of_message(network, provision, s_tmsi, &message),
        Err(_) => None,
    }
}
