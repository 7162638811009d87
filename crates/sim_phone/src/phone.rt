//! A phone.

ghost use Rattle.std.specs.Prelude.{◌≡◌, ℕ, List, IfOk, OnOk, OnErr, Option, Some, None, Ok, true, false, is_some, option_map, IsNone};
ghost use Rattle.nas_elements.specs.Seen.{octets_of};
ghost use Rattle.nas_elements.specs.declared.identity.MobileIdentity.TheVariants as identities;
ghost use Rattle.nas_messages.specs.Messages.{decoded_emm};
ghost use Rattle.nas_messages.specs.declared.emm_types.AuthenticationRequest.{AuthenticationRequest};
ghost use Rattle.nas_messages.specs.declared.emm_types.Direction.{Direction};
ghost use Rattle.nas_messages.specs.declared.emm_types.Emm.TheVariants as messages;
ghost use Rattle.sim_phone.specs.Messages.{attach_octets, foreign_guti, identity_octets_of};
ghost use Rattle.sim_phone.specs.Protecting.{forged};
ghost use Rattle.sim_phone.specs.Answering.{authentication_answer, vector_with};
ghost use Rattle.sim_phone.specs.View.{acted, after_saying, hearing, new_phone, kept_form, short_identity};

use crate::answering::phone_answer;
use crate::asking::{
    attach_saying, can_detach, can_request_service, can_request_update, detach_saying,
    service_saying, update_saying,
};
use crate::messages::{foreign_guti, permanent, temporary};
use crate::protecting::{Saying, forged};
use crate::registration::Registration;
use identity_slots::Vector;
use nas_elements::{Guti, Imsi};
use nas_messages::split_protected;
use per_bits::Octets;
use s1ap_elements::STmsi;
use std::alloc::{AllocError, Global};
use std::marker::Model;

/// What a phone does of its own accord.
#[derive(Clone, Copy)]
pub enum PhoneAct {
    /// ATTACH REQUEST by the IMSI. Always done, as `Info` and `Foreign`.
    Attach,
    /// The same, with the ESM information flag.
    Info,
    /// ATTACH REQUEST by a GUTI of another network.
    Foreign,
    /// SERVICE REQUEST; needs a context with a count left.
    Service,
    /// TRACKING AREA UPDATE REQUEST; needs that, too, and a GUTI.
    Tau,
    /// DETACH REQUEST by the GUTI, or else by the IMSI; needs a count of the context, where there is one.
    Detach,
    /// The same for switching off; where it is sent, nothing is kept of the registration.
    Off,
    /// A lie: the last message in the protected form, once more. Needs one.
    Replay,
    /// A lie: the same with a sequence number that is one higher, and its MAC as it was. Needs one.
    Forge,
}

/// A simulated phone, whose calls and their parts are as defined; an act that can't be done answers nothing whatever memory there
/// is. Attach, info and foreign always send the ATTACH REQUEST; a phone that isn't deaf answers a plain AUTHENTICATION REQUEST by a
/// RESPONSE with the XRES of its first vector with that RAND, or by FAILURE 20.
///
/// It has its IMSI and its vectors, whether it is deaf, its registration, and its last message in the protected form.
#[derive(Drop)]
pub struct Phone {
    alloc: Global,
    imsi: Imsi,
    vectors: Vec<Vector>,
    deaf: bool,
    registration: Registration,
    sent: Option<Vec<u8>>,
}

impl Model for Phone {
    ghost use Rattle.std.specs.Prelude.{option_map};
    ghost use Rattle.sim_phone.specs.View.{PhoneView};

    ghost Value = { PhoneView };

    ghost view = { λ p. record {
      imsi = p.imsi;
      vectors = p.vectors.items;
      deaf = p.deaf;
      registration = p.registration;
      sent = option_map (λ o. o.items) p.sent;
    } };
}

// A copy of octets that are in the protected form.
fn kept_form(alloc: Global, octets: Option<&[u8]>) -> Result<Option<Vec<u8>>, AllocError>
    ensures { IfOk result (λ copy. option_map (λ o. o.items) copy ≡ kept_form (octets_of octets.entry)) }
{
    let Some(octets) = octets else {
        return Ok(None);
    };
    if split_protected(octets).is_none() {
        return Ok(None);
    }
    let mut copy = Vec::new(alloc);
    copy.extend_from_slice(octets)?;
    Ok(Some(copy))
}

// The S-TMSI in a GUTI.
fn short_identity(guti: Guti) -> STmsi
    ensures { result ≡ short_identity guti }
{
    STmsi {
        code: Octets::new([guti.code]),
        m_tmsi: Octets::new(guti.tmsi.to_be_bytes()),
    }
}

impl Phone {
    /// A phone that isn't registered and hears.
    pub fn new(alloc: Global, imsi: Imsi, vectors: Vec<Vector>) -> Phone
        ensures { result ≡ new_phone imsi vectors.items }
    {
        Phone {
            alloc,
            imsi,
            vectors,
            deaf: false,
            registration: Registration::none(),
            sent: None,
        }
    }

    /// From now on it answers nothing. Its acts are still done.
    pub fn deafen(&mut self)
        ensures { self.new ≡ record self.old { deaf = true } }
    {
        self.deaf = true;
    }

    /// The S-TMSI, where the network gave a GUTI.
    pub fn s_tmsi(&self) -> Option<STmsi>
        ensures { result ≡ option_map short_identity self.now.registration.guti }
    {
        match self.registration.guti {
            Some(guti) => Some(short_identity(guti)),
            None => None,
        }
    }

    // It has spoken.
    fn say(&mut self, saying: Saying) -> Result<Option<Vec<u8>>, AllocError>
        ensures octets { IfOk result (λ o. option_map (λ v. v.items) o ≡ saying.octets) }
        ensures phone { OnOk result (self.new ≡ after_saying saying self.old) }
        ensures err { OnErr result (self.new ≡ self.old) }
    {
        let Saying {
            octets,
            registration,
        } = saying;
        let copy = kept_form(self.alloc, octets.as_deref())?;
        if copy.is_some() {
            self.sent = copy;
        }
        self.registration = registration;
        Ok(octets)
    }

    // The last message in the protected form, once more.
    fn replayed(&self) -> Result<Option<Vec<u8>>, AllocError>
        ensures { IfOk result (λ o. option_map (λ v. v.items) o ≡ self.now.sent) }
    {
        match &self.sent {
            Some(sent) => Ok(Some(sent.clone()?)),
            None => Ok(None),
        }
    }

    fn forged(&self) -> Result<Option<Vec<u8>>, AllocError>
        ensures { IfOk result (λ o. option_map (λ v. v.items) o ≡ forged self.now.sent) }
    {
        match &self.sent {
            Some(sent) => forged(self.alloc, sent),
            None => Ok(None),
        }
    }

    // Whether a message in the protected form was sent, which can be forged.
    fn can_forge(&self) -> bool
        ensures { result ≡ is_some (forged self.now.sent) }
    {
        match &self.sent {
            Some(sent) => split_protected(sent).is_some(),
            None => false,
        }
    }

    // Whether an act can be done: there is something to say by it. Takes no memory.
    #[tactic(auto, unfolding(crate::specs::View::acted))]
    fn can_act(&self, act: PhoneAct) -> bool
        ensures { result ≡ is_some (acted act self.now).octets }
    {
        match act {
            PhoneAct::Attach | PhoneAct::Info | PhoneAct::Foreign => true,
            PhoneAct::Service => can_request_service(self.registration),
            PhoneAct::Tau => can_request_update(self.registration),
            PhoneAct::Detach | PhoneAct::Off => can_detach(self.registration),
            PhoneAct::Replay => self.sent.is_some(),
            PhoneAct::Forge => self.can_forge(),
        }
    }

    /// Does an act: the octets to send, or `None` where it can't be done, whatever memory there is, and the phone is then as it
    /// was. Refused for lack of memory alone, and the phone is then as it was, too.
    #[tactic(auto, unfolding(crate::specs::View::acted))]
    pub fn act(&mut self, act: PhoneAct) -> Result<Option<Vec<u8>>, AllocError>
        ensures octets { IfOk result (λ o. option_map (λ v. v.items) o ≡ (acted act self.old).octets) }
        ensures phone { OnOk result (self.new ≡ (acted act self.old).phone) }
        ensures undone { (acted act self.old).octets ≡ None → result ≡ Ok None }
        ensures left { IfOk result (λ o. IsNone o → self.new ≡ self.old) }
        ensures err { OnErr result (self.new ≡ self.old) }

        // An ATTACH REQUEST is always sent.
        ensures attach { act ≡ PhoneAct.Attach
            → IfOk result (λ o. option_map (λ v. v.items) o ≡ Some (attach_octets (identities.Imsi self.old.imsi) false)) }
        ensures info { act ≡ PhoneAct.Info
            → IfOk result (λ o. option_map (λ v. v.items) o ≡ Some (attach_octets (identities.Imsi self.old.imsi) true)) }
        ensures foreign { act ≡ PhoneAct.Foreign
            → IfOk result (λ o. option_map (λ v. v.items) o ≡ Some (attach_octets (identities.Temporary foreign_guti) false)) }
    {
        if !self.can_act(act) {
            return Ok(None);
        }
        let (alloc, imsi, registration) = (self.alloc, self.imsi, self.registration);
        match act {
            PhoneAct::Attach => self.say(attach_saying(alloc, permanent(imsi), false)?),
            PhoneAct::Info => self.say(attach_saying(alloc, permanent(imsi), true)?),
            PhoneAct::Foreign => {
                self.say(attach_saying(alloc, temporary(foreign_guti()), false)?)
            }
            PhoneAct::Service => self.say(service_saying(alloc, registration)?),
            PhoneAct::Tau => self.say(update_saying(alloc, registration)?),
            PhoneAct::Detach => self.say(detach_saying(alloc, imsi, registration, false)?),
            PhoneAct::Off => { self.say(detach_saying(alloc, imsi, registration, true)?.leaving()) }
            PhoneAct::Replay => self.replayed(),
            PhoneAct::Forge => self.forged(),
        }
    }

    /// Takes NAS octets of the network: the octets to answer, if any. A deaf phone answers nothing and stays as it is. Refused
    /// for lack of memory alone, and the phone is then as it was.
    #[tactic(auto, unfolding(crate::specs::View::hearing, crate::specs::Answering::phone_answer))]
    pub fn deliver(&mut self, nas: &[u8]) -> Result<Option<Vec<u8>>, AllocError>
        ensures octets { IfOk result (λ o. option_map (λ v. v.items) o ≡ (hearing nas.now self.old).octets) }
        ensures phone { OnOk result (self.new ≡ (hearing nas.now self.old).phone) }
        ensures err { OnErr result (self.new ≡ self.old) }

        // By the first vector with the request's RAND, or the failure without one.
        ensures authentication { (m : AuthenticationRequest (List ℕ)) → self.old.deaf ≡ false
            → decoded_emm Direction.Downlink nas.now ≡ Ok (messages.AuthenticationRequest m)
            → IfOk result (λ o. option_map (λ v. v.items) o ≡ Some (authentication_answer (vector_with self.old.vectors m.rand))) }
        ensures identity { self.old.deaf ≡ false → decoded_emm Direction.Downlink nas.now ≡ Ok messages.IdentityRequest
            → IfOk result (λ o. option_map (λ v. v.items) o ≡ Some (identity_octets_of (identities.Imsi self.old.imsi))) }
    {
        if self.deaf {
            return Ok(None);
        }
        let (alloc, imsi, registration) = (self.alloc, self.imsi, self.registration);
        let saying = phone_answer(alloc, imsi, self.vectors.as_slice(), registration, nas)?;
        self.say(saying)
    }
}
