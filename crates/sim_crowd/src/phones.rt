//! The phones, and where each is.

ghost use Rattle.std.specs.Prelude.{◌≡◌, ◌<◌, [], IfOk, IfSome, List, OnOk, OnErr, is_some, length, option_map, true};
ghost use Rattle.nas_elements.specs.Digits.{is_imsi};
ghost use Rattle.identity_slots.specs.Provisioned.{imsi_number};
ghost use Rattle.sim_phone.specs.View.{acted, hearing};
ghost use Rattle.sim_crowd.specs.Handsets.{HandsetView, in_use, made_phone, new_handset, s_tmsi_beside, with_act, with_deafness, with_heard, with_standing, with_vector_more, words_by};
ghost use Rattle.sim_crowd.specs.Phones.{IsPhoneIndex, answer_of, changed_handset, phone_named, standing_of, with_handset, with_vector_for, words_of};

use crate::acted::OrRefused;
use crate::index::Index;
use crate::whereabouts::Standing;
use enb_sim::{Phone, PhoneAct};
use identity_slots::{Vector, imsis_apart};
use nas_elements::Imsi;
use s1ap_elements::STmsi;
use std::alloc::Global;
use std::marker::Model;
use std::mem;

/// A phone's NAS message, and the S-TMSI that goes beside it. A contract sees the octets.
#[derive(Drop)]
pub(crate) struct FirstWords {
    pub(crate) nas: Vec<u8>,
    pub(crate) s_tmsi: Option<STmsi>,
}

impl Model for FirstWords {
    ghost use Rattle.sim_crowd.specs.Handsets.{Words};

    ghost Value = { Words };

    ghost view = { λ w. record { nas = w.nas.items; s_tmsi = w.s_tmsi } };
}

// The S-TMSI that goes beside a message.
fn s_tmsi_beside(phone: &Phone, act: PhoneAct) -> Option<STmsi>
    ensures { result ≡ s_tmsi_beside act phone.now }
{
    match act {
        PhoneAct::Service => phone.s_tmsi(),
        _ => None,
    }
}

// What a phone says by an act, if it can be done.
fn speak(phone: &mut Phone, act: PhoneAct) -> OrRefused<Option<FirstWords>>
    ensures words { IfOk result (λ w. w ≡ words_by act phone.old) }
    ensures ok { OnOk result (phone.new ≡ (acted act phone.old).phone) }
    ensures err { OnErr result (phone.new ≡ phone.old) }
{
    match phone.act(act)? {
        Some(nas) => {
            let s_tmsi = s_tmsi_beside(phone, act);
            Ok(Some(FirstWords { nas, s_tmsi }))
        }
        None => Ok(None),
    }
}

/// A phone that is kept, and where it is. A contract sees the phone as it is, whether it was asked to do something, and where it
/// is; the code makes the phone of its vectors once it is needed.
#[derive(Drop)]
pub(crate) struct Handset {
    alloc: Global,
    imsi: Imsi,
    // What the phone is made of once it is needed.
    vectors: Vec<Vector>,
    phone: Option<Phone>,
    pub(crate) standing: Standing,
}

impl Model for Handset {
    ghost Value = { HandsetView };

    ghost view = { λ h. record {
      imsi = h.imsi;
      phone = made_phone h.imsi h.vectors.items h.phone;
      used = is_some h.phone;
      standing = h.standing;
    } };
}

impl Handset {
    /// A phone that was nowhere yet.
    pub(crate) fn new(alloc: Global, imsi: Imsi) -> Handset
        ensures { result ≡ new_handset imsi }
    {
        Handset {
            alloc,
            imsi,
            vectors: Vec::new(alloc),
            phone: None,
            standing: Standing::nowhere(),
        }
    }

    /// It has one vector more, unless it was asked to do something before. Refused, it is as it was.
    pub(crate) fn give(&mut self, vector: Vector) -> OrRefused<()>
        ensures ok { OnOk result (self.new ≡ with_vector_more vector self.old) }
        ensures err { OnErr result (self.new ≡ self.old) }
    {
        if self.phone.is_none() {
            self.vectors.push(vector)?;
        }
        Ok(())
    }

    // The phone, made of its vectors where it wasn't needed before.
    fn take_phone(&mut self) -> Phone
        ensures phone { result ≡ self.old.phone }
        ensures imsi { self.new.imsi ≡ self.old.imsi }
        ensures standing { self.new.standing ≡ self.old.standing }
    {
        match mem::replace(&mut self.phone, None) {
            Some(phone) => phone,
            None => {
                let given = mem::replace(&mut self.vectors, Vec::new(self.alloc));
                Phone::new(self.alloc, self.imsi, given)
            }
        }
    }

    /// What it says by an act, if it can be done. Refused, it says nothing, and is as it was but that it was asked.
    pub(crate) fn act(&mut self, act: PhoneAct) -> OrRefused<Option<FirstWords>>
        ensures words { IfOk result (λ w. w ≡ words_by act self.old.phone) }
        ensures ok { OnOk result (self.new ≡ with_act act self.old) }
        ensures err { OnErr result (self.new ≡ in_use self.old) }
    {
        let mut phone = self.take_phone();
        let said = speak(&mut phone, act);
        self.phone = Some(phone);
        said
    }

    /// What it answers to a NAS message. Refused, it is as it was but that it was asked.
    pub(crate) fn hear(&mut self, nas: &[u8]) -> OrRefused<Option<Vec<u8>>>
        ensures octets { IfOk result (λ o. option_map (λ v. v.items) o ≡ (hearing nas.now self.old.phone).octets) }
        ensures ok { OnOk result (self.new ≡ with_heard nas.now self.old) }
        ensures err { OnErr result (self.new ≡ in_use self.old) }
    {
        let mut phone = self.take_phone();
        let answer = phone.deliver(nas);
        self.phone = Some(phone);
        answer
    }

    /// It answers nothing from now on.
    pub(crate) fn deafen(&mut self)
        ensures { self.new ≡ with_deafness self.old }
    {
        let mut phone = self.take_phone();
        phone.deafen();
        self.phone = Some(phone);
    }

    /// It stands so from now on.
    pub(crate) fn stand(&mut self, standing: Standing)
        ensures { self.new ≡ with_standing standing self.old }
    {
        self.standing = standing;
    }
}

/// The key of an IMSI: its eight octets as a number.
fn imsi_key(imsi: Imsi) -> u128
    ensures value { result ≡ imsi_number imsi }
    ensures imsi { is_imsi imsi ≡ true }
{
    u128::from(u64::from_be_bytes(imsi.octets()))
}

/// The phones in the order in which they were added; each is found by its IMSI.
#[derive(Drop)]
pub(crate) struct Phones {
    alloc: Global,
    handsets: Vec<Handset>,
    imsis: Index,
}

impl Model for Phones {
    ghost Value = { List HandsetView };

    ghost view = { λ p. p.handsets.items };

    ghost invariant = { λ p. IsPhoneIndex p.imsis p.handsets.items };
}

impl Phones {
    /// Nobody.
    pub(crate) fn new(alloc: Global) -> Phones
        ensures { result ≡ [] }
    {
        Phones {
            alloc,
            handsets: Vec::new(alloc),
            imsis: Index::new(alloc),
        }
    }

    /// The place of the phone with this IMSI.
    pub(crate) fn find(&self, imsi: Imsi) -> Option<usize>
        ensures place { result ≡ phone_named imsi self.now }
        ensures bound { IfSome result (λ phone. phone < length self.now) }
    {
        self.imsis.get(imsi_key(imsi))
    }

    /// Where the phone at a place is.
    pub(crate) fn standing(&self, phone: usize) -> Standing
        ensures { result ≡ standing_of phone self.now }
    {
        match self.handsets.as_slice().get(phone) {
            Some(handset) => handset.standing,
            None => Standing::nowhere(),
        }
    }

    /// Adds a phone, unless there is one with its IMSI. Refused, all is as it was.
    pub(crate) fn add(&mut self, imsi: Imsi) -> OrRefused<()>
        ensures ok { OnOk result (self.new ≡ with_handset imsi self.old) }
        ensures err { OnErr result (self.new ≡ self.old) }
    {
        if self.find(imsi).is_some() {
            return Ok(());
        }
        // No other IMSI has its key.
        imsis_apart();
        let phone = self.handsets.len();
        self.handsets.reserve(1)?;
        self.imsis.put(imsi_key(imsi), phone)?;
        self.handsets.push_reserved(Handset::new(self.alloc, imsi));
        Ok(())
    }

    /// Gives the phone with this IMSI one vector more. A phone that was asked to do something before takes none. Refused, all is
    /// as it was.
    pub(crate) fn give(&mut self, imsi: Imsi, vector: Vector) -> OrRefused<()>
        ensures ok { OnOk result (self.new ≡ with_vector_for imsi vector self.old) }
        ensures err { OnErr result (self.new ≡ self.old) }
    {
        match self.find(imsi) {
            Some(phone) => self.handsets[phone].give(vector),
            None => Ok(()),
        }
    }

    /// What the phone at a place says by an act. Refused, it is as it was but that it was asked.
    pub(crate) fn act(&mut self, phone: usize, act: PhoneAct) -> OrRefused<Option<FirstWords>>
        ensures words { IfOk result (λ w. w ≡ words_of phone act self.old) }
        ensures ok { OnOk result (self.new ≡ changed_handset phone (with_act act) self.old) }
        ensures err { OnErr result (self.new ≡ changed_handset phone in_use self.old) }
    {
        if phone < self.handsets.len() {
            self.handsets[phone].act(act)
        } else {
            Ok(None)
        }
    }

    /// What the phone at a place answers. Refused, it is as it was but that it was asked.
    pub(crate) fn hear(&mut self, phone: usize, nas: &[u8]) -> OrRefused<Option<Vec<u8>>>
        ensures octets { IfOk result (λ o. option_map (λ v. v.items) o ≡ answer_of phone nas.now self.old) }
        ensures ok { OnOk result (self.new ≡ changed_handset phone (with_heard nas.now) self.old) }
        ensures err { OnErr result (self.new ≡ changed_handset phone in_use self.old) }
    {
        if phone < self.handsets.len() {
            self.handsets[phone].hear(nas)
        } else {
            Ok(None)
        }
    }

    /// The phone at a place answers nothing from now on.
    pub(crate) fn deafen(&mut self, phone: usize)
        ensures { self.new ≡ changed_handset phone with_deafness self.old }
    {
        if phone < self.handsets.len() {
            self.handsets[phone].deafen();
        }
    }

    /// The phone at a place stands so from now on.
    pub(crate) fn stand(&mut self, phone: usize, standing: Standing)
        ensures { self.new ≡ changed_handset phone (with_standing standing) self.old }
    {
        if phone < self.handsets.len() {
            self.handsets[phone].stand(standing);
        }
    }
}
