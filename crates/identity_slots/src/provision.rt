//! The subscribers by slot.

ghost use Rattle.std.specs.Prelude.{◌≡◌, ◌≢◌, ℕ, ◌+◌, ◌-◌, ◌<◌, ◌≤◌, ◌↔◌, [], ◌++◌, ◌∷◌, length, slice_get, slice_set, nat_eq, vec_len, IfOk, IfErr, IfSome, IfNone, OnOk, OnErr, OnSome, IsOk, Option, Some, None, Err};
ghost use Rattle.std.specs.Vec.{vec_capacity};
ghost use Rattle.std.specs.HashMap.{get, spare};
ghost use Rattle.std.specs.Int.{from_be_bytes, w32, w64};
ghost use Rattle.nas_elements.specs.Digits.{imsi_octets};
ghost use Rattle.identity_slots.specs.Ids.{slots};
ghost use Rattle.identity_slots.specs.declared.profile.Profile.{Profile};
ghost use Rattle.identity_slots.specs.declared.provision.ProvisionFault.TheVariants.{Full, NoMemory};
ghost use Rattle.identity_slots.specs.Provisioned.{Provisioned, imsi_number, address_number, slot_of_imsi, slot_of_address, slot_of_id, add_fault, with_profile, with_vector, without_vectors, vectors_at, AreDistinct, imsi_key, address_key};

use crate::ids::{AssociationId, COUNTERS, STRANGERS, Slot, Tmsi};
use crate::profile::{Profile, Vector};
use crate::vectors::Vectors;
use nas_elements::Imsi;
use std::alloc::{AllocError, Global};
use std::collections::HashMap;
use std::marker::Model;
use std::mem;

/// How many vectors that aren't spent a subscriber has at most.
pub(crate) const VECTORS: usize = 64;

/// Why a subscriber or a vector was not added, in the order of the checks.
#[derive(Clone, Copy, PartialEq, Eq, Debug)]
pub enum ProvisionFault {
    /// A slot has the IMSI.
    RepeatedImsi = 1,
    /// A slot has the address.
    RepeatedAddress = 2,
    /// Every slot is taken, or the subscriber has 64 vectors.
    Full = 3,
    /// A growth was refused.
    NoMemory = 4,
}

fn imsi_number(imsi: Imsi) -> u64
    ensures { result ≡ imsi_number imsi }
{
    u64::from_be_bytes(imsi.octets())
}

fn address_number(address: [u8; 4]) -> u32
    ensures { result ≡ address_number address }
{
    u32::from_be_bytes(address)
}

/// Makes room for one more in each, or leaves them as they are.
fn reserve_one(
    profiles: &mut Vec<Profile>,
    vectors: &mut Vec<Vectors>,
    by_imsi: &mut HashMap<u64, Slot>,
    by_address: &mut HashMap<u32, Slot>,
) -> Result<(), AllocError>
    ensures profiles { profiles.new.items ≡ profiles.old.items }
    ensures vectors { vectors.new.items ≡ vectors.old.items }
    ensures by_imsi { (k : ℕ) → get nat_eq by_imsi.new k ≡ get nat_eq by_imsi.old k }
    ensures by_address { (k : ℕ) → get nat_eq by_address.new k ≡ get nat_eq by_address.old k }
    ensures room_profiles { OnOk result (vec_len profiles.new < vec_capacity profiles.new) }
    ensures room_vectors { OnOk result (vec_len vectors.new < vec_capacity vectors.new) }
    ensures room_by_imsi { OnOk result (0 < spare by_imsi.new) }
    ensures room_by_address { OnOk result (0 < spare by_address.new) }
{
    profiles.reserve(1)?;
    vectors.reserve(1)?;
    by_imsi.reserve(1)?;
    by_address.reserve(1)?;
    Ok(())
}

/// The IMSI, slot and id maps, with distinct IMSIs and addresses, and each slot's vectors in order.
///
/// These are the subscribers by slot: a profile and a list of vectors for each.
#[derive(Drop)]
pub struct Provision {
    profiles: Vec<Profile>,
    vectors: Vec<Vectors>,
    by_imsi: HashMap<u64, Slot>,
    by_address: HashMap<u32, Slot>,
    alloc: Global,
}

impl Model for Provision {
    ghost use Rattle.identity_slots.specs.Provisioned.{Provisioned};

    ghost Value = { Provisioned };

    ghost use Rattle.identity_slots.specs.Kept.{IsProvision};

    ghost view = { λ p. record { profiles = p.profiles.items; vectors = p.vectors.items } };

    ghost invariant = { λ p. IsProvision p.profiles.items p.vectors.items p.by_imsi p.by_address };
}

impl Provision {
    /// Nobody.
    pub fn new(alloc: Global) -> Self
        ensures profiles { result.profiles ≡ [] }
        ensures vectors { result.vectors ≡ [] }
    {
        Provision {
            profiles: Vec::new(alloc),
            vectors: Vec::new(alloc),
            by_imsi: HashMap::new(alloc),
            by_address: HashMap::new(alloc),
            alloc,
        }
    }

    /// How many slots are provisioned: those from 0 on. No two have one IMSI or one address.
    pub fn len(&self) -> usize
        ensures len { result ≡ length self.now.profiles }
        ensures few { length self.now.profiles ≤ slots }
        ensures vectors { length self.now.vectors ≡ length self.now.profiles }
        ensures imsis { AreDistinct imsi_key self.now.profiles }
        ensures addresses { AreDistinct address_key self.now.profiles }
    {
        self.profiles.len()
    }

    /// The slot of an IMSI, if it is provisioned. Takes no memory.
    pub fn slot_of_imsi(&self, imsi: Imsi) -> Option<Slot>
        ensures { result ≡ slot_of_imsi imsi self.now.profiles }
    {
        self.by_imsi.get(&imsi_number(imsi)).copied()
    }

    /// The slot that an M-TMSI is made of, if it is provisioned. Takes no memory.
    pub fn slot_of_tmsi(&self, tmsi: Tmsi) -> Option<Slot>
        ensures { result ≡ slot_of_id tmsi self.now.profiles }
    {
        self.slot_of_number(tmsi.get())
    }

    /// The slot that an association's id is made of, if it is provisioned: none for a stranger's. Takes no memory.
    pub fn slot_of_association(&self, id: AssociationId) -> Option<Slot>
        ensures { result ≡ slot_of_id id self.now.profiles }
    {
        self.slot_of_number(id.get())
    }

    fn slot_of_number(&self, number: u32) -> Option<Slot>
        ensures { result ≡ slot_of_id number self.now.profiles }
    {
        if number >= STRANGERS || (number / COUNTERS) as usize >= self.profiles.len() {
            return None;
        }
        Slot::try_new(number / COUNTERS)
    }

    /// The profile of a slot that is provisioned.
    pub fn profile(&self, slot: Slot) -> &Profile
        requires { slot < length self.now.profiles }
        ensures { slice_get self.now.profiles slot ≡ Some result.now }
    {
        &self.profiles[slot.get() as usize]
    }

    /// The vectors of a slot that is provisioned, in the order in which they were given: 64 at most.
    pub fn vectors(&self, slot: Slot) -> &[Vector]
        requires { slot < length self.now.profiles }
        ensures value { slice_get self.now.vectors slot ≡ Some result.now }
    {
        self.vectors[slot.get() as usize].as_slice()
    }

    /// Provisions a subscriber without vectors, on the next slot. RepeatedImsi or RepeatedAddress where a slot has its IMSI or
    /// its address, Full where every slot is taken, NoMemory where room was refused, in this order; then nothing changed.
    pub fn add(&mut self, profile: Profile) -> Result<Slot, ProvisionFault>
        ensures refused { IfSome (add_fault profile self.old.profiles) (λ fault. result ≡ Err fault) }
        ensures not_refused { IfNone (add_fault profile self.old.profiles) (IfErr result (λ fault. fault ≡ NoMemory)) }
        ensures slot { IfOk result (λ slot. slot ≡ length self.old.profiles) }
        ensures added { OnOk result (self.new ≡ with_profile profile self.old) }
        ensures err { OnErr result (self.new ≡ self.old) }
    {
        let imsi = imsi_number(profile.imsi);
        let address = address_number(profile.address);
        if self.by_imsi.contains_key(&imsi) {
            return Err(ProvisionFault::RepeatedImsi);
        }
        if self.by_address.contains_key(&address) {
            return Err(ProvisionFault::RepeatedAddress);
        }
        let Some(slot) = Slot::try_new(self.profiles.len() as u32) else {
            return Err(ProvisionFault::Full);
        };
        if reserve_one(
            &mut self.profiles,
            &mut self.vectors,
            &mut self.by_imsi,
            &mut self.by_address,
        )
        .is_err()
        {
            return Err(ProvisionFault::NoMemory);
        }
        self.profiles.push_reserved(profile);
        self.vectors.push_reserved(Vectors::none(self.alloc));
        let _ = self.by_imsi.insert(imsi, slot);
        let _ = self.by_address.insert(address, slot);
        Ok(slot)
    }

    /// Undoes the last `add`.
    ///
    /// That subscriber has no vectors: for who added one and was refused what else it needs. Takes no memory.
    pub fn take_back(&mut self)
        requires last { 0 < length self.old.profiles }
        requires none { vectors_at (length self.old.profiles - 1) self.old.vectors ≡ [] }
        ensures { (p : Profile) (s : Provisioned) → self.old ≡ with_profile p s → self.new ≡ s }
    {
        let Some(profile) = self.profiles.pop() else {
            return;
        };
        let _ = self.vectors.pop();
        let _ = self.by_imsi.remove(&imsi_number(profile.imsi));
        let _ = self.by_address.remove(&address_number(profile.address));
    }

    /// Gives a subscriber that is provisioned one more vector. Full at 64 vectors, then NoMemory where room was refused; then
    /// nothing changed.
    pub fn give(&mut self, slot: Slot, vector: Vector) -> Result<(), ProvisionFault>
        requires { slot < length self.old.profiles }
        ensures full { (result ≡ Err Full) ↔ (64 ≤ length (vectors_at slot self.old.vectors)) }
        ensures fault { IfErr result (λ fault. fault ≢ NoMemory → fault ≡ Full) }
        ensures given { OnOk result (self.new ≡ with_vector slot vector self.old) }
        ensures err { OnErr result (self.new ≡ self.old) }
    {
        let at = slot.get() as usize;
        if self.vectors[at].len() >= VECTORS {
            return Err(ProvisionFault::Full);
        }
        match push_at(&mut self.vectors, self.alloc, at, vector) {
            Ok(()) => Ok(()),
            Err(_) => Err(ProvisionFault::NoMemory),
        }
    }

    /// Hands on the vectors of a slot.
    ///
    /// It has none here from then on. Takes no memory.
    pub fn take_vectors(&mut self, slot: Slot) -> Vectors
        requires { slot < length self.old.profiles }
        ensures taken { slice_get self.old.vectors slot ≡ Some result }
        ensures left { self.new ≡ without_vectors slot self.old }
    {
        let none = Vectors::none(self.alloc);
        mem::replace(&mut self.vectors[slot.get() as usize], none)
    }
}

fn push_at(
    vectors: &mut Vec<Vectors>,
    alloc: Global,
    at: usize,
    vector: Vector,
) -> Result<(), AllocError>
    requires { at < vec_len vectors.old }
    ensures items { OnOk result
        (vectors.new.items ≡ slice_set vectors.old.items at (vectors_at at vectors.old.items ++ vector ∷ [])) }
    ensures err { OnErr result (vectors.new.items ≡ vectors.old.items) }
{
    vectors[at].push(alloc, vector)
}
