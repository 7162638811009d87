//! A subscriber or a vector more for an MME that runs.

ghost use Rattle.std.specs.Prelude.{◌≡◌, ◌≢◌, ◌<◌, ◌↔◌, length, IfOk, IfErr, IfSome, IfNone, OnOk, OnErr, Err, Some};
ghost use Rattle.identity_slots.specs.Ids.{slots};
ghost use Rattle.identity_slots.specs.Provisioned.{add_fault};
ghost use Rattle.identity_slots.specs.declared.provision.ProvisionFault.TheVariants.{Full, NoMemory};
ghost use Rattle.mme_owners.specs.Given.{TakesOneVector};
ghost use Rattle.mme_core.specs.Provisioning.{give_fault, world_added, world_given};
ghost use Rattle.mme_core.specs.World.{world_of};

use crate::mme::{Mme, Surroundings};
use crate::provisioning::push_fresh;
use emm_machine::in_use_is_kept;
use identity_slots::{Profile, ProvisionFault, Slot, Vector, Vectors};
use laws_subscriber::{clocks_are_kept, soundness_is_kept};
use mme_owners::Owners;

impl Mme {
    /// A further subscriber without vectors, on the next slot; nothing else changes.
    ///
    /// RepeatedImsi or RepeatedAddress where a slot has its IMSI or its address, Full where every slot is taken, NoMemory where
    /// room was refused, in this order; then the MME is as it was.
    pub fn add(&mut self, profile: Profile) -> Result<Slot, ProvisionFault>
        ensures refused { IfSome (add_fault profile self.old.sight.profiles) (λ fault. result ≡ Err fault) }
        ensures not_refused { IfNone (add_fault profile self.old.sight.profiles) (IfErr result (λ fault. fault ≡ NoMemory)) }
        ensures slot { IfOk result (λ slot. slot ≡ length self.old.sight.profiles) }
        ensures added { OnOk result (self.new ≡ world_added profile self.old) }
        ensures err { OnErr result (self.new ≡ self.old) }
    {
        in_use_is_kept();
        soundness_is_kept();
        clocks_are_kept();
        self.surroundings.add(&mut self.owners, profile)
    }

    /// One vector more for the subscriber of a slot, as `Subscriber::give` does; nothing else changes.
    ///
    /// Full where 64 of its vectors aren't spent or 2^62 were given, then NoMemory where room was refused; then the MME is as it
    /// was, and the secrets of the vector are overwritten.
    pub fn give(&mut self, slot: Slot, vector: Vector) -> Result<(), ProvisionFault>
        requires { slot < length self.old.sight.profiles }
        ensures full { (result ≡ Err Full) ↔ (give_fault slot self.old ≡ Some Full) }
        ensures fault { IfErr result (λ fault. fault ≢ NoMemory → fault ≡ Full) }
        ensures given { OnOk result (self.new ≡ world_given slot vector self.old) }
        ensures err { OnErr result (self.new ≡ self.old) }
    {
        self.surroundings.give(&mut self.owners, slot, vector)
    }
}

impl Surroundings {
    // The subscriber of a slot has a vector more.
    fn give(&self, owners: &mut Owners, slot: Slot, vector: Vector) -> Result<(), ProvisionFault>
        requires { slot < length owners.old.subscribers }
        ensures takes { TakesOneVector slot vector owners.old.subscribers result owners.new.subscribers }
        ensures rest { owners.new ≡ record owners.old { subscribers = owners.new.subscribers } }
    {
        owners.give(self.alloc, slot, vector)
    }

    // One more is provisioned, and is the owners' next subscriber. Where they have no room for it, it is provisioned no longer.
    fn add(&mut self, owners: &mut Owners, profile: Profile) -> Result<Slot, ProvisionFault>
        requires { length owners.old.subscribers ≡ length self.old.profiles }
        ensures refused { IfSome (add_fault profile self.old.profiles) (λ fault. result ≡ Err fault) }
        ensures not_refused { IfNone (add_fault profile self.old.profiles) (IfErr result (λ fault. fault ≡ NoMemory)) }
        ensures slot { IfOk result (λ slot. slot ≡ length self.old.profiles) }
        ensures few { OnOk result (length owners.old.subscribers < slots) }
        ensures added { OnOk result (world_of self.new owners.new ≡ world_added profile (world_of self.old owners.old)) }
        ensures clock { owners.new.clock ≡ owners.old.clock }
        ensures err { OnErr result (world_of self.new owners.new ≡ world_of self.old owners.old) }
    {
        // (that there are as many lists of vectors as profiles)
        let _ = self.provision.len();
        let slot = self.provision.add(profile)?;
        let none = Vectors::new(Vec::new(self.alloc));
        match push_fresh(self.alloc, &self.shared, owners, slot, &profile, none) {
            Ok(()) => Ok(slot),
            Err(_) => {
                self.provision.take_back();
                Err(ProvisionFault::NoMemory)
            }
        }
    }
}
