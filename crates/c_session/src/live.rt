//! A subscriber or a vector more for an MME that runs.

ghost use Rattle.std.specs.Prelude.{◌≡◌, Err};
ghost use Rattle.identity_slots.specs.Forgetting.{forgotten};
ghost use Rattle.c_session.specs.Live.{added_live, given_live};
ghost use Rattle.c_session.specs.Sessions.{Leaves};

use crate::arguments::{imsi_of, profile_of, vector_of};
use crate::refusal::{Refusal, of_provision};
use crate::session::Session;
use identity_slots::{GivenKasme, Vector, Xres};
use trace_progress::Progress;

impl Session {
    /// A subscriber more for the MME that runs, given as in `add`. BadNumber where that is no IMSI, NoMme, Provision where the IMSI
    /// or the address is somebody's or 32,768 subscribers are there, then NoMemory.
    pub fn add_live(
        &mut self,
        imsi: &[u8],
        address: u32,
        gateway: u32,
        teid: u32,
    ) -> Result<(), Refusal>
        ensures { Leaves (added_live self.old imsi.now address gateway teid) self.old result self.new }
    {
        let profile = profile_of(imsi, address, gateway, teid)?;
        let Progress::Running(mme) = &mut self.progress else {
            return Err(Refusal::NoMme);
        };
        match mme.add(profile) {
            Ok(_) => Ok(()),
            Err(fault) => Err(of_provision(fault)),
        }
    }

    /// A vector more for a subscriber of the MME that runs, given as in `give`. BadNumber where that is no IMSI, BadOctets where
    /// there are more or fewer octets, NoMme, UnknownImsi, Provision where 64 of the subscriber's vectors aren't spent, then
    /// NoMemory. The secrets of a vector that is refused are overwritten.
    #[tactic(auto, using(crate::proofs::Places::slot_is_below))]
    pub fn give_live(
        &mut self,
        imsi: &[u8],
        rand: &[u8],
        autn: &[u8],
        xres: &[u8],
        kasme: &[u8],
    ) -> Result<(), Refusal>
        ensures { Leaves (given_live self.old imsi.now rand.now autn.now xres.now kasme.now) self.old result self.new }
    {
        let imsi = imsi_of(imsi)?;
        let mut vector = vector_of(rand, autn, xres, kasme)?;
        let Progress::Running(mme) = &mut self.progress else {
            return refuse(&mut vector, Refusal::NoMme);
        };
        let Some(slot) = mme.slot_of_imsi(imsi) else {
            return refuse(&mut vector, Refusal::UnknownImsi);
        };
        match mme.give(slot, vector) {
            Ok(()) => Ok(()),
            Err(fault) => Err(of_provision(fault)),
        }
    }
}

/// Refuses a vector, whose secrets are overwritten. It is out of line, so that they are also where nobody looks at them again.
#[inline(never)]
fn refuse(vector: &mut Vector, refusal: Refusal) -> Result<(), Refusal>
    ensures refusal { result ≡ Err refusal }
    ensures left { vector.new ≡ forgotten vector.old }
{
    if let Some(blank) = Xres::try_new(&[0; 16]) {
        vector.xres = blank;
    }
    vector.kasme = GivenKasme::new([0; 32]);
    Err(refusal)
}
