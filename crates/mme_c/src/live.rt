//! A subscriber or a vector more for an MME that runs.

ghost use Rattle.c_session.specs.Live.{added_live, given_live};
ghost use Rattle.mme_c.specs.Calls.{IsCall};

use crate::handle::MmeHandle;
use crate::numbers::{answer, refused};
use c_session::Refusal;
use std::alloc::Global;

/// A subscriber more for the MME that runs.
#[tactic(auto, using(crate::proofs::Answered::is_answered))]
#[unsafe(no_mangle)]
pub extern "C" fn soizkadur_add_live(
    alloc: Global,
    mme: &mut MmeHandle,
    imsi: &[u8],
    address: u32,
    gateway: u32,
    teid: u32,
) -> u32
    ensures { IsCall (λ s. added_live s imsi.now address gateway teid) mme.old.session result mme.new.session }
{
    let Some(mut session) = mme.take(alloc) else {
        return refused(Refusal::NoMme);
    };
    let told = session.add_live(imsi, address, gateway, teid);
    mme.put(alloc, session);
    answer(told)
}

/// An authentication vector more for a subscriber of the MME that runs.
#[tactic(auto, using(crate::proofs::Answered::is_answered))]
#[unsafe(no_mangle)]
pub extern "C" fn soizkadur_give_live(
    alloc: Global,
    mme: &mut MmeHandle,
    imsi: &[u8],
    rand: &[u8],
    autn: &[u8],
    xres: &[u8],
    kasme: &[u8],
) -> u32
    ensures { IsCall (λ s. given_live s imsi.now rand.now autn.now xres.now kasme.now) mme.old.session result mme.new.session }
{
    let Some(mut session) = mme.take(alloc) else {
        return refused(Refusal::NoMme);
    };
    let told = session.give_live(imsi, rand, autn, xres, kasme);
    mme.put(alloc, session);
    answer(told)
}
