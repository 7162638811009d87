//! How an MME is made, and how it ends.

ghost use Rattle.std.specs.Prelude.{◌≡◌, None};
ghost use Rattle.c_session.specs.Sessions.{added, begun, given};
ghost use Rattle.mme_c.specs.Calls.{IsBegin, IsCall, IsFirst, IsMade, IsNew, IsStart};

use crate::handle::MmeHandle;
use crate::numbers::{answer, refused};
use c_session::{Refusal, Session};
use std::alloc::Global;

/// Why lines make no MME: the number of the line, counted from 1, and the number of its refusal.
#[repr(C)]
#[derive(Drop)]
pub struct LineFault {
    pub line: u64,
    pub refusal: u32,
}

/// Makes an MME of the provisioning lines of a trace, and starts it, if the handle is empty.
#[tactic(auto, using(crate::proofs::Answered::new_kept, crate::proofs::Answered::new_refused))]
#[unsafe(no_mangle)]
pub extern "C" fn soizkadur_new(
    alloc: Global,
    mme: &mut MmeHandle,
    lines: &[u8],
    fault: &mut LineFault,
) -> u32
    ensures { IsNew mme.old.session lines.now fault.old result mme.new.session fault.new }
{
    if let Some(session) = mme.take(alloc) {
        mme.put(alloc, session);
        return refused(Refusal::InUse);
    }
    match Session::of_lines(alloc, lines) {
        Ok(session) => mme.keep(alloc, session),
        Err(why) => {
            let number = refused(why.refusal);
            *fault = LineFault {
                line: why.line,
                refusal: number,
            };
            number
        }
    }
}

/// Begins the provisioning.
#[tactic(auto, using(crate::proofs::Answered::is_answered, crate::proofs::Answered::is_first_kept, crate::proofs::Answered::is_first_refused))]
#[unsafe(no_mangle)]
pub extern "C" fn soizkadur_provision_new(
    alloc: Global,
    mme: &mut MmeHandle,
    plmn: &[u8],
    group: u16,
    code: u8,
    apn: &[u8],
    down: u64,
    up: u64,
) -> u32
    ensures { IsBegin (λ s. begun s plmn.now group code apn.now down up) mme.old.session result mme.new.session }
{
    let Some(mut session) = mme.take(alloc) else {
        let mut first = Session::new(alloc);
        return match first.begin(alloc, plmn, group, code, apn, down, up) {
            Ok(()) => mme.keep(alloc, first),
            Err(refusal) => refused(refusal),
        };
    };
    let told = session.begin(alloc, plmn, group, code, apn, down, up);
    mme.put(alloc, session);
    answer(told)
}

/// Provisions a subscriber.
#[tactic(auto, using(crate::proofs::Answered::is_answered))]
#[unsafe(no_mangle)]
pub extern "C" fn soizkadur_add(
    alloc: Global,
    mme: &mut MmeHandle,
    imsi: &[u8],
    address: u32,
    gateway: u32,
    teid: u32,
) -> u32
    ensures { IsCall (λ s. added s imsi.now address gateway teid) mme.old.session result mme.new.session }
{
    let Some(mut session) = mme.take(alloc) else {
        return refused(Refusal::NoMme);
    };
    let told = session.add(imsi, address, gateway, teid);
    mme.put(alloc, session);
    answer(told)
}

/// Gives a subscriber one more authentication vector.
#[tactic(auto, using(crate::proofs::Answered::is_answered))]
#[unsafe(no_mangle)]
pub extern "C" fn soizkadur_give(
    alloc: Global,
    mme: &mut MmeHandle,
    imsi: &[u8],
    rand: &[u8],
    autn: &[u8],
    xres: &[u8],
    kasme: &[u8],
) -> u32
    ensures { IsCall (λ s. given s imsi.now rand.now autn.now xres.now kasme.now) mme.old.session result mme.new.session }
{
    let Some(mut session) = mme.take(alloc) else {
        return refused(Refusal::NoMme);
    };
    let told = session.give(imsi, rand, autn, xres, kasme);
    mme.put(alloc, session);
    answer(told)
}

/// Starts the MME of what is provisioned.
#[tactic(auto, using(crate::proofs::Answered::is_started))]
#[unsafe(no_mangle)]
pub extern "C" fn soizkadur_start(alloc: Global, mme: &mut MmeHandle) -> u32
    ensures { IsStart mme.old.session result mme.new.session }
{
    let Some(mut session) = mme.take(alloc) else {
        return refused(Refusal::NoMme);
    };
    let told = session.start(alloc);
    mme.put(alloc, session);
    answer(told)
}

/// Frees what the handle holds, if it holds something, and leaves it empty.
#[unsafe(no_mangle)]
pub extern "C" fn soizkadur_free(alloc: Global, mme: &mut MmeHandle)
    ensures { mme.new.session ≡ None }
{
    let _session = mme.take(alloc);
}
