//! Events, and lines.

ghost use Rattle.std.specs.Prelude.{◌≡◌, None};
ghost use Rattle.c_session.specs.Sessions.{cancelled, data_waits, down, heard, up};
ghost use Rattle.mme_c.specs.Calls.{IsCall, IsLine, IsTick};

use crate::handle::MmeHandle;
use crate::numbers::{answer, refused};
use c_session::{Refusal, Session};
use std::alloc::Global;

/// A station connects.
#[tactic(auto, using(crate::proofs::Answered::is_answered))]
#[unsafe(no_mangle)]
pub extern "C" fn soizkadur_up(alloc: Global, mme: &mut MmeHandle, station: u8) -> u32
    ensures { IsCall (λ s. up s station) mme.old.session result mme.new.session }
{
    let Some(mut session) = mme.take(alloc) else {
        return refused(Refusal::NoMme);
    };
    let told = session.up(station);
    mme.put(alloc, session);
    answer(told)
}

/// A station's connection is lost.
#[tactic(auto, using(crate::proofs::Answered::is_answered))]
#[unsafe(no_mangle)]
pub extern "C" fn soizkadur_lost(alloc: Global, mme: &mut MmeHandle, station: u8) -> u32
    ensures { IsCall (λ s. down s station) mme.old.session result mme.new.session }
{
    let Some(mut session) = mme.take(alloc) else {
        return refused(Refusal::NoMme);
    };
    let told = session.down(station);
    mme.put(alloc, session);
    answer(told)
}

/// A station sends one whole message.
#[tactic(auto, using(crate::proofs::Answered::is_answered))]
#[unsafe(no_mangle)]
pub extern "C" fn soizkadur_in(
    alloc: Global,
    mme: &mut MmeHandle,
    station: u8,
    octets: &[u8],
) -> u32
    ensures { IsCall (λ s. heard s station octets.now) mme.old.session result mme.new.session }
{
    let Some(mut session) = mme.take(alloc) else {
        return refused(Refusal::NoMme);
    };
    let told = session.hear(station, octets);
    mme.put(alloc, session);
    answer(told)
}

/// That many seconds pass.
#[tactic(auto, using(crate::proofs::Answered::is_ticked))]
#[unsafe(no_mangle)]
pub extern "C" fn soizkadur_tick(alloc: Global, mme: &mut MmeHandle, count: u32) -> u32
    ensures { IsTick count mme.old.session result mme.new.session }
{
    let Some(mut session) = mme.take(alloc) else {
        return refused(Refusal::NoMme);
    };
    let told = session.tick(alloc, count);
    mme.put(alloc, session);
    answer(told)
}

/// Downlink data waits for a subscriber.
#[tactic(auto, using(crate::proofs::Answered::is_answered))]
#[unsafe(no_mangle)]
pub extern "C" fn soizkadur_data(alloc: Global, mme: &mut MmeHandle, imsi: &[u8]) -> u32
    ensures { IsCall (λ s. data_waits s imsi.now) mme.old.session result mme.new.session }
{
    let Some(mut session) = mme.take(alloc) else {
        return refused(Refusal::NoMme);
    };
    let told = session.data_waits(imsi);
    mme.put(alloc, session);
    answer(told)
}

/// A subscription is withdrawn.
#[tactic(auto, using(crate::proofs::Answered::is_answered))]
#[unsafe(no_mangle)]
pub extern "C" fn soizkadur_cancel(alloc: Global, mme: &mut MmeHandle, imsi: &[u8]) -> u32
    ensures { IsCall (λ s. cancelled s imsi.now) mme.old.session result mme.new.session }
{
    let Some(mut session) = mme.take(alloc) else {
        return refused(Refusal::NoMme);
    };
    let told = session.cancel(imsi);
    mme.put(alloc, session);
    answer(told)
}

/// Plays one line of a trace.
#[tactic(auto, using(crate::proofs::Answered::line_played))]
#[unsafe(no_mangle)]
pub extern "C" fn soizkadur_line(alloc: Global, mme: &mut MmeHandle, line: &[u8]) -> u32
    ensures { IsLine mme.old.session line.now result mme.new.session }
{
    let Some(mut session) = mme.take(alloc) else {
        return first_line(alloc, mme, line);
    };
    let told = session.play(alloc, line);
    mme.put(alloc, session);
    answer(told)
}

/// Plays the first line on an empty handle.
#[tactic(auto, using(crate::proofs::Answered::first_line_kept, crate::proofs::Answered::first_line_refused))]
fn first_line(alloc: Global, mme: &mut MmeHandle, line: &[u8]) -> u32
    requires { mme.old.session ≡ None }
    ensures { IsLine None line.now result mme.new.session }
{
    let mut session = Session::new(alloc);
    match session.play(alloc, line) {
        Ok(()) => mme.keep(alloc, session),
        Err(refusal) => refused(refusal),
    }
}
