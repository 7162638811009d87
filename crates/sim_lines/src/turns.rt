//! What stations and phones send, and what they answer when the MME's messages reach them.

ghost use Rattle.std.specs.Prelude.{◌≡◌, ◌++◌, [], OnOk};
ghost use Rattle.sim_printing.specs.Printed.{IsBegun, PrintsOn};
ghost use Rattle.sim_lines.specs.Further.{GoesFurther};
ghost use Rattle.sim_lines.specs.Plays.{PlaysMessage};
ghost use Rattle.sim_lines.specs.Turns.{PlaysAnswers, PlaysQueue, delivering_each, delivering_sent, scene_of, sending_as, uplink_of};

use crate::script::Script;
use identity_slots::StationNumber;
use mme_core::{Out, Outs};
use sim_crowd::{Crowd, Uplink};
use sim_printing::{play_in, push_dropped};
use std::alloc::{AllocError, Global};

/// The most messages of stations and phones that are played after a line, or after a tick.
const MOST_ANSWERS: usize = 64;

/// A station sends a message: it is played, and what is answered to it.
pub(crate) fn play_message(
    alloc: Global,
    script: &mut Script,
    station: StationNumber,
    octets: &[u8],
    out: &mut Vec<u8>,
) -> Result<(), AllocError>
    requires { IsBegun script.old.progress }
    ensures printed { OnOk result (PrintsOn script.old.progress out.old.items script.new.progress out.new.items []) }
    ensures plays { OnOk result
        (PlaysMessage (uplink_of station octets.now) (scene_of script.old out.old.items) (scene_of script.new out.new.items)) }
    ensures goes { GoesFurther script.old.progress out.old.items script.new.progress out.new.items }
{
    let sent = play_in(alloc, &mut script.progress, station, octets, out)?;
    play_answers(alloc, script, sent, out)
}

/// Delivers what the MME sent, if it sent something, and plays what is answered to it.
pub(crate) fn play_answers(
    alloc: Global,
    script: &mut Script,
    sent: Option<Outs>,
    out: &mut Vec<u8>,
) -> Result<(), AllocError>
    requires { IsBegun script.old.progress }
    ensures printed { OnOk result (PrintsOn script.old.progress out.old.items script.new.progress out.new.items []) }
    ensures plays { OnOk result
        (PlaysAnswers (sending_as sent (scene_of script.old out.old.items)) (scene_of script.new out.new.items)) }
    ensures goes { GoesFurther script.old.progress out.old.items script.new.progress out.new.items }
{
    let mut queue = Vec::new(alloc);
    deliver(&mut script.crowd, sent, &mut queue)?;
    play_queue(alloc, script, queue, out)
}

/// Delivers what the MME sent, in order; what is answered comes to the end of the queue.
pub(crate) fn deliver(
    crowd: &mut Crowd,
    sent: Option<Outs>,
    queue: &mut Vec<Uplink>,
) -> Result<(), AllocError>
    ensures crowd { OnOk result (crowd.new ≡ (delivering_sent sent crowd.old).crowd) }
    ensures queue { OnOk result (queue.new.items ≡ queue.old.items ++ (delivering_sent sent crowd.old).sent) }
{
    let Some(outs) = sent else {
        return Ok(());
    };
    deliver_each(crowd, outs.as_slice(), queue)
}

fn deliver_each(crowd: &mut Crowd, sent: &[Out], queue: &mut Vec<Uplink>) -> Result<(), AllocError>
    ensures crowd { OnOk result (crowd.new ≡ (delivering_each sent.now crowd.old).crowd) }
    ensures queue { OnOk result (queue.new.items ≡ queue.old.items ++ (delivering_each sent.now crowd.old).sent) }
{
    for message in sent {
        crowd.deliver(message.station, message.octets.as_slice(), queue)?;
    }
    Ok(())
}

/// Plays the messages of the queue in order, and what is answered to them after it, up to the most that are played; the
/// number of the others is printed.
pub(crate) fn play_queue(
    alloc: Global,
    script: &mut Script,
    mut queue: Vec<Uplink>,
    out: &mut Vec<u8>,
) -> Result<(), AllocError>
    requires { IsBegun script.old.progress }
    ensures printed { OnOk result (PrintsOn script.old.progress out.old.items script.new.progress out.new.items []) }
    ensures plays { OnOk result (PlaysQueue queue.items (scene_of script.old out.old.items) (scene_of script.new out.new.items)) }
    ensures goes { GoesFurther script.old.progress out.old.items script.new.progress out.new.items }
{
    for turn in 0..MOST_ANSWERS {
        let Some(uplink) = queue.get(turn) else {
            return Ok(());
        };
        let octets = uplink.octets.as_slice();
        let sent = play_in(alloc, &mut script.progress, uplink.station, octets, out)?;
        deliver(&mut script.crowd, sent, &mut queue)?;
    }
    if queue.len() <= MOST_ANSWERS {
        return Ok(());
    }
    push_dropped(alloc, queue.len() - MOST_ANSWERS, out)?;
    Ok(())
}
