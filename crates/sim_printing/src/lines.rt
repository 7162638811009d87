//! Lines that are printed and played, whether the MME runs already or is still to be made of what is provisioned.
//!
//! Where memory is refused nothing is printed. A line that provisions was taken or not. At an event or a question the trace stands
//! where it stood; or nothing is left of it, where the MME was to be made of what is provisioned; or the MME runs, and has taken
//! the event or not. An event that the MME refuses leaves it as it was.

ghost use Rattle.std.specs.Prelude.{◌≡◌, ◌<◌, ◌≤◌, ◌∷◌, [], true, false, length, Ok, IfOk, OnOk, OnErr, IsNone, is_some};
ghost use Rattle.trace_words.specs.declared.line.Line.TheVariants.{Mme, Sub, Vec, Up, Lost, In, Tick, Data, Cancel, Show};
ghost use Rattle.trace_words.specs.Trace.{line_text};
ghost use Rattle.trace_words.specs.Kept.{kept_line};
ghost use Rattle.mme_core.specs.World.{World};
ghost use Rattle.mme_core.specs.declared.event.Event.TheVariants as event;
ghost use Rattle.trace_progress.specs.declared.progress.Progress.TheVariants.{Nothing};
ghost use Rattle.trace_progress.specs.Effects.{in_event, running, states_of_imsi};
ghost use Rattle.trace_progress.specs.Stopping.{HasTaken, StopsWith};
ghost use Rattle.sim_printing.specs.Printed.{AfterEvent, IfSent, IsBegun, PrintsLine, PrintsOn, ReadsAs, event_line};
ghost use Rattle.sim_printing.specs.Shown.{RunsSame, ShowsEvent, ShowsStates, with_line};

use crate::comments::push_line;
use crate::events::{print_event, print_show};
use identity_slots::{Profile, StationNumber, Vector};
use mme_core::{Event, Outs};
use mme_types::Network;
use nas_elements::Imsi;
use std::alloc::{AllocError, Global};
use trace_progress::{PlayFault, Progress, add, give, run, start, states_of_imsi};
use trace_words::{LONGEST_LINE, first_word_tells, write_in, write_lost, write_up};

// ---- provisioning

/// Begins the provisioning, and appends the line as it was read. A fault is that of the line of that number, and comes whatever
/// memory there is. Where memory is refused nothing is appended, and the line was taken or not.
pub fn play_mme(
    alloc: Global,
    progress: &mut Progress,
    number: u64,
    network: Network,
    text: &[u8],
    out: &mut Vec<u8>,
) -> Result<(), PlayFault>
    requires { ReadsAs (Mme network) text.now }
    ensures printed { PrintsLine number (Mme network) progress.old out.old.items result progress.new out.new.items }
    ensures shown { OnOk result (out.new.items ≡ with_line text.now out.old.items) }
{
    first_word_tells();
    match start(alloc, progress, number, network) {
        Ok(()) => {}
        Err(fault) => return Err(fault),
    }
    match push_line(text, out) {
        Ok(()) => Ok(()),
        Err(_) => Err(PlayFault::NoMemory),
    }
}

/// Provisions a subscriber, and appends the line as it was read. A fault is that of the line of that number, and comes whatever
/// memory there is. Where memory is refused nothing is appended, and the line was taken or not.
pub fn play_sub(
    progress: &mut Progress,
    number: u64,
    profile: Profile,
    text: &[u8],
    out: &mut Vec<u8>,
) -> Result<(), PlayFault>
    requires { ReadsAs (Sub profile) text.now }
    ensures printed { PrintsLine number (Sub profile) progress.old out.old.items result progress.new out.new.items }
    ensures shown { OnOk result (out.new.items ≡ with_line text.now out.old.items) }
{
    first_word_tells();
    match add(progress, number, profile) {
        Ok(()) => {}
        Err(fault) => return Err(fault),
    }
    match push_line(text, out) {
        Ok(()) => Ok(()),
        Err(_) => Err(PlayFault::NoMemory),
    }
}

/// Gives a subscriber a vector, and appends the line as it was read. A fault is that of the line of that number, and comes
/// whatever memory there is. Where memory is refused nothing is appended, and the line was taken or not.
pub fn play_vec(
    progress: &mut Progress,
    number: u64,
    imsi: Imsi,
    vector: Vector,
    text: &[u8],
    out: &mut Vec<u8>,
) -> Result<(), PlayFault>
    requires { ReadsAs (Vec imsi vector) text.now }
    ensures printed { PrintsLine number (Vec imsi vector) progress.old out.old.items result progress.new out.new.items }
    ensures shown { OnOk result (out.new.items ≡ with_line text.now out.old.items) }
{
    first_word_tells();
    match give(progress, number, imsi, vector) {
        Ok(()) => {}
        Err(fault) => return Err(fault),
    }
    match push_line(text, out) {
        Ok(()) => Ok(()),
        Err(_) => Err(PlayFault::NoMemory),
    }
}

// ---- events and questions

/// Whether there is an MME to speak to: the provisioning has begun.
pub fn is_begun(progress: &Progress) -> bool
    ensures begun { result ≡ true → IsBegun progress.now }
    ensures nothing { result ≡ false → progress.now ≡ Nothing }
{
    match progress {
        Progress::Nothing => false,
        Progress::Provisioning(_, _) | Progress::Running(_) => true,
    }
}

/// The station connects: what is sent, or None where that is refused.
pub fn play_up(
    alloc: Global,
    progress: &mut Progress,
    station: StationNumber,
    out: &mut Vec<u8>,
) -> Result<Option<Outs>, AllocError>
    requires { IsBegun progress.old }
    ensures printed { OnOk result (PrintsOn progress.old out.old.items progress.new out.new.items []) }
    ensures shown { OnOk result (ShowsEvent progress.old (event.Up station) (line_text (Up station)) out.old.items out.new.items) }
    ensures sent { IfOk result (IfSent progress.old (event.Up station)) }
    ensures after { OnOk result (AfterEvent progress.old (event.Up station) progress.new) }
    ensures err { OnErr result (out.new.items ≡ out.old.items) }
    ensures stops { OnErr result (StopsWith (HasTaken (event.Up station ∷ [])) progress.old progress.new) }
{
    let text = write_up(alloc, station)?;
    let sent = play_event(alloc, progress, &Event::Up(station), text.as_bytes(), out)?;
    Ok(sent)
}

/// The station's connection is lost: what is sent, or None where that is refused.
pub fn play_lost(
    alloc: Global,
    progress: &mut Progress,
    station: StationNumber,
    out: &mut Vec<u8>,
) -> Result<Option<Outs>, AllocError>
    requires { IsBegun progress.old }
    ensures printed { OnOk result (PrintsOn progress.old out.old.items progress.new out.new.items []) }
    ensures shown { OnOk result
        (ShowsEvent progress.old (event.Lost station) (line_text (Lost station)) out.old.items out.new.items) }
    ensures sent { IfOk result (IfSent progress.old (event.Lost station)) }
    ensures after { OnOk result (AfterEvent progress.old (event.Lost station) progress.new) }
    ensures err { OnErr result (out.new.items ≡ out.old.items) }
    ensures stops { OnErr result (StopsWith (HasTaken (event.Lost station ∷ [])) progress.old progress.new) }
{
    let text = write_lost(alloc, station)?;
    let sent = play_event(alloc, progress, &Event::Lost(station), text.as_bytes(), out)?;
    Ok(sent)
}

/// The station sends a message: what is sent at that, or None where it is refused. A message whose line would be longer than
/// the longest isn't sent, and nothing is printed.
pub fn play_in(
    alloc: Global,
    progress: &mut Progress,
    station: StationNumber,
    octets: &[u8],
    out: &mut Vec<u8>,
) -> Result<Option<Outs>, AllocError>
    requires { IsBegun progress.old }
    ensures printed { OnOk result (PrintsOn progress.old out.old.items progress.new out.new.items []) }
    ensures shown { OnOk result (length (line_text (In station octets.now)) ≤ 40000
        → ShowsEvent progress.old (in_event station octets.now) (line_text (In station octets.now)) out.old.items out.new.items) }
    ensures sent { IfOk result
        (λ sent. length (line_text (In station octets.now)) ≤ 40000 → IfSent progress.old (in_event station octets.now) sent) }
    ensures long { IfOk result (λ sent. 40000 < length (line_text (In station octets.now)) → IsNone sent) }
    ensures unsent { OnOk result (40000 < length (line_text (In station octets.now))
        → (progress.new ≡ progress.old) × (out.new.items ≡ out.old.items)) }
    ensures after { OnOk result
        (length (line_text (In station octets.now)) ≤ 40000 → AfterEvent progress.old (in_event station octets.now) progress.new) }
    ensures err { OnErr result (out.new.items ≡ out.old.items) }
    ensures stops { OnErr result (StopsWith (HasTaken (in_event station octets.now ∷ [])) progress.old progress.new) }
{
    let text = write_in(alloc, station, octets)?;
    if text.len() > LONGEST_LINE {
        return Ok(None);
    }
    let event = Event::In(station, octets);
    let sent = play_event(alloc, progress, &event, text.as_bytes(), out)?;
    Ok(sent)
}

/// A second passes: what is sent, or None where that is refused.
pub fn play_tick(
    alloc: Global,
    progress: &mut Progress,
    out: &mut Vec<u8>,
) -> Result<Option<Outs>, AllocError>
    requires { IsBegun progress.old }
    ensures printed { OnOk result (PrintsOn progress.old out.old.items progress.new out.new.items []) }
    ensures shown { OnOk result (ShowsEvent progress.old event.Tick (line_text (Tick 1)) out.old.items out.new.items) }
    ensures sent { IfOk result (IfSent progress.old event.Tick) }
    ensures after { OnOk result (AfterEvent progress.old event.Tick progress.new) }
    ensures err { OnErr result (out.new.items ≡ out.old.items) }
    ensures stops { OnErr result (StopsWith (HasTaken (event.Tick ∷ [])) progress.old progress.new) }
{
    let sent = play_event(alloc, progress, &Event::Tick, b"tick 1", out)?;
    Ok(sent)
}

/// Data waits for a subscriber, as `text` says: what is sent, or None where that is refused.
pub fn play_data(
    alloc: Global,
    progress: &mut Progress,
    imsi: Imsi,
    text: &[u8],
    out: &mut Vec<u8>,
) -> Result<Option<Outs>, AllocError>
    requires begun { IsBegun progress.old }
    requires says { ReadsAs (Data imsi) text.now }
    ensures printed { OnOk result (PrintsOn progress.old out.old.items progress.new out.new.items (kept_line (Data imsi))) }
    ensures shown { OnOk result (ShowsEvent progress.old (event.Data imsi) text.now out.old.items out.new.items) }
    ensures sent { IfOk result (IfSent progress.old (event.Data imsi)) }
    ensures after { OnOk result (AfterEvent progress.old (event.Data imsi) progress.new) }
    ensures err { OnErr result (out.new.items ≡ out.old.items) }
    ensures stops { OnErr result (StopsWith (HasTaken (event.Data imsi ∷ [])) progress.old progress.new) }
{
    let sent = play_event(alloc, progress, &Event::Data(imsi), text, out)?;
    Ok(sent)
}

/// A subscription is withdrawn, as `text` says: what is sent, or None where that is refused.
pub fn play_cancel(
    alloc: Global,
    progress: &mut Progress,
    imsi: Imsi,
    text: &[u8],
    out: &mut Vec<u8>,
) -> Result<Option<Outs>, AllocError>
    requires begun { IsBegun progress.old }
    requires says { ReadsAs (Cancel imsi) text.now }
    ensures printed { OnOk result (PrintsOn progress.old out.old.items progress.new out.new.items (kept_line (Cancel imsi))) }
    ensures shown { OnOk result (ShowsEvent progress.old (event.Cancel imsi) text.now out.old.items out.new.items) }
    ensures sent { IfOk result (IfSent progress.old (event.Cancel imsi)) }
    ensures after { OnOk result (AfterEvent progress.old (event.Cancel imsi) progress.new) }
    ensures err { OnErr result (out.new.items ≡ out.old.items) }
    ensures stops { OnErr result (StopsWith (HasTaken (event.Cancel imsi ∷ [])) progress.old progress.new) }
{
    let sent = play_event(alloc, progress, &Event::Cancel(imsi), text, out)?;
    Ok(sent)
}

fn play_event(
    alloc: Global,
    progress: &mut Progress,
    event: &Event<'_>,
    text: &[u8],
    out: &mut Vec<u8>,
) -> Result<Option<Outs>, AllocError>
    requires begun { IsBegun progress.old }
    requires says { ReadsAs (event_line event.now) text.now }
    ensures printed { OnOk result
        (PrintsOn progress.old out.old.items progress.new out.new.items (kept_line (event_line event.now))) }
    ensures shown { OnOk result (ShowsEvent progress.old event.now text.now out.old.items out.new.items) }
    ensures sent { IfOk result (IfSent progress.old event.now) }
    ensures after { OnOk result (AfterEvent progress.old event.now progress.new) }
    ensures err { OnErr result (out.new.items ≡ out.old.items) }
    ensures stops { OnErr result (StopsWith (HasTaken (event.now ∷ [])) progress.old progress.new) }
{
    match run(alloc, progress, 0) {
        Ok(()) => {}
        Err(_) => return Err(AllocError),
    }
    let Progress::Running(mme) = progress else {
        return Ok(None);
    };
    let sent = print_event(alloc, mme, event, text, out)?;
    Ok(sent)
}

/// Shows a subscriber, as `text` asks. Answers `false`, with nothing printed and the progress as it was, where nobody is
/// provisioned with the IMSI.
pub fn play_show(
    alloc: Global,
    progress: &mut Progress,
    imsi: Imsi,
    text: &[u8],
    out: &mut Vec<u8>,
) -> Result<bool, AllocError>
    requires begun { IsBegun progress.old }
    requires says { ReadsAs (Show imsi) text.now }
    ensures printed { IfOk result
        (λ known. known ≡ true → PrintsOn progress.old out.old.items progress.new out.new.items (kept_line (Show imsi))) }
    ensures shown { IfOk result
        (λ known. known ≡ true → ShowsStates progress.old imsi text.now out.old.items out.new.items) }
    ensures after { IfOk result (λ known. known ≡ true → RunsSame progress.old progress.new) }
    ensures unknown { IfOk result (λ known. known ≡ false → (progress.new ≡ progress.old) × (out.new.items ≡ out.old.items)) }
    ensures known { IfOk result
        (λ known. (world : World) → running progress.old ≡ Ok world → known ≡ is_some (states_of_imsi imsi world)) }
    ensures err { OnErr result (out.new.items ≡ out.old.items) }
    ensures stops { OnErr result (StopsWith (HasTaken []) progress.old progress.new) }
{
    if !is_provisioned(progress, imsi) {
        return Ok(false);
    }
    match run(alloc, progress, 0) {
        Ok(()) => {}
        Err(_) => return Err(AllocError),
    }
    let Progress::Running(mme) = progress else {
        return Ok(false);
    };
    let known = print_show(alloc, mme, imsi, text, out)?;
    Ok(known)
}

/// Whether somebody is provisioned with the IMSI, whether the MME runs already or not.
fn is_provisioned(progress: &Progress, imsi: Imsi) -> bool
    ensures { (world : World) → running progress.now ≡ Ok world → result ≡ is_some (states_of_imsi imsi world) }
{
    match progress {
        Progress::Nothing => false,
        Progress::Provisioning(_, provision) => provision.slot_of_imsi(imsi).is_some(),
        Progress::Running(mme) => states_of_imsi(mme, imsi).is_some(),
    }
}
