//! What is sent to a stranger.

ghost use Rattle.std.specs.Prelude.{◌≡◌, ◌++◌, IfOk, OnOk};
ghost use Rattle.s1ap_pdus.specs.Pdus.{lists};
ghost use Rattle.mme_signalling.specs.Pdus.{downlink};
ghost use Rattle.stranger_machine.specs.Turns.{identity_asked, refused, released, sent_to};

use identity_slots::AssociationId;
use mme_signalling::{downlink, identity_request, release_command};
use mme_types::{Answer, Answers, Connection, SentOctets, StationNumber};
use s1ap_elements::{Cause, EnbUeId, NasCause};
use s1ap_pdus::S1apPdu;
use std::alloc::{AllocError, Global};

// The message after what is sent so far; one without a written form isn't sent. It is taken, so that it ends here and not in each
// caller.
pub(crate) fn push_sent(
    alloc: Global,
    sent: &mut Answers,
    station: StationNumber,
    message: S1apPdu,
) -> Result<(), AllocError>
    ensures { OnOk result (sent.new ≡ sent.old ++ sent_to station (lists message.entry)) }
{
    match SentOctets::of_message(alloc, &message)? {
        Some(octets) => sent.push(Answer {
            station,
            octets,
            under: None,
        }),
        None => Ok(()),
    }
}

/// The message alone, to a station; one without a written form isn't sent. Refused where memory is.
pub fn sent_to(
    alloc: Global,
    station: StationNumber,
    message: S1apPdu,
) -> Result<Answers, AllocError>
    ensures { IfOk result (λ sent. sent ≡ sent_to station (lists message.entry)) }
{
    let mut sent = Answers::new(alloc);
    push_sent(alloc, &mut sent, station, message)?;
    Ok(sent)
}

// UE CONTEXT RELEASE COMMAND after what is sent so far.
#[tactic(auto, unfolding(crate::specs::Turns::released))]
fn release(
    alloc: Global,
    sent: &mut Answers,
    place: Connection,
    cause: Cause,
) -> Result<(), AllocError>
    ensures { OnOk result (sent.new ≡ sent.old ++ released place cause) }
{
    push_sent(
        alloc,
        sent,
        place.station,
        release_command(place.id, place.enb_ue_id, cause),
    )
}

/// UE CONTEXT RELEASE COMMAND.
pub(crate) fn released(
    alloc: Global,
    place: Connection,
    cause: Cause,
) -> Result<Answers, AllocError>
    ensures { IfOk result (λ sent. sent ≡ released place cause) }
{
    let mut sent = Answers::new(alloc);
    release(alloc, &mut sent, place, cause)?;
    Ok(sent)
}

// A NAS message, plain.
fn sent_plainly(alloc: Global, place: Connection, nas: &[u8]) -> Result<Answers, AllocError>
    ensures { IfOk result (λ sent. sent ≡ sent_to place.station (downlink place nas.now)) }
{
    sent_to(alloc, place.station, downlink(place, nas))
}

/// A stranger's association, by its id, its station and its eNB UE S1AP ID.
pub(crate) fn place(id: AssociationId, station: StationNumber, enb_ue_id: EnbUeId) -> Connection
    ensures { result ≡ record { id = id; station = station; enb_ue_id = enb_ue_id } }
{
    Connection {
        id,
        station,
        enb_ue_id,
    }
}

/// A NAS message, plain, and UE CONTEXT RELEASE COMMAND, on that association.
#[tactic(auto, unfolding(crate::specs::Turns::refused))]
pub(crate) fn refused(
    alloc: Global,
    id: AssociationId,
    station: StationNumber,
    enb_ue_id: EnbUeId,
    nas: &[u8],
) -> Result<Answers, AllocError>
    ensures { IfOk result (λ sent. sent ≡ refused (record { id = id; station = station; enb_ue_id = enb_ue_id }) nas.now) }
{
    let mut sent = sent_plainly(alloc, place(id, station, enb_ue_id), nas)?;
    let cause = Cause::Nas(NasCause::NormalRelease);
    release(alloc, &mut sent, place(id, station, enb_ue_id), cause)?;
    Ok(sent)
}

/// IDENTITY REQUEST.
#[tactic(auto, unfolding(crate::specs::Turns::identity_asked))]
pub(crate) fn identity_asked(alloc: Global, place: Connection) -> Result<Answers, AllocError>
    ensures { IfOk result (λ sent. sent ≡ identity_asked place) }
{
    let nas = identity_request(alloc)?;
    sent_plainly(alloc, place, nas.as_slice())
}
