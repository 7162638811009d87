//! A message with a stranger's id.

ghost use Rattle.std.specs.Prelude.{◌≡◌, ◌∷◌, List, [], Ok, Some, None, IfOk, option_map};
ghost use Rattle.nas_messages.specs.Messages.{decoded_emm, lists};
ghost use Rattle.nas_messages.specs.declared.emm_types.Direction.TheVariants.{Uplink};
ghost use Rattle.mme_types.specs.declared.stations.StationState.{StationState};
ghost use Rattle.mme_types.specs.Events.{Message, message_lists};
ghost use Rattle.stranger_machine.specs.declared.state.Stranger.{Stranger};
ghost use Rattle.stranger_machine.specs.declared.turn.After.TheVariants as afters;
ghost use Rattle.stranger_machine.specs.Machine.{checked_for_pair, claimed_by, receives_own, identified, imsi_of_identity, receives, imsi_in_response, unknown, receives_waiting};
ghost use Rattle.stranger_machine.specs.Lent.{lent_now};
ghost use Rattle.stranger_machine.specs.Turns.{turn_of};

use crate::sending::{refused, released, sent_to};
use crate::state::{KeptEntry, Stranger};
use crate::table::LentStranger;
use crate::turn::{After, Call, Turn};
use identity_slots::{AssociationId, Provision, Slot};
use mme_signalling::{
    EmmCause, attach_reject, cause_of_request, error_indication, path_switch_failure,
};
use mme_types::{Answers, SoloEvent, UeBody, UeMessage};
use nas_elements::{Imsi, MobileIdentity};
use nas_messages::{Direction, Emm, EmmMessage, decode_emm};
use s1ap_elements::{Cause, RadioNetworkCause};
use std::alloc::{AllocError, Global};

/// The answer to a message whose id is nobody's: ERROR INDICATION with the ids that were received, for a path switch its failure,
/// for a release that is complete nothing (TS 36.413 clauses 10.6 and 8.4.4.3).
#[tactic(auto, unfolding(crate::specs::Machine::unknown))]
pub fn unknown(alloc: Global, message: &UeMessage<&[u8]>) -> Result<Answers, AllocError>
    ensures { IfOk result (λ sent. sent ≡ unknown (message_lists message.now).body (message_lists message.now)) }
{
    let cause = Cause::RadioNetwork(RadioNetworkCause::UnknownMmeUeS1apId);
    match message.body {
        UeBody::UeContextReleaseComplete => Ok(Answers::new(alloc)),
        UeBody::PathSwitch => {
            let failure = path_switch_failure(message.mme_ue_id, message.enb_ue_id, cause);
            sent_to(alloc, message.station, failure)
        }
        UeBody::Uplink { nas: _, tai: _ }
        | UeBody::UeContextReleaseRequest { cause: _ }
        | UeBody::InitialContextSetupFailure
        | UeBody::Notice => {
            let indication = error_indication(message.mme_ue_id, message.enb_ue_id, cause);
            sent_to(alloc, message.station, indication)
        }
    }
}

// It stays, and sends these.
fn staying<'a>(sent: Answers) -> Turn<'a>
    ensures after { result.after ≡ afters.Stays }
    ensures sent { result.sent ≡ sent }
    ensures call { result.call ≡ None }
{
    Turn {
        after: After::Stays,
        sent,
        call: None,
    }
}

fn closing<'a>(sent: Answers) -> Turn<'a>
    ensures after { result.after ≡ afters.Closed }
    ensures sent { result.sent ≡ sent }
    ensures call { result.call ≡ None }
{
    Turn {
        after: After::Closed,
        sent,
        call: None,
    }
}

fn imsi_of_identity(identity: &MobileIdentity) -> Option<Imsi>
    ensures { result ≡ imsi_of_identity identity.now }
{
    match identity {
        MobileIdentity::Imsi(imsi) => Some(*imsi),
        MobileIdentity::Temporary(_) => None,
    }
}

fn imsi_in(message: &EmmMessage) -> Option<Imsi>
    ensures { result ≡ imsi_in_response (Ok (lists message.now)) }
{
    match message {
        Emm::IdentityResponse { identity } => imsi_of_identity(identity),
        _ => None,
    }
}

// The IMSI of a plain IDENTITY RESPONSE (TS 24.301 clause 8.2.19).
fn imsi_in_response(nas: &[u8]) -> Option<Imsi>
    ensures { result ≡ imsi_in_response (decoded_emm Uplink nas.now) }
{
    match decode_emm(nas, Direction::Uplink) {
        Ok(message) => imsi_in(&message),
        Err(_) => None,
    }
}

// Who is provisioned claims the association; any other is refused.
#[tactic(auto, unfolding(crate::specs::Machine::identified, crate::specs::Machine::claimed_by))]
fn identified<'a>(
    alloc: Global,
    provision: &Provision,
    id: AssociationId,
    kept: &'a KeptEntry,
    imsi: Option<Imsi>,
) -> Result<Turn<'a>, AllocError>
    ensures { (stations : List StationState) (s : Stranger)
        → IfOk result (λ t. turn_of stations (Some s) t ≡ identified imsi provision.now.profiles id kept.entry.now s) }
{
    let Some(imsi) = imsi else {
        return Ok(staying(Answers::new(alloc)));
    };
    match provision.slot_of_imsi(imsi) {
        Some(slot) => Ok(Turn {
            after: After::Is(Stranger::Held(slot)),
            sent: Answers::new(alloc),
            call: Some(Call {
                slot,
                event: SoloEvent::Claim(id, kept.entry()),
            }),
        }),
        None => {
            let nas = attach_reject(alloc, EmmCause::ServicesNotAllowed)?;
            let sent = refused(alloc, id, kept.station, kept.enb_ue_id, nas.as_slice())?;
            Ok(closing(sent))
        }
    }
}

// A message from the stranger's own station and number.
#[tactic(auto, unfolding(crate::specs::Machine::receives_own))]
fn receives_own<'a>(
    alloc: Global,
    provision: &Provision,
    kept: &'a KeptEntry,
    message: &UeMessage<&[u8]>,
) -> Result<Turn<'a>, AllocError>
    ensures { (stations : List StationState) (s : Stranger) → IfOk result (λ t. turn_of stations (Some s) t
        ≡ receives_own (message_lists message.now).body provision.now.profiles message.now.mme_ue_id kept.entry.now s) }
{
    match message.body {
        UeBody::Uplink { nas, tai: _ } => {
            identified(
                alloc,
                provision,
                message.mme_ue_id,
                kept,
                imsi_in_response(nas),
            )
        }
        UeBody::UeContextReleaseRequest { cause } => {
            let place = kept.place(message.mme_ue_id);
            Ok(closing(released(alloc, place, cause_of_request(cause))?))
        }
        UeBody::UeContextReleaseComplete
        | UeBody::InitialContextSetupFailure
        | UeBody::PathSwitch
        | UeBody::Notice => Ok(staying(Answers::new(alloc))),
    }
}

#[tactic(auto, unfolding(crate::specs::Machine::checked_for_pair))]
fn checked_for_pair<'a>(
    alloc: Global,
    provision: &Provision,
    kept: &'a KeptEntry,
    message: &UeMessage<&[u8]>,
) -> Result<Turn<'a>, AllocError>
    ensures { (stations : List StationState) (s : Stranger)
        → IfOk result (λ t. turn_of stations (Some s) t
        ≡ checked_for_pair provision.now.profiles (message_lists message.now) kept.entry.now s) }
{
    if kept.station == message.station && kept.enb_ue_id == message.enb_ue_id {
        return receives_own(alloc, provision, kept, message);
    }
    let cause = Cause::RadioNetwork(RadioNetworkCause::UnknownPairUeS1apId);
    let indication = error_indication(message.mme_ue_id, message.enb_ue_id, cause);
    Ok(staying(sent_to(alloc, message.station, indication)?))
}

// A message for a stranger that waits.
#[tactic(auto, unfolding(crate::specs::Machine::receives_waiting))]
fn receives_waiting<'a>(
    alloc: Global,
    provision: &Provision,
    kept: &'a KeptEntry,
    message: &UeMessage<&[u8]>,
) -> Result<Turn<'a>, AllocError>
    ensures { (stations : List StationState) (s : Stranger) → IfOk result (λ t. turn_of stations (Some s) t
        ≡ receives_waiting (message_lists message.now).body provision.now.profiles (message_lists message.now) kept.entry.now s) }
{
    match message.body {
        UeBody::UeContextReleaseComplete => Ok(staying(Answers::new(alloc))),
        UeBody::PathSwitch => Ok(staying(unknown(alloc, message)?)),
        UeBody::Uplink { nas: _, tai: _ }
        | UeBody::UeContextReleaseRequest { cause: _ }
        | UeBody::InitialContextSetupFailure
        | UeBody::Notice => checked_for_pair(alloc, provision, kept, message),
    }
}

// Who holds the association is called.
fn handed_on<'a>(alloc: Global, slot: Slot, message: &UeMessage<&'a [u8]>) -> Turn<'a>
    ensures { (stations : List StationState) (s : Stranger) → turn_of stations (Some s) result
        ≡ record {
          stranger = Some s;
          sent = [];
          call =
              Some (record { slot = slot; item = Message (message_lists message.now) });
        } }
{
    Turn {
        after: After::Stays,
        sent: Answers::new(alloc),
        call: Some(Call {
            slot,
            event: SoloEvent::Message(UeMessage {
                station: message.station,
                mme_ue_id: message.mme_ue_id,
                enb_ue_id: message.enb_ue_id,
                body: message.body.again(),
            }),
        }),
    }
}

/// A message with the stranger's id: one that is closed is nobody, one that waits takes its identity and its release, and one that
/// is held hands it on to its subscriber.
#[tactic(auto, unfolding(crate::specs::Machine::receives))]
pub fn receives<'a>(
    alloc: Global,
    provision: &Provision,
    before: Option<LentStranger<'a>>,
    message: &UeMessage<&'a [u8]>,
) -> Result<Turn<'a>, AllocError>
    ensures { (stations : List StationState) → IfOk result (λ t. turn_of stations (option_map lent_now before.entry) t
        ≡ receives provision.now.profiles (option_map lent_now before.entry) (message_lists message.now)) }
{
    let Some(before) = before else {
        return Ok(closing(unknown(alloc, message)?));
    };
    match before.stranger {
        Stranger::Waiting {
            kept,
            left: _,
            repeats: _,
        } => receives_waiting(alloc, provision, kept, message),
        Stranger::Held(slot) => Ok(handed_on(alloc, *slot, message)),
    }
}
