//! An INITIAL UE MESSAGE that names nobody (TS 36.413 clause 8.6.2.1).

ghost use Rattle.std.specs.Prelude.{◌≡◌, List, IfOk, option_map, slice_index};
ghost use Rattle.nas_messages.specs.Messages.{lists};
ghost use Rattle.mme_types.specs.declared.stations.StationState.{StationState};
ghost use Rattle.mme_types.specs.Events.{entry_lists};
ghost use Rattle.stranger_machine.specs.Machine.{begins, welcome_by_fault, welcome_by_identity, welcome_by_message, welcome_by_type, displaced_by, meet, welcomed};
ghost use Rattle.stranger_machine.specs.Seen.{refusal_of, welcome_of};
ghost use Rattle.stranger_machine.specs.Lent.{lent_now};
ghost use Rattle.stranger_machine.specs.Turns.{call_of, as_kept, turn_of};

use crate::sending::{identity_asked, place, refused, released};
use crate::state::{KeptEntry, Stranger};
use crate::table::LentStranger;
use crate::turn::{After, Call, Turn};
use identity_slots::AssociationId;
use mme_signalling::{EmmCause, attach_reject, initial_octets, service_reject, update_reject};
use mme_types::{Entry, SoloEvent};
use nas_elements::{MobileIdentity, NasFault};
use nas_messages::{Direction, Emm, EmmMessage, codes, decode_emm, timers};
use s1ap_elements::{Cause, NasCause};
use std::alloc::{AllocError, Global};

/// A request that is refused (TS 24.301 clauses 5.5.1.2.5, 5.5.3.2.5 and 5.6.1.5).
#[derive(Clone, Copy)]
pub(crate) enum Rejected {
    Attach(EmmCause),
    AreaUpdate(EmmCause),
    Service(EmmCause),
}

/// How a phone that is foreign is met.
#[derive(Clone, Copy)]
pub(crate) enum Welcome {
    /// It is asked for its identity.
    Ask,
    /// Its request is refused, and its association released.
    Refuse(Rejected),
    /// Its association is released.
    TurnAway,
}

fn welcome_by_identity(identity: &MobileIdentity) -> Welcome
    ensures { welcome_of result ≡ welcome_by_identity identity.now }
{
    match identity {
        MobileIdentity::Imsi(_) => Welcome::Refuse(Rejected::Attach(EmmCause::ServicesNotAllowed)),
        MobileIdentity::Temporary(_) => Welcome::Ask,
    }
}

fn welcome_by_message(message: &EmmMessage) -> Welcome
    ensures { welcome_of result ≡ welcome_by_message (lists message.now) }
{
    let not_derived = EmmCause::IdentityNotDerived;
    match message {
        Emm::AttachRequest(request) => welcome_by_identity(&request.identity),
        Emm::TrackingAreaUpdateRequest(_) => Welcome::Refuse(Rejected::AreaUpdate(not_derived)),
        Emm::ServiceRequest { octets: _ } => Welcome::Refuse(Rejected::Service(not_derived)),
        _ => Welcome::TurnAway,
    }
}

// A request with a part that can't be read, by its type (TS 24.301 clause 9.8).
fn welcome_by_type(code: u8) -> Welcome
    ensures { welcome_of result ≡ welcome_by_type code }
{
    let cause = EmmCause::InvalidMandatory;
    if code == codes::ATTACH_REQUEST {
        Welcome::Refuse(Rejected::Attach(cause))
    } else if code == codes::TRACKING_AREA_UPDATE_REQUEST {
        Welcome::Refuse(Rejected::AreaUpdate(cause))
    } else {
        Welcome::TurnAway
    }
}

fn welcome_by_fault(fault: NasFault, code: u8) -> Welcome
    ensures { welcome_of result ≡ welcome_by_fault fault code }
{
    match fault {
        NasFault::Mandatory | NasFault::OptionalPart => welcome_by_type(code),
        NasFault::TooShort | NasFault::UnknownType | NasFault::NoMemory => Welcome::TurnAway,
    }
}

fn second(octets: &[u8]) -> u8
    ensures { result ≡ slice_index octets.now 1 }
{
    match octets.get(1) {
        Some(octet) => *octet,
        None => 0,
    }
}

// How a phone is met, by its NAS message.
#[tactic(auto, unfolding(crate::specs::Machine::meet))]
fn meet(nas: &[u8]) -> Welcome
    ensures { welcome_of result ≡ meet nas.now }
{
    let octets = initial_octets(nas);
    match decode_emm(octets, Direction::Uplink) {
        Ok(message) => welcome_by_message(&message),
        Err(fault) => welcome_by_fault(fault, second(octets)),
    }
}

fn refusal(alloc: Global, rejected: Rejected) -> Result<Vec<u8>, AllocError>
    ensures { IfOk result (λ o. o.items ≡ refusal_of rejected) }
{
    match rejected {
        Rejected::Attach(cause) => attach_reject(alloc, cause),
        Rejected::AreaUpdate(cause) => update_reject(alloc, cause),
        Rejected::Service(cause) => service_reject(alloc, cause),
    }
}

// Whoever held the id loses it.
fn displaced_by<'a>(id: AssociationId, before: Option<LentStranger<'_>>) -> Option<Call<'a>>
    ensures { (stations : List StationState) → call_of stations result ≡ displaced_by id (option_map lent_now before.entry) }
{
    match before?.stranger {
        Stranger::Held(slot) => Some(Call {
            slot: *slot,
            event: SoloEvent::Displaced(id),
        }),
        Stranger::Waiting {
            kept: _,
            left: _,
            repeats: _,
        } => None,
    }
}

/// A stranger with this id begins with an INITIAL UE MESSAGE that names nobody: an attach with a temporary identity is asked for
/// the IMSI, any other request is refused, any other message turned away by the release alone. Who held the id is called.
#[tactic(auto, unfolding(crate::specs::Machine::begins, crate::specs::Machine::welcomed))]
pub fn begins<'a>(
    alloc: Global,
    id: AssociationId,
    before: Option<LentStranger<'_>>,
    entry: &Entry<&'a [u8]>,
) -> Result<Turn<'a>, AllocError>
    ensures { (stations : List StationState) → IfOk result (λ t. turn_of stations (option_map lent_now before.entry) t
        ≡ begins id (option_map lent_now before.entry) (entry_lists entry.now)) }
{
    let call = displaced_by(id, before);
    let (station, enb_ue_id) = (entry.station, entry.enb_ue_id);
    match meet(entry.nas) {
        Welcome::Ask => {
            let sent = identity_asked(alloc, place(id, station, enb_ue_id))?;
            let waiting = Stranger::Waiting {
                kept: KeptEntry::of_entry(alloc, entry)?,
                left: timers::T3470_TICKS,
                repeats: timers::T3470_REPEATS,
            };
            Ok(Turn {
                after: After::Is(waiting),
                sent,
                call,
            })
        }
        Welcome::Refuse(rejected) => {
            let nas = refusal(alloc, rejected)?;
            let sent = refused(alloc, id, station, enb_ue_id, nas.as_slice())?;
            Ok(Turn {
                after: After::Closed,
                sent,
                call,
            })
        }
        Welcome::TurnAway => {
            let cause = Cause::Nas(NasCause::Unspecified);
            let sent = released(alloc, place(id, station, enb_ue_id), cause)?;
            Ok(Turn {
                after: After::Closed,
                sent,
                call,
            })
        }
    }
}
