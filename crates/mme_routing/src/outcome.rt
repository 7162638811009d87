//! What a station that isn't down makes of the octets that it sends, and where they go.

ghost use Rattle.std.specs.Prelude.{◌≡◌, ◌≢◌, ◌^◌, ◌≤◌, List, [], IfOk, OnOk, Some, None, Ok, Err, option_map};
ghost use Rattle.identity_slots.specs.Ids.{stranger_id};
ghost use Rattle.s1ap_pdus.specs.Pdus.{lists, decoded, encoded, initial_ue_message_lists};
ghost use Rattle.s1ap_rows.specs.declared.fault.S1apFault.TheVariants as faults;
ghost use Rattle.mme_types.specs.declared.stations.StationState.{StationState};
ghost use Rattle.mme_types.specs.declared.stations.StationState.TheVariants.{Up, Ready};
ghost use Rattle.stranger_machine.specs.Turns.{sent_to};
ghost use Rattle.mme_types.specs.Answers.{answer_of};
ghost use Rattle.mme_types.specs.Events.{ue_body_lists, message_lists};
ghost use Rattle.mme_routing.specs.Seen.{destination_of, seen_outcome};
ghost use Rattle.mme_routing.specs.Resets.{reset};
ghost use Rattle.mme_routing.specs.Outcomes.{begins_anew, broadcasts, cause_of, entry_routed, enters, goes_to, outcome_of, outcome_of_message, indicated, indication, not_compatible, answered, setup_failure, setup_response, station_set_up, phone_message, phone_message_if, message_by_id, message_of_slot, ue_message, ue_message_in};

use crate::answers::{cause_of, indication, sent_again, setup_failure};
use crate::destination::Destination;
use crate::naming::named_slot;
use crate::resets::reset;
use identity_slots::{AssociationId, Provision};
use mme_types::{
    Answers, Entry, Network, SentOctets, SoloEvent, StationNumber, StationState, UeBody, UeMessage,
    is_broadcast,
};
use s1ap_elements::{Cause, EnbUeId, MmeUeId, Plmn, ProtocolCause, SupportedTa, SupportedTas};
use s1ap_messages::decode;
use s1ap_pdus::{InitialUeMessage, Pdu, S1apFault, S1apPdu};
use std::alloc::{AllocError, Global};
use stranger_machine::{Notice, sent_to, unknown};

/// What comes of an event that isn't refused: the new state of its station, where it has one, what is sent for the station, and
/// where the event goes.
#[derive(Drop)]
pub struct Outcome<'a> {
    pub state: Option<StationState>,
    pub sent: Answers,
    pub destination: Destination<'a>,
}

impl<'a> Outcome<'a> {
    /// Nothing but what is sent for the station.
    pub fn answered(sent: Answers) -> Outcome<'a>
        ensures { (stations : List StationState) → seen_outcome stations result ≡ answered sent }
    {
        Outcome {
            state: None,
            sent,
            destination: Destination::Nobody,
        }
    }

    /// The associations of a station end, with what is sent for it, and the state that it begins anew in, where that is another.
    pub fn begins_anew(
        station: StationNumber,
        state: Option<StationState>,
        sent: Answers,
    ) -> Outcome<'a>
        ensures { (stations : List StationState) → seen_outcome stations result ≡ begins_anew station state sent }
    {
        Outcome {
            state,
            sent,
            destination: Destination::Everyone(Notice::Gone(station)),
        }
    }
}

// What octets with a fault are answered with.
fn outcome_of_cause<'a>(
    alloc: Global,
    station: StationNumber,
    cause: Option<Cause>,
) -> Result<Outcome<'a>, AllocError>
    ensures { IfOk result (λ h. (stations : List StationState) → seen_outcome stations h ≡ answered (indicated station cause)) }
{
    match cause {
        Some(cause) => Ok(Outcome::answered(sent_to(alloc, station, indication(cause))?)),
        None => Ok(Outcome::answered(Answers::new(alloc))),
    }
}

/// A message that the state of the station doesn't take (TS 36.413 clause 10.4). Refused where memory is.
pub fn not_compatible<'a>(alloc: Global, station: StationNumber) -> Result<Outcome<'a>, AllocError>
    ensures { IfOk result (λ h. (stations : List StationState) → seen_outcome stations h ≡ not_compatible station) }
{
    let cause = Cause::Protocol(ProtocolCause::MessageNotCompatible);
    outcome_of_cause(alloc, station, Some(cause))
}

fn outcome_of_fault<'a>(
    alloc: Global,
    station: StationNumber,
    fault: S1apFault,
) -> Result<Outcome<'a>, AllocError>
    ensures rows { IfOk result
        (λ h. (stations : List StationState) → seen_outcome stations h ≡ answered (indicated station (cause_of fault))) }
    ensures other { OnOk result (fault ≢ faults.NoMemory) }
{
    match fault {
        S1apFault::NoMemory => Err(AllocError),
        _ => outcome_of_cause(alloc, station, cause_of(&fault)),
    }
}

// Whether some tracking area broadcasts the network.
fn broadcasts(plmn: Plmn, tas: &[SupportedTa]) -> bool
    ensures { result ≡ broadcasts plmn tas.now }
{
    tas.iter().any(|ta| is_broadcast(plmn, ta.plmns.as_slice()))
}

// A station that broadcasts the network is set up.
fn station_taken<'a>(
    alloc: Global,
    response: &Option<SentOctets>,
    station: StationNumber,
    supported_tas: SupportedTas,
) -> Result<Outcome<'a>, AllocError>
    ensures { IfOk result (λ h. (stations : List StationState) → seen_outcome stations h
        ≡ begins_anew station (Some (Ready supported_tas)) (answer_of station None response.now)) }
{
    let sent = sent_again(alloc, station, response)?;
    let ready = StationState::Ready(supported_tas);
    Ok(Outcome::begins_anew(station, Some(ready), sent))
}

fn station_turned_away<'a>(alloc: Global, station: StationNumber) -> Result<Outcome<'a>, AllocError>
    ensures { IfOk result (λ h. (stations : List StationState) → seen_outcome stations h
        ≡ begins_anew station (Some Up) (sent_to station setup_failure)) }
{
    let sent = sent_to(alloc, station, setup_failure())?;
    Ok(Outcome::begins_anew(station, Some(StationState::Up), sent))
}

fn station_set_up<'a>(
    alloc: Global,
    network: &Network,
    response: &Option<SentOctets>,
    station: StationNumber,
    supported_tas: SupportedTas,
) -> Result<Outcome<'a>, AllocError>
    requires { response.now ≡ encoded (setup_response network.now) }
    ensures { IfOk result
        (λ h. (stations : List StationState) → seen_outcome stations h ≡ station_set_up network.now station supported_tas) }
{
    if broadcasts(network.plmn, supported_tas.as_slice()) {
        station_taken(alloc, response, station, supported_tas)
    } else {
        station_turned_away(alloc, station)
    }
}

// The id of a stranger.
fn stranger_id(station: StationNumber, enb_ue_id: EnbUeId) -> AssociationId
    ensures { result ≡ stranger_id station enb_ue_id }
{
    AssociationId::of_stranger(station.get(), enb_ue_id.get() as u32)
}

fn enters<'a>(
    alloc: Global,
    network: &Network,
    provision: &Provision,
    station: StationNumber,
    state: &StationState,
    message: InitialUeMessage<&'a [u8]>,
) -> Result<Outcome<'a>, AllocError>
    ensures { IfOk result (λ h. (stations : List StationState) → seen_outcome stations h
        ≡ enters network.now provision.now.profiles station state.now (initial_ue_message_lists message.entry)) }
{
    match state {
        StationState::Down | StationState::Up => not_compatible(alloc, station),
        StationState::Ready(_) => {
            let entry = Entry {
                station,
                enb_ue_id: message.enb_ue_id,
                nas: message.nas,
                tai: message.tai,
            };
            match named_slot(network, provision, message.nas, message.s_tmsi) {
                Some(slot) => Ok(Outcome {
                    state: None,
                    sent: Answers::new(alloc),
                    destination: Destination::Subscriber(slot, SoloEvent::Initial(entry)),
                }),
                None => {
                    let id = stranger_id(station, message.enb_ue_id);
                    Ok(Outcome {
                        state: None,
                        sent: Answers::new(alloc),
                        destination: Destination::Beginner(id, entry),
                    })
                }
            }
        }
    }
}

// The same message.
fn again<'a>(message: &UeMessage<&'a [u8]>) -> UeMessage<&'a [u8]>
    ensures { message_lists result ≡ message_lists message.now }
{
    UeMessage {
        station: message.station,
        mme_ue_id: message.mme_ue_id,
        enb_ue_id: message.enb_ue_id,
        body: message.body.again(),
    }
}

fn message_by_id<'a>(
    alloc: Global,
    provision: &Provision,
    message: &UeMessage<&'a [u8]>,
) -> Result<Outcome<'a>, AllocError>
    ensures { IfOk result
        (λ h. (stations : List StationState) → seen_outcome stations h
        ≡ message_by_id provision.now.profiles (message_lists message.now)) }
{
    if !message.mme_ue_id.is_of_slot() {
        return Ok(Outcome {
            state: None,
            sent: Answers::new(alloc),
            destination: Destination::Stranger(again(message)),
        });
    }
    match provision.slot_of_association(message.mme_ue_id) {
        Some(slot) => Ok(Outcome {
            state: None,
            sent: Answers::new(alloc),
            destination: Destination::Subscriber(slot, SoloEvent::Message(again(message))),
        }),
        None => Ok(Outcome::answered(unknown(alloc, message)?)),
    }
}

fn phone_message<'a>(
    alloc: Global,
    provision: &Provision,
    state: &StationState,
    message: &UeMessage<&'a [u8]>,
) -> Result<Outcome<'a>, AllocError>
    ensures { IfOk result (λ h. (stations : List StationState) → seen_outcome stations h
        ≡ phone_message provision.now.profiles state.now (message_lists message.now)) }
{
    match state {
        StationState::Down | StationState::Up => not_compatible(alloc, message.station),
        StationState::Ready(_) => message_by_id(alloc, provision, message),
    }
}

// An id as it was received.
fn id_of(id: MmeUeId) -> AssociationId
    ensures { result ≡ id }
{
    AssociationId::new(id.get() as u32)
}

// The message with an MME UE id that a station sends, where this is one.
fn ue_message_in<'a>(station: StationNumber, message: &S1apPdu<'a>) -> Option<UeMessage<&'a [u8]>>
    ensures { option_map message_lists result ≡ ue_message_in station (lists message.now) }
{
    let (mme_ue_id, enb_ue_id, body) = match message {
        Pdu::UplinkNasTransport(m) => {
            let (nas, tai) = (m.nas, m.tai);
            (m.mme_ue_id, m.enb_ue_id, UeBody::Uplink { nas, tai })
        }
        Pdu::NasNonDeliveryIndication(m) => (m.mme_ue_id, m.enb_ue_id, UeBody::Notice),
        Pdu::UeCapabilityInfoIndication(m) => (m.mme_ue_id, m.enb_ue_id, UeBody::Notice),
        Pdu::InitialContextSetupResponse(m) => (m.mme_ue_id, m.enb_ue_id, UeBody::Notice),
        Pdu::InitialContextSetupFailure(m) => (
            m.mme_ue_id,
            m.enb_ue_id,
            UeBody::InitialContextSetupFailure,
        ),
        Pdu::UeContextReleaseRequest(m) => (
            m.mme_ue_id,
            m.enb_ue_id,
            UeBody::UeContextReleaseRequest { cause: m.cause },
        ),
        Pdu::UeContextReleaseComplete(m) => (
            m.mme_ue_id,
            m.enb_ue_id,
            UeBody::UeContextReleaseComplete,
        ),
        Pdu::PathSwitchRequest(m) => (m.source_mme_ue_id, m.enb_ue_id, UeBody::PathSwitch),
        _ => return None,
    };
    Some(UeMessage {
        station,
        mme_ue_id: id_of(mme_ue_id),
        enb_ue_id,
        body,
    })
}

fn phone_message_if<'a>(
    alloc: Global,
    provision: &Provision,
    station: StationNumber,
    state: &StationState,
    message: &S1apPdu<'a>,
) -> Result<Outcome<'a>, AllocError>
    ensures { IfOk result (λ h. (stations : List StationState) → seen_outcome stations h
        ≡ phone_message_if provision.now.profiles station state.now (ue_message_in station (lists message.now))) }
{
    match ue_message_in(station, message) {
        Some(message) => phone_message(alloc, provision, state, &message),
        None => not_compatible(alloc, station),
    }
}

fn outcome_of_message<'a>(
    alloc: Global,
    network: &Network,
    response: &Option<SentOctets>,
    provision: &Provision,
    station: StationNumber,
    state: &StationState,
    message: S1apPdu<'a>,
) -> Result<Outcome<'a>, AllocError>
    requires { response.now ≡ encoded (setup_response network.now) }
    ensures { IfOk result (λ h. (stations : List StationState) → seen_outcome stations h
        ≡ outcome_of_message network.now provision.now.profiles station state.now (lists message.entry)) }
{
    match message {
        Pdu::S1SetupRequest(m) => {
            station_set_up(alloc, network, response, station, m.supported_tas)
        }
        Pdu::Reset(m) => reset(alloc, station, state, m.reset_type),
        Pdu::ErrorIndication(_) | Pdu::ResetAcknowledge(_) => {
            Ok(Outcome::answered(Answers::new(alloc)))
        }
        Pdu::InitialUeMessage(m) => enters(alloc, network, provision, station, state, m),
        message => phone_message_if(alloc, provision, station, state, &message),
    }
}

/// The station's new state, what is sent for it, and where the event goes: as defined, by these and the station's state alone.
///
/// By the octets, the network and the provisioning; `response` is the network's S1 SETUP RESPONSE.
pub fn outcome_of<'a>(
    alloc: Global,
    network: &Network,
    response: &Option<SentOctets>,
    provision: &Provision,
    station: StationNumber,
    state: &StationState,
    octets: &'a [u8],
) -> Result<Outcome<'a>, AllocError>
    requires { response.now ≡ encoded (setup_response network.now) }
    ensures { IfOk result (λ h. (stations : List StationState) → seen_outcome stations h
        ≡ outcome_of network.now provision.now.profiles station state.now (decoded octets.entry.now)) }
{
    match decode(alloc, octets) {
        Ok(message) => {
            outcome_of_message(alloc, network, response, provision, station, state, message)
        }
        Err(fault) => outcome_of_fault(alloc, station, fault),
    }
}
