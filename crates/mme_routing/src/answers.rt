//! What the MME sends to stations.

ghost use Rattle.std.specs.Prelude.{◌≡◌, ◌≤◌, ◌∷◌, [], IfOk, None, Ok, Err};
ghost use Rattle.s1ap_pdus.specs.Pdus.{encoded, lists};
ghost use Rattle.mme_types.specs.Answers.{answer_of};
ghost use Rattle.mme_routing.specs.Outcomes.{setup_response, setup_failure, indication, cause_of, cause_of_unknown};

use mme_types::{Answer, Answers, Network, SentOctets, StationNumber};
use per_bits::Items;
use s1ap_elements::{
    Cause, MiscCause, MmeCode, MmeGroup, Plmn, ProtocolCause, RelativeCapacity, ServedGummei,
};
use s1ap_pdus::{
    Criticality, ErrorIndication, Pdu, S1SetupFailure, S1SetupResponse, S1apFault, S1apPdu,
};
use std::alloc::{AllocError, Global};

// The greatest relative MME capacity (TS 36.413 clause 9.2.3.17).
const GREATEST_CAPACITY: u64 = 255;

// S1 SETUP RESPONSE with the one network, group and code (TS 36.413 clause 8.7.3.2).
fn response_of<'a>(alloc: Global, network: &Network) -> Result<S1apPdu<'a>, AllocError>
    ensures { IfOk result (λ m. lists m ≡ setup_response network.now) }
{
    let gummei = ServedGummei {
        plmns: Items::only(alloc, network.plmn)?,
        groups: Items::only(alloc, network.group)?,
        codes: Items::only(alloc, network.code)?,
    };
    let served_gummeis = Items::only(alloc, gummei)?;
    Ok(Pdu::S1SetupResponse(S1SetupResponse {
        served_gummeis,
        capacity: RelativeCapacity::new(GREATEST_CAPACITY),
    }))
}

/// The octets of S1 SETUP RESPONSE with the one network, group and code (TS 36.413 clause 8.7.3.2), if it has a written form. They
/// are the same for each station, so they are made once. Refused where memory is.
pub fn setup_response(alloc: Global, network: &Network) -> Result<Option<SentOctets>, AllocError>
    ensures { IfOk result (λ octets. octets ≡ encoded (setup_response network.now)) }
{
    let response = response_of(alloc, network)?;
    SentOctets::of_message(alloc, &response)
}

/// Octets that are kept, as they are sent to a station. Refused where memory is.
pub fn sent_again(
    alloc: Global,
    station: StationNumber,
    octets: &Option<SentOctets>,
) -> Result<Answers, AllocError>
    ensures { IfOk result (λ sent. sent ≡ answer_of station None octets.now) }
{
    let mut sent = Answers::new(alloc);
    if let Some(octets) = octets {
        let octets = octets.copy(alloc)?;
        sent.push(Answer {
            station,
            octets,
            under: None,
        })?;
    }
    Ok(sent)
}

/// S1 SETUP FAILURE (TS 36.413 clause 8.7.3.3).
pub fn setup_failure<'a>() -> S1apPdu<'a>
    ensures { lists result ≡ setup_failure }
{
    Pdu::S1SetupFailure(S1SetupFailure {
        cause: Cause::Misc(MiscCause::UnknownPlmn),
    })
}

/// ERROR INDICATION without ids (TS 36.413 clause 8.7.2).
pub fn indication<'a>(cause: Cause) -> S1apPdu<'a>
    ensures { lists result ≡ indication cause }
{
    Pdu::ErrorIndication(ErrorIndication {
        mme_ue_id: None,
        enb_ue_id: None,
        cause: Some(cause),
    })
}

/// The cause that octets with a fault are answered with, if any (TS 36.413 clause 10).
pub fn cause_of(fault: &S1apFault) -> Option<Cause>
    ensures { result ≡ cause_of fault.now }
{
    match fault {
        S1apFault::Syntax(_) => Some(Cause::Protocol(ProtocolCause::TransferSyntaxError)),
        S1apFault::UnknownProcedure(Criticality::Reject)
        | S1apFault::MissingElement(_)
        | S1apFault::RefusedElement(_) => {
            Some(Cause::Protocol(ProtocolCause::AbstractSyntaxErrorReject))
        }
        S1apFault::UnknownProcedure(Criticality::Notify) => Some(Cause::Protocol(
            ProtocolCause::AbstractSyntaxErrorIgnoreAndNotify,
        )),
        S1apFault::RepeatedElement(_) => Some(Cause::Protocol(
            ProtocolCause::FalselyConstructedMessage,
        )),
        S1apFault::UnknownProcedure(Criticality::Ignore) | S1apFault::NoMemory => None,
    }
}
