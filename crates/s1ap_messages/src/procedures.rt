//! The procedures of S1AP: which message a frame's kind and procedure code are.

ghost use Rattle.std.specs.Prelude.{◌≡◌, MatchResult, Some, None};
ghost use Rattle.s1ap_rows.specs.declared.fault.S1apFault.TheVariants.{UnknownProcedure};
ghost use Rattle.s1ap_pdus.specs.Profile.{initiating, successful, unsuccessful, type_of};

use s1ap_pdus::{MessageType, S1apFault};
use s1ap_rows::Criticality;

#[tactic(auto, unfolding(s1ap_pdus::specs::Profile::initiating))]
fn initiating(code: u8) -> Option<MessageType>
    ensures { result ≡ initiating code }
{
    match code {
        3 => Some(MessageType::PathSwitchRequest),
        9 => Some(MessageType::InitialContextSetupRequest),
        10 => Some(MessageType::Paging),
        11 => Some(MessageType::DownlinkNasTransport),
        12 => Some(MessageType::InitialUeMessage),
        13 => Some(MessageType::UplinkNasTransport),
        14 => Some(MessageType::Reset),
        15 => Some(MessageType::ErrorIndication),
        16 => Some(MessageType::NasNonDeliveryIndication),
        17 => Some(MessageType::S1SetupRequest),
        18 => Some(MessageType::UeContextReleaseRequest),
        22 => Some(MessageType::UeCapabilityInfoIndication),
        23 => Some(MessageType::UeContextReleaseCommand),
        _ => None,
    }
}

#[tactic(auto, unfolding(s1ap_pdus::specs::Profile::successful))]
fn successful(code: u8) -> Option<MessageType>
    ensures { result ≡ successful code }
{
    match code {
        3 => Some(MessageType::PathSwitchRequestAcknowledge),
        9 => Some(MessageType::InitialContextSetupResponse),
        14 => Some(MessageType::ResetAcknowledge),
        17 => Some(MessageType::S1SetupResponse),
        23 => Some(MessageType::UeContextReleaseComplete),
        _ => None,
    }
}

#[tactic(auto, unfolding(s1ap_pdus::specs::Profile::unsuccessful))]
fn unsuccessful(code: u8) -> Option<MessageType>
    ensures { result ≡ unsuccessful code }
{
    match code {
        3 => Some(MessageType::PathSwitchRequestFailure),
        9 => Some(MessageType::InitialContextSetupFailure),
        17 => Some(MessageType::S1SetupFailure),
        _ => None,
    }
}

// The message of a kind and a procedure's code.
#[tactic(auto, unfolding(s1ap_pdus::specs::Profile::type_of))]
fn type_of(kind: u8, code: u8) -> Option<MessageType>
    ensures { result ≡ type_of kind code }
{
    match kind {
        0 => initiating(code),
        1 => successful(code),
        _ => unsuccessful(code),
    }
}

/// The message of a frame's kind and code, else `UnknownProcedure` with the frame's criticality.
///
/// The kind is 0 for initiating, 1 for successful and 2 for unsuccessful (TS 36.413 clause 9.3.2).
pub(crate) fn message_type_of(
    kind: u8,
    code: u8,
    criticality: Criticality,
) -> Result<MessageType, S1apFault>
    ensures { MatchResult result (λ t. type_of kind code ≡ Some t)
        (λ fault. (type_of kind code ≡ None) × (fault ≡ UnknownProcedure criticality)) }
{
    match type_of(kind, code) {
        Some(message_type) => Ok(message_type),
        None => Err(S1apFault::UnknownProcedure(criticality)),
    }
}
