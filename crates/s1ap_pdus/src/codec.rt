//! Messages and octets.

ghost use Rattle.std.specs.Prelude.{◌≡◌, ◌≤◌, length, IfOk};
ghost use Rattle.per_bits.specs.Reading.{GivesWhole};
ghost use Rattle.s1ap_rows.specs.Answers.{Encodes};
ghost use Rattle.s1ap_pdus.specs.Pdus.{lists, typed, encoded, longest};
ghost use Rattle.s1ap_pdus.specs.Profile.{kind_of, code_of, criticality_of};
ghost use Rattle.s1ap_pdus.specs.Typed.{encode_typed};

use crate::message_type::MessageType;
use crate::pdu::{Encoded, Pdu, S1apPdu};
use crate::{context, interface, movement, setup, transport};
use per_bits::PerError;
use s1ap_rows::{Criticality, EncodeFault};
use std::alloc::Global;

fn message_octets(alloc: Global, message: &S1apPdu) -> Encoded
    ensures { GivesWhole (λ v. v.items) result (encode_typed (typed (lists message.now))) }
{
    match message {
        Pdu::S1SetupRequest(m) => setup::write_setup_request(alloc, m),
        Pdu::S1SetupResponse(m) => setup::write_setup_response(alloc, m),
        Pdu::S1SetupFailure(m) => setup::write_setup_failure(alloc, m),
        Pdu::InitialUeMessage(m) => transport::write_initial_ue_message(alloc, m),
        Pdu::DownlinkNasTransport(m) => transport::write_downlink_nas_transport(alloc, m),
        Pdu::UplinkNasTransport(m) => transport::write_uplink_nas_transport(alloc, m),
        Pdu::NasNonDeliveryIndication(m) => transport::write_nas_non_delivery(alloc, m),
        Pdu::UeCapabilityInfoIndication(m) => transport::write_capability_info(alloc, m),
        Pdu::InitialContextSetupRequest(m) => context::write_context_setup_request(alloc, m),
        Pdu::InitialContextSetupResponse(m) => context::write_context_setup_response(alloc, m),
        Pdu::InitialContextSetupFailure(m) => context::write_context_setup_failure(alloc, m),
        Pdu::UeContextReleaseRequest(m) => context::write_release_request(alloc, m),
        Pdu::UeContextReleaseCommand(m) => context::write_release_command(alloc, m),
        Pdu::UeContextReleaseComplete(m) => context::write_release_complete(alloc, m),
        Pdu::Paging(m) => movement::write_paging(alloc, m),
        Pdu::PathSwitchRequest(m) => movement::write_path_switch_request(alloc, m),
        Pdu::PathSwitchRequestAcknowledge(m) => movement::write_path_switch_acknowledge(alloc, m),
        Pdu::PathSwitchRequestFailure(m) => movement::write_path_switch_failure(alloc, m),
        Pdu::Reset(m) => interface::write_reset(alloc, m),
        Pdu::ResetAcknowledge(m) => interface::write_reset_acknowledge(alloc, m),
        Pdu::ErrorIndication(m) => interface::write_error_indication(alloc, m),
    }
}

impl MessageType {
    /// 0 where it begins a procedure, 1 for a successful and 2 for an unsuccessful outcome.
    pub fn kind(self) -> u8
        ensures { result ≡ kind_of self }
    {
        match self {
            MessageType::S1SetupResponse
            | MessageType::InitialContextSetupResponse
            | MessageType::UeContextReleaseComplete
            | MessageType::PathSwitchRequestAcknowledge
            | MessageType::ResetAcknowledge => 1,
            MessageType::S1SetupFailure
            | MessageType::InitialContextSetupFailure
            | MessageType::PathSwitchRequestFailure => 2,
            _ => 0,
        }
    }

    /// The code of its procedure (TS 36.413 clause 9.3.6).
    pub fn code(self) -> u8
        ensures { result ≡ code_of self }
    {
        match self {
            MessageType::S1SetupRequest => 17,
            MessageType::S1SetupResponse => 17,
            MessageType::S1SetupFailure => 17,
            MessageType::InitialUeMessage => 12,
            MessageType::DownlinkNasTransport => 11,
            MessageType::UplinkNasTransport => 13,
            MessageType::NasNonDeliveryIndication => 16,
            MessageType::UeCapabilityInfoIndication => 22,
            MessageType::InitialContextSetupRequest => 9,
            MessageType::InitialContextSetupResponse => 9,
            MessageType::InitialContextSetupFailure => 9,
            MessageType::UeContextReleaseRequest => 18,
            MessageType::UeContextReleaseCommand => 23,
            MessageType::UeContextReleaseComplete => 23,
            MessageType::Paging => 10,
            MessageType::PathSwitchRequest => 3,
            MessageType::PathSwitchRequestAcknowledge => 3,
            MessageType::PathSwitchRequestFailure => 3,
            MessageType::Reset => 14,
            MessageType::ResetAcknowledge => 14,
            MessageType::ErrorIndication => 15,
        }
    }

    /// The criticality of its procedure, Reject or Ignore (TS 36.413 clause 9.3.3).
    pub fn criticality(self) -> Criticality
        ensures { result ≡ criticality_of self }
    {
        match self {
            MessageType::InitialUeMessage
            | MessageType::DownlinkNasTransport
            | MessageType::UplinkNasTransport
            | MessageType::NasNonDeliveryIndication
            | MessageType::UeCapabilityInfoIndication
            | MessageType::UeContextReleaseRequest
            | MessageType::Paging
            | MessageType::ErrorIndication => Criticality::Ignore,
            _ => Criticality::Reject,
        }
    }
}

/// The octets that `encoded` gives for a message, at most 16,388; `NotWritable` exactly where it gives none.
///
/// Rows stand in their order, with the criticalities of the standard's table. NotWritable is a message of which a part has no
/// spelling: an extended name, or a number, a string or a list out of its range. NoMemory where a growth was refused.
#[tactic(auto, unfolding(crate::specs::Pdus::encoded))]
pub fn encode(alloc: Global, message: &S1apPdu) -> Result<Vec<u8>, EncodeFault>
    ensures octets { Encodes (λ v. v.items) result (encoded (lists message.now)) }
    ensures short { IfOk result (λ v. length v.items ≤ longest) }
{
    match message_octets(alloc, message) {
        Ok(octets) => Ok(octets),
        Err(PerError::NoMemory) => Err(EncodeFault::NoMemory),
        Err(PerError::Fault(_)) => Err(EncodeFault::NotWritable),
    }
}
