//! The message that octets spell.

ghost use Rattle.std.specs.Prelude.{◌≡◌};
ghost use Rattle.s1ap_rows.specs.Answers.{Answers};
ghost use Rattle.s1ap_pdus.specs.Pdus.{lists, decoded};

use crate::procedures::message_type_of;
use crate::{context, interface, movement, setup, transport};
use s1ap_pdus::{MessageType, S1apFault, S1apPdu, named_again};
use s1ap_rows::read_frame;
use std::alloc::Global;

/// The message that `decoded` gives for the octets, one of the profile's 21, or exactly its fault (TS 36.413 clause 9.1).
///
/// The octets are lent to the message. The frame's faults come first, then an unknown procedure, then those of the elements from
/// the left, and a missing element last. NoMemory stands where a growth was refused. Criticalities are not compared.
// the messages are matched here, and not in a function of their own, which would copy a message once more
#[tactic(auto, using(s1ap_rows::specs::Criticalities::named_again, crate::proofs::Naming::answers_named), unfolding(s1ap_pdus::specs::Typed::decode_typed))]
pub fn decode<'a>(alloc: Global, octets: &'a [u8]) -> Result<S1apPdu<'a>, S1apFault>
    ensures { Answers lists result (decoded octets.now) }
{
    named_again();
    let frame = read_frame(octets)?;
    let content = frame.octets;
    match message_type_of(frame.kind, frame.code, frame.criticality)? {
        MessageType::S1SetupRequest => setup::read_setup_request(alloc, content),
        MessageType::S1SetupResponse => setup::read_setup_response(alloc, content),
        MessageType::S1SetupFailure => setup::read_setup_failure(alloc, content),
        MessageType::InitialUeMessage => transport::read_initial_ue_message(alloc, content),
        MessageType::DownlinkNasTransport => transport::read_downlink_nas_transport(alloc, content),
        MessageType::UplinkNasTransport => transport::read_uplink_nas_transport(alloc, content),
        MessageType::NasNonDeliveryIndication => transport::read_nas_non_delivery(alloc, content),
        MessageType::UeCapabilityInfoIndication => transport::read_capability_info(alloc, content),
        MessageType::InitialContextSetupRequest => context::read_context_setup_request(
            alloc, content,
        ),
        MessageType::InitialContextSetupResponse => context::read_context_setup_response(
            alloc, content,
        ),
        MessageType::InitialContextSetupFailure => context::read_context_setup_failure(
            alloc, content,
        ),
        MessageType::UeContextReleaseRequest => context::read_release_request(alloc, content),
        MessageType::UeContextReleaseCommand => context::read_release_command(alloc, content),
        MessageType::UeContextReleaseComplete => context::read_release_complete(alloc, content),
        MessageType::Paging => movement::read_paging(alloc, content),
        MessageType::PathSwitchRequest => movement::read_path_switch_request(alloc, content),
        MessageType::PathSwitchRequestAcknowledge => movement::read_path_switch_acknowledge(
            alloc, content,
        ),
        MessageType::PathSwitchRequestFailure => movement::read_path_switch_failure(alloc, content),
        MessageType::Reset => interface::read_reset(alloc, content),
        MessageType::ResetAcknowledge => interface::read_reset_acknowledge(alloc, content),
        MessageType::ErrorIndication => interface::read_error_indication(alloc, content),
    }
}
