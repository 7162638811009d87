//! A message with the subscriber's id (TS 36.413 clauses 8.3, 8.4.4 and 8.6).

ghost use Rattle.std.specs.Prelude.{◌≡◌};
ghost use Rattle.emm_machine.specs.Messages.{checked, message_of, on_connection};
ghost use Rattle.emm_state.specs.Does.{Does};
ghost use Rattle.emm_state.specs.Taking.{vectors_spent};
ghost use Rattle.identity_slots.specs.Spending.{HasFrom};
ghost use Rattle.mme_types.specs.Events.{message_lists};

use emm_network::{has_connection_id, has_pair, indicate, path_switch};
use emm_state::{Draft, Setting, StepStop, or_stop};
use emm_uplink::uplink;
use identity_slots::KeptVectors;
use mme_signalling::cause_of_request;
use mme_types::{UeBody, UeMessage};
use s1ap_elements::{Cause, RadioNetworkCause};
use std::alloc::Global;

#[tactic(auto, unfolding(crate::specs::Messages::on_connection))]
fn on_connection(
    draft: &mut Draft,
    alloc: Global,
    setting: &Setting,
    vectors: &KeptVectors,
    message: &UeMessage<&[u8]>,
) -> Result<(), StepStop>
    requires { HasFrom (vectors_spent draft.old.solo) setting.now.vectors vectors.now }
    ensures { Does result draft.new (on_connection (message_lists message.now).body setting.now draft.old) }
{
    match message.body {
        UeBody::Uplink { nas, tai } => uplink(draft, alloc, setting, vectors, tai, nas),
        UeBody::UeContextReleaseRequest { cause } => or_stop(draft.fall(
            alloc,
            cause_of_request(cause),
        )),
        UeBody::InitialContextSetupFailure => {
            let unspecified = Cause::RadioNetwork(RadioNetworkCause::Unspecified);
            or_stop(draft.fall(alloc, unspecified))
        }
        UeBody::UeContextReleaseComplete | UeBody::PathSwitch | UeBody::Notice => Ok(()),
    }
}

#[tactic(auto, unfolding(crate::specs::Messages::checked))]
fn checked(
    draft: &mut Draft,
    alloc: Global,
    setting: &Setting,
    vectors: &KeptVectors,
    message: &UeMessage<&[u8]>,
) -> Result<(), StepStop>
    requires { HasFrom (vectors_spent draft.old.solo) setting.now.vectors vectors.now }
    ensures { Does result draft.new (checked setting.now (message_lists message.now) draft.old) }
{
    if !has_connection_id(draft, message) {
        return or_stop(indicate(draft, alloc, RadioNetworkCause::UnknownMmeUeS1apId, message));
    }
    if has_pair(draft, message) {
        on_connection(draft, alloc, setting, vectors, message)
    } else {
        or_stop(indicate(
            draft,
            alloc,
            RadioNetworkCause::UnknownPairUeS1apId,
            message,
        ))
    }
}

/// A message with the subscriber's id.
#[tactic(auto, unfolding(crate::specs::Messages::message_of))]
pub(crate) fn message_of(
    draft: &mut Draft,
    alloc: Global,
    setting: &Setting,
    vectors: &KeptVectors,
    message: &UeMessage<&[u8]>,
) -> Result<(), StepStop>
    requires { HasFrom (vectors_spent draft.old.solo) setting.now.vectors vectors.now }
    ensures { Does result draft.new
        (message_of (message_lists message.now).body setting.now (message_lists message.now) draft.old) }
{
    match message.body {
        UeBody::UeContextReleaseComplete => Ok(()),
        UeBody::PathSwitch => or_stop(path_switch(draft, alloc, message)),
        UeBody::Uplink { nas: _, tai: _ }
        | UeBody::UeContextReleaseRequest { cause: _ }
        | UeBody::InitialContextSetupFailure
        | UeBody::Notice => checked(draft, alloc, setting, vectors, message),
    }
}
