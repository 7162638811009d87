//! The messages that are sent to a phone.

ghost use Rattle.std.specs.Prelude.{◌≡◌, ◌<◌, ◌≤◌, IfOk, length, ◌^◌};
ghost use Rattle.nas_messages.specs.EsmMessages.{BodyFits, IsWritableEsm, body_lists, encoded_esm, esm_lists, typed_body};
ghost use Rattle.esm_machine.specs.Sent.{connectivity_reject, disconnect_reject, status};

use crate::cause::EsmCause;
use nas_messages::{Esm, EsmBody, EsmMessage, codes, encode_esm};
use std::alloc::{AllocError, Global};

// The octets of a message. Encoding has one fault, that there is no memory.
fn encoded(alloc: Global, message: EsmMessage) -> Result<Vec<u8>, AllocError>
    requires { IsWritableEsm (esm_lists message) }
    ensures { IfOk result (λ octets. octets.items ≡ encoded_esm (esm_lists message.entry)) }
{
    encode_esm(alloc, &message).map_err(|_| AllocError)
}

/// The octets of a message.
pub fn written(
    alloc: Global,
    bearer: u8,
    transaction: u8,
    body: EsmBody<&[u8]>,
) -> Result<Vec<u8>, AllocError>
    requires bearer { bearer < 16 }
    requires fits { BodyFits (typed_body (body_lists body)) }
    ensures { IfOk result (λ octets. octets.items
        ≡ encoded_esm (record { bearer = bearer; transaction = transaction; body = body_lists body.entry })) }
{
    encoded(
        alloc,
        Esm {
            bearer,
            transaction,
            body,
        },
    )
}

/// PDN CONNECTIVITY REJECT.
#[tactic(auto, unfolding(crate::specs::Sent::connectivity_reject))]
pub fn connectivity_reject(
    alloc: Global,
    cause: EsmCause,
    transaction: u8,
) -> Result<Vec<u8>, AllocError>
    ensures ok { IfOk result (λ octets. octets.items ≡ connectivity_reject cause transaction) }
    ensures short { IfOk result (λ octets. length octets.items < 2 ^ 16) }
{
    let cause = cause.code();
    written(
        alloc,
        codes::NO_BEARER,
        transaction,
        EsmBody::ConnectivityReject { cause },
    )
}

/// PDN DISCONNECT REJECT.
#[tactic(auto, unfolding(crate::specs::Sent::disconnect_reject))]
pub fn disconnect_reject(alloc: Global, transaction: u8) -> Result<Vec<u8>, AllocError>
    ensures { IfOk result (λ octets. octets.items ≡ disconnect_reject transaction) }
{
    let cause = EsmCause::LastDisconnection.code();
    written(
        alloc,
        codes::NO_BEARER,
        transaction,
        EsmBody::DisconnectReject { cause },
    )
}

/// ESM STATUS.
#[tactic(auto, unfolding(crate::specs::Sent::status))]
pub fn status(
    alloc: Global,
    cause: EsmCause,
    bearer: u8,
    transaction: u8,
) -> Result<Vec<u8>, AllocError>
    requires { bearer < 16 }
    ensures { IfOk result (λ octets. octets.items ≡ status cause bearer transaction) }
{
    let cause = cause.code();
    written(alloc, bearer, transaction, EsmBody::EsmStatus { cause })
}
