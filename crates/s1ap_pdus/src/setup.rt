//! Messages by which stations come up.
#![tactic(auto, unfolding(crate::specs::Typed::encode_typed))]

ghost use Rattle.per_bits.specs.Reading.{GivesWhole};
ghost use Rattle.s1ap_pdus.specs.Pdus.{setup_request_lists, typed_setup_request, typed_setup_response, typed_setup_failure};
ghost use Rattle.s1ap_pdus.specs.Typed.{encode_typed, typed_of};
ghost use Rattle.s1ap_pdus.specs.declared.message_type.MessageType.TheVariants as message;

use crate::message_type::MessageType;
use crate::octets::octets_of;
use crate::pdu::{Encoded, S1SetupFailure, S1SetupRequest, S1SetupResponse};
use s1ap_elements::ids::{
    CAUSE, DEFAULT_PAGING_DRX, ENB_NAME, GLOBAL_ENB_ID, MME_NAME, RELATIVE_MME_CAPACITY,
    SERVED_GUMMEIS, SUPPORTED_TAS,
};
use s1ap_elements::{
    Cause, GlobalEnbId, IGNORE, Name, PagingDrx, REJECT, RelativeCapacity, ServedGummeis,
    SupportedTas, name_of_octets,
};
use s1ap_rows::{FourRows, Needed, OneRow, Optional, ThreeRows, Unkept};
use std::alloc::Global;

/// The rows of S1 SETUP REQUEST (TS 36.413 clause 9.1.8.4).
pub type S1SetupRequestRows<'a> = FourRows<
    Needed<GLOBAL_ENB_ID, REJECT, GlobalEnbId>,
    Optional<ENB_NAME, IGNORE, Name<'a>>,
    Needed<SUPPORTED_TAS, REJECT, SupportedTas>,
    Needed<DEFAULT_PAGING_DRX, IGNORE, PagingDrx>,
>;

/// The octets of S1 SETUP REQUEST (TS 36.413 clause 9.1.8.4).
pub fn write_setup_request(alloc: Global, m: &S1SetupRequest<&[u8]>) -> Encoded
    ensures { GivesWhole (λ v. v.items) result
        (encode_typed (typed_of message.S1SetupRequest (typed_setup_request (setup_request_lists m.now)))) }
{
    octets_of::<S1SetupRequestRows>(
        alloc,
        MessageType::S1SetupRequest,
        &lent!(
            &m.station,
            &name_of_octets(m.name),
            &m.supported_tas,
            &m.paging_drx
        ),
    )
}

/// The rows of S1 SETUP RESPONSE (TS 36.413 clause 9.1.8.5).
pub type S1SetupResponseRows<'a> = ThreeRows<
    Unkept<MME_NAME, IGNORE, Name<'a>>,
    Needed<SERVED_GUMMEIS, REJECT, ServedGummeis>,
    Needed<RELATIVE_MME_CAPACITY, IGNORE, RelativeCapacity>,
>;

/// The octets of S1 SETUP RESPONSE (TS 36.413 clause 9.1.8.5).
pub fn write_setup_response(alloc: Global, m: &S1SetupResponse) -> Encoded
    ensures { GivesWhole (λ v. v.items) result (encode_typed (typed_of message.S1SetupResponse (typed_setup_response m.now))) }
{
    octets_of::<S1SetupResponseRows>(
        alloc,
        MessageType::S1SetupResponse,
        &lent!(&m.served_gummeis, &m.capacity),
    )
}

/// The rows of S1 SETUP FAILURE (TS 36.413 clause 9.1.8.6).
pub type S1SetupFailureRows = OneRow<Needed<CAUSE, IGNORE, Cause>>;

/// The octets of S1 SETUP FAILURE (TS 36.413 clause 9.1.8.6).
pub fn write_setup_failure(alloc: Global, m: &S1SetupFailure) -> Encoded
    ensures { GivesWhole (λ v. v.items) result (encode_typed (typed_of message.S1SetupFailure (typed_setup_failure m.now))) }
{
    octets_of::<S1SetupFailureRows>(alloc, MessageType::S1SetupFailure, &lent!(&m.cause))
}
