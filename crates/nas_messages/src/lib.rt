//! NAS messages (TS 24.301): octets to values that lend them, and back, as defined (`decoded_emm`, `decoded_esm`, `encoded_emm`,
//! `encoded_esm`); and the protected form, whose parts are parts of the octets. Decoding and splitting take no memory.
#![tactic(auto)]

mod emm_decoding;
mod emm_encoding;
mod emm_types;
mod esm_decoding;
mod esm_encoding;
mod esm_types;
mod laws;
mod protection;
mod simple;

// The octets that a message is given room for at once, so that it isn't moved while it is written; a longer one gets more then.
const USUAL_ROOM: usize = 64;

pub use emm_decoding::decode_emm;
pub use emm_encoding::encode_emm;
pub use emm_types::{
    AttachAccept, AttachReject, AttachRequest, AuthenticationRequest, DetachRequest, Direction,
    Emm, EmmMessage, EmmType, SecurityModeCommand, TrackingAreaUpdateAccept,
    TrackingAreaUpdateRequest,
};
pub use esm_decoding::decode_esm;
pub use esm_encoding::encode_esm;
pub use esm_types::{ActivateRequest, Esm, EsmBody, EsmMessage, EsmType};
pub use laws::{
    decoded_esm_is_spelled, decoded_is_spelled, encoded_esm_is_decoded, encoded_is_decoded,
    fault_is_named, fault_of_esm_is_named, one_esm_message, one_message, protected_is_split,
    spelled_esm_is_decoded, spelled_is_decoded, split_is_protected,
};
pub use nas_elements::{Lent, codes, timers};
pub use protection::{Protected, SecurityHeader, join_protected, split_protected};
