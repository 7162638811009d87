//! The library for C: each export calls what a handle holds, and says what it makes of it. `library/soizkadur.h` has each in
//! words, with what C has to uphold.
//!
//! C keeps an [`MmeHandle`], which is null or the pointer to a session, and passes its address.
#![tactic(auto)]

mod codecs;
mod events;
mod handle;
mod live;
mod loose;
mod numbers;
mod places;
mod provisioning;
mod replies;
mod snapshots;
mod texts;

pub use codecs::{
    MessageIds, NasForm, Release, soizkadur_eia2, soizkadur_kenb, soizkadur_nas,
    soizkadur_nas_integrity_key, soizkadur_nas_protected, soizkadur_next_hop, soizkadur_s1ap,
    soizkadur_version,
};
pub use events::{
    soizkadur_cancel, soizkadur_data, soizkadur_in, soizkadur_line, soizkadur_lost, soizkadur_tick,
    soizkadur_up,
};
pub use handle::{MmeHandle, Opaque};
pub use live::{soizkadur_add_live, soizkadur_give_live};
pub use provisioning::{
    LineFault, soizkadur_add, soizkadur_free, soizkadur_give, soizkadur_new,
    soizkadur_provision_new, soizkadur_start,
};
pub use replies::{
    Output, SubscriberStates, soizkadur_count, soizkadur_out, soizkadur_replies,
    soizkadur_slot_of_imsi, soizkadur_states,
};
pub use snapshots::{soizkadur_restore, soizkadur_save};
pub use texts::{TextPlayed, soizkadur_play};
