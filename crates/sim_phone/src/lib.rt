//! Simulated phones (TS 24.301): what a phone sends when it acts, and what it answers to the network's NAS messages.
//!
//! A [`Phone`] gives and takes NAS octets; where they go and by which station they came is no matter of its own. Two acts lie: they
//! send what no honest phone would. Under a security context a phone answers only what carries a right MAC and a fresh count.
#![tactic(auto)]

mod answering;
mod asking;
mod messages;
mod phone;
mod protecting;
mod registration;
mod side;

pub use answering::phone_answer;
pub use asking::{
    attach_saying, can_detach, can_request_service, can_request_update, detach_saying,
    service_saying, update_saying,
};
pub use messages::{foreign_guti, permanent, temporary};
pub use phone::{Phone, PhoneAct};
pub use protecting::{Saying, forged};
pub use registration::{PhoneContext, Registration};
pub use side::PhoneSide;
