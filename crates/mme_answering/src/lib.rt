//! What one event makes of the strangers and subscribers that it goes to, and what they send: worked out first, on copies, and then
//! settled.
//!
//! [`prepare`] says what is to become of them, with what they send after what is sent so far, and changes none of them; [`settle`]
//! makes it so. A tick that ends nobody's countdown needs neither: [`pass`].
#![tactic(auto)]

mod out;
mod passing;
mod prepared;
mod preparing;
mod sending;
mod settling;

pub use out::{Out, Outs, Owner};
pub use passing::pass;
pub use prepared::Prepared;
pub use preparing::prepare;
pub use sending::send_all;
pub use settling::settle;
