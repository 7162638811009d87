//! What a handle of the library for C holds: how far a trace has got, and the replies to its last event. Each call says what it
//! makes of a [`Session`], in the definitions of the MME; nothing here knows C.
#![tactic(auto)]

mod arguments;
mod line;
mod lines;
mod live;
mod refusal;
mod replies;
mod said;
mod session;
mod text;
mod ticks;

pub use lines::LinesFault;
pub use refusal::Refusal;
pub use replies::Replies;
pub use session::Session;
pub use text::Stop;
