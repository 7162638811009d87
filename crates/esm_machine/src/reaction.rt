//! Reactions to messages.

/// What an ESM message makes of the session. `B` is what holds octets: a `Vec` in the code, a list in contracts.
#[derive(Drop)]
pub enum Reaction<B> {
    Nothing,
    /// The ESM information that was asked for has come.
    Informed,
    /// These octets are sent.
    Answer(B),
}
