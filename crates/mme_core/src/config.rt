//! What an MME is given when it begins.

use mme_types::Network;

/// The MME's network, group and code, what it grants each phone, and the clock that it starts at.
#[derive(Drop)]
pub struct Config {
    pub network: Network,
    /// The clock, in ticks, at most 2^62.
    pub clock: u64,
}
