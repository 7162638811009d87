//! Connectivity requests that were taken, and what one is answered with.

/// The connectivity request that was taken (TS 24.301 clause 6.5.1).
#[derive(Clone, Copy, PartialEq, Eq, Debug)]
pub struct Request {
    /// Its procedure transaction identity.
    pub transaction: u8,
    /// Whether it asked for an IPv4 and an IPv6 address, PDN type IPv4v6.
    pub dual: bool,
    /// Whether it has the ESM information transfer flag.
    pub information: bool,
}

/// What becomes of a connectivity request. `B` is what holds octets: a `Vec` in the code, a list in contracts.
#[derive(Drop)]
pub enum Requested<B> {
    /// The octets are no connectivity request.
    Unreadable,
    /// It is refused by these octets.
    Refused(B),
    /// It is taken.
    Taken,
}
