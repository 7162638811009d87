//! How elements of the optional part are told apart.

/// Whose rules part the optional part: those of EPS mobility management, or of EPS session management.
#[derive(Clone, Copy, PartialEq, Eq)]
pub enum Domain {
    Emm,
    Esm,
}

/// How many octets follow an identifier.
#[derive(Clone, Copy, PartialEq, Eq)]
pub enum Rule {
    /// None: the octet itself is the element.
    Itself,
    /// As many as this, without a length.
    Fixed(usize),
    /// As many as one octet says.
    ByOctet,
    /// As many as two octets say.
    ByTwo,
}

/// An element: its identifier, and its octets after identifier and length. Where it is one octet, the identifier is
/// the high half, and the octet itself is kept.
#[derive(Clone, Copy)]
pub struct Element<B> {
    pub iei: u8,
    pub octets: B,
}
