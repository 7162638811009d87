//! Named values, of which later versions may have more.

/// One of the names 0 to `LAST` of an extensible ENUMERATED, or one that was added later (X.691 clause 14).
#[derive(Clone, Copy, Debug)]
pub enum Enumerated<const LAST: u64> {
    /// A name of the root; above `LAST` it is not written.
    Root(u64),
    /// A name added later, 0 to 63: read, and not written.
    Extended(u64),
}
