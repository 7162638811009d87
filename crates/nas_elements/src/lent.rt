//! What a function lends to a call.

/// A value that a function makes and lends to a call, as a message to be encoded. The prover ends a record of a function's own by
/// what its type says; for an enum that is lent by itself it would have to know the types of all variants there.
#[derive(Drop)]
pub struct Lent<T: Drop> {
    pub value: T,
}
