//! How a bit string of a fixed length is kept in memory.

/// `N` bits: up to 64 as one number, the first of them the highest, and more than 64 one by one.
#[derive(Clone, Copy)]
pub(crate) enum Kept<const N: usize> {
    Number(u64),
    Each([bool; N]),
}
