//! Bits in octets, the most significant first, and whole numbers of a range as bits: a reader and a writer of the aligned packed
//! encoding (X.691, 11/2008).
#![tactic(auto)]

mod fault;
mod reader;
mod whole;
mod writer;

pub use fault::{PerError, PerFault};
pub use reader::BitReader;
pub use whole::{Whole, offset_of, put_number, put_root};
pub use writer::BitWriter;
