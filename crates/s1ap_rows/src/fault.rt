//! Why octets are no message, and why a message is not written.

use crate::criticality::Criticality;

/// Why octets are no message: the first fault from the left, a missing element last.
#[derive(Debug, Drop)]
pub enum S1apFault {
    /// 1: octets that spell nothing at some place.
    Syntax(per_bits::PerFault),
    /// 2: a procedure of no row, with its criticality.
    UnknownProcedure(Criticality),
    /// 3: the id of the first row whose element must stand and does not.
    MissingElement(u16),
    /// 4: the id of an element that stands a second time.
    RepeatedElement(u16),
    /// 5: the id of an element of no row that is marked reject.
    RefusedElement(u16),
    /// 6: a growth of memory was refused.
    NoMemory,
}

/// Why a message is not written.
#[derive(Debug, Drop)]
pub enum EncodeFault {
    /// A part has no spelling: an extended name, a number, a string or a list out of its range.
    NotWritable = 1,
    /// A growth of memory was refused.
    NoMemory = 2,
}
