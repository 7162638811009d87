//! Rows of S1AP messages (TS 36.413 clause 9.3.3): elements with an id and a criticality, in any order, and the frame around them.
#![tactic(auto)]

mod convert;
mod criticality;
mod engine;
mod fault;
mod frame;
mod message;
mod row;

pub use criticality::Criticality;
pub use fault::{EncodeFault, S1apFault};
pub use frame::{Frame, read_frame};
pub use message::{Message, Written, read_message, write_pdu};
pub use row::{
    End, FiveRows, FourRows, Needed, OneRow, Optional, Row, SixRows, ThreeRows, TwoRows, Unkept,
};
