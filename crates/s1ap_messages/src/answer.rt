//! What reading answers.

use s1ap_pdus::{S1apFault, S1apPdu};

/// What reading a message's octets answers.
pub type Decoded<'a> = Result<S1apPdu<'a>, S1apFault>;
