//! The octets of a message, by its type.

ghost use Rattle.std.specs.Prelude.{◌≤◌};
ghost use Rattle.per_bits.specs.Reading.{GivesWhole};
ghost use Rattle.s1ap_rows.specs.Criticalities.{criticality_number};
ghost use Rattle.s1ap_rows.specs.Rows.{row_count};
ghost use Rattle.s1ap_rows.specs.Writing.{write_pdu};
ghost use Rattle.s1ap_pdus.specs.Profile.{kind_of, code_of, criticality_of};

use crate::message_type::MessageType;
use crate::pdu::Encoded;
use s1ap_rows::{Written, write_pdu};
use std::alloc::Global;

/// The octets of a message of this type that has these elements.
pub fn octets_of<'a, W: Written<'a>>(
    alloc: Global,
    message_type: MessageType,
    elements: &W::Lent,
) -> Encoded
    requires { row_count W.rows ≤ 65535 }
    ensures { GivesWhole (λ v. v.items) result
        (write_pdu (kind_of message_type) (code_of message_type) (criticality_number (criticality_of message_type)) W.rows
        (W.lent elements.now)) }
{
    write_pdu::<W>(
        alloc,
        message_type.kind(),
        message_type.code(),
        message_type.criticality(),
        elements,
    )
}
