//! What is to be done with what isn't understood.

ghost use Rattle.std.specs.Prelude.{◌≡◌};
ghost use Rattle.per_streams.specs.Bits.{Answers};
ghost use Rattle.per_streams.specs.Reading.{number_at};
ghost use Rattle.s1ap_rows.specs.Criticalities.{criticality_number, criticality_named};

use per_bits::{BitReader, LAST_CRITICALITY, PerFault, offset_of};

/// What is to be done with a procedure or an element that isn't understood (TS 36.413 clause 9.3.5).
#[derive(Clone, Copy, Debug, PartialEq, Eq)]
pub enum Criticality {
    /// 0: it is refused.
    Reject,
    /// 1: it is passed over.
    Ignore,
    /// 2: it is passed over, and its sender is notified.
    Notify,
}

impl Criticality {
    /// Its number in an encoding, 0 to 2.
    pub fn number(self) -> u8
        ensures { result ≡ criticality_number self }
    {
        match self {
            Criticality::Reject => 0,
            Criticality::Ignore => 1,
            Criticality::Notify => 2,
        }
    }

    /// The criticality of a number, 0 to 2.
    pub fn named(number: u8) -> Criticality
        ensures { result ≡ criticality_named number }
    {
        match number {
            0 => Criticality::Reject,
            1 => Criticality::Ignore,
            _ => Criticality::Notify,
        }
    }
}

/// Takes a criticality (TS 36.413 clause 9.3.7).
#[tactic(auto, unfolding(per_streams::specs::Reading::number_at))]
#[inline(always)]
pub fn take_criticality(reader: &mut BitReader) -> Result<Criticality, PerFault>
    ensures { Answers criticality_number result reader.new (number_at 0 2 reader.old) }
{
    let number = offset_of(LAST_CRITICALITY, reader)?;
    Ok(Criticality::named(number as u8))
}
