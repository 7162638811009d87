//! What RESET resets, read and written.

ghost use Rattle.std.specs.Prelude.{◌≡◌, ◌∷◌, []};
ghost use Rattle.per_streams.specs.Bits.{Answers, Gives, bit_at};
ghost use Rattle.per_streams.specs.Each.{times};
ghost use Rattle.per_bits.specs.Reading.{read_at};
ghost use Rattle.per_bits.specs.Writing.{write_at};
ghost use Rattle.per_streams.specs.Writing.{Wrote};
ghost use Rattle.per_bits.specs.Names.{view_of_name, IsName};
ghost use Rattle.s1ap_elements.specs.Formats.{listed_association, reset_type};
ghost use Rattle.s1ap_elements.specs.Resets.{typed_reset_all, typed_listed_association, typed_reset_type};

use crate::identity::{EnbUeId, MmeUeId};
use crate::reset::{AssociationsToReset, ListedAssociation, ResetAll, ResetType};
use per_bits::{
    BitReader, BitWriter, Element, Enumerated, PerError, PerFault, put_optional, read_optional,
    skip_later, take_choice, take_name, take_three_flags, write_choice,
};
use std::alloc::Global;

// The presence bits of a SEQUENCE with two optional parts.
#[tactic(auto, unfolding(per_streams::specs::Each::times))]
fn take_four_flags(reader: &mut BitReader) -> Result<(bool, bool, bool, bool), PerFault>
    ensures { Answers (λ f. f.0 ∷ f.1 ∷ f.2 ∷ f.3 ∷ []) result reader.new (times bit_at 4 reader.old) }
{
    let extended = reader.take_bit()?;
    let (first, second, more) = take_three_flags(reader)?;
    Ok((extended, first, second, more))
}

impl<'a> Element<'a> for ListedAssociation {
    ghost format = { listed_association };

    ghost view = { typed_listed_association };

    fn read(alloc: Global, reader: &mut BitReader<'a>) -> Result<Self, PerError> {
        let (extended, has_mme_ue_id, has_enb_ue_id, more) = take_four_flags(reader)?;
        let mme_ue_id = read_optional::<MmeUeId>(alloc, has_mme_ue_id, reader)?;
        let enb_ue_id = read_optional::<EnbUeId>(alloc, has_enb_ue_id, reader)?;
        skip_later(extended, more, reader)?;
        Ok(ListedAssociation {
            mme_ue_id,
            enb_ue_id,
        })
    }

    fn write(&self, alloc: Global, writer: &mut BitWriter) -> Result<(), PerError> {
        writer.put_bit(false)?;
        writer.put_bit(self.mme_ue_id.is_some())?;
        writer.put_bit(self.enb_ue_id.is_some())?;
        writer.put_bit(false)?;
        put_optional(alloc, &self.mme_ue_id, writer)?;
        put_optional(alloc, &self.enb_ue_id, writer)
    }
}

fn reset_all_of(name: Enumerated<0>) -> ResetAll
    requires { IsName name }
    ensures { typed_reset_all result ≡ view_of_name name }
{
    match name {
        Enumerated::Extended(number) => ResetAll::Extended(number),
        Enumerated::Root(_) => ResetAll::ResetAll,
    }
}

fn name_of_reset_all(reset: ResetAll) -> Enumerated<0>
    ensures { view_of_name result ≡ typed_reset_all reset }
{
    match reset {
        ResetAll::ResetAll => Enumerated::Root(0),
        ResetAll::Extended(number) => Enumerated::Extended(number),
    }
}

impl<'a> Element<'a> for ResetType {
    ghost format = { reset_type };

    ghost view = { typed_reset_type };

    fn read(alloc: Global, reader: &mut BitReader<'a>) -> Result<Self, PerError> {
        match take_choice(1, reader)? {
            0 => match take_name::<0>(reader) {
                Ok(name) => Ok(ResetType::All(reset_all_of(name))),
                Err(fault) => Err(PerError::Fault(fault)),
            },
            1 => read_choice!(ResetType::Part, AssociationsToReset::read(alloc, reader)),
            _ => Err(PerError::Fault(PerFault::Range)),
        }
    }

    fn write(&self, alloc: Global, writer: &mut BitWriter) -> Result<(), PerError> {
        match self {
            ResetType::All(reset) => {
                write_choice(1, 0, &name_of_reset_all(*reset), alloc, writer)
            }
            ResetType::Part(associations) => write_choice(1, 1, associations, alloc, writer),
        }
    }
}
