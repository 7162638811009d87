//! Elements of a list, each with an id and a criticality of its own (TS 36.413 clause 9.3.7).

ghost use Rattle.std.specs.Prelude.{◌≡◌};
ghost use Rattle.per_streams.specs.Bits.{Gives};
ghost use Rattle.per_streams.specs.Each.{times};
ghost use Rattle.per_streams.specs.Writing.{Wrote};
ghost use Rattle.per_bits.specs.Reading.{read_at};
ghost use Rattle.per_bits.specs.Writing.{write_at};
ghost use Rattle.s1ap_elements.specs.Formats.{item};

use per_bits::{
    BitReader, BitWriter, Element, PerError, PerFault, put_element, read_complete, take_id,
    take_marked,
};
use std::alloc::Global;

/// The criticality of what is refused where it isn't understood (TS 36.413 clause 9.3.5), for rows and lists.
pub const REJECT: u8 = 0;

/// The criticality of what is passed over where it isn't understood (TS 36.413 clause 9.3.5), for rows and lists.
pub const IGNORE: u8 = 1;

/// An element of a list of elements of one id (TS 36.413 clause 9.3.7): any other id is Range at the id, the criticality is not
/// compared.
#[derive(Clone, Copy, Drop)]
pub struct Listed<T: Drop, const ID: u16, const CRITICALITY: u8> {
    pub value: T,
}

impl<'a, T: Element<'a>, const ID: u16, const CRITICALITY: u8> Element<'a>
    for Listed<T, ID, CRITICALITY> {
    ghost format = { item ID CRITICALITY T.format };

    ghost view = { λ c. (T.view c.value, tt) };

    #[tactic(auto, unfolding(per_streams::specs::Each::times))]
    fn read(alloc: Global, reader: &mut BitReader<'a>) -> Result<Self, PerError> {
        let id = take_id(reader)?;
        if id != ID {
            return Err(PerError::Fault(PerFault::Range));
        }
        let octets = take_marked(reader)?;
        let value = read_complete::<T>(alloc, octets)?;
        Ok(Listed { value })
    }

    fn write(&self, alloc: Global, writer: &mut BitWriter) -> Result<(), PerError> {
        put_element::<T>(alloc, ID, CRITICALITY, &self.value, writer)
    }
}
