//! Where a phone is connected, its security context, and its keys for the radio, read and written.

ghost use Rattle.std.specs.Prelude.{◌≡◌};
ghost use Rattle.per_streams.specs.Bits.{Gives};
ghost use Rattle.per_streams.specs.Writing.{Wrote};
ghost use Rattle.per_bits.specs.Reading.{read_at};
ghost use Rattle.per_bits.specs.Writing.{write_at};
ghost use Rattle.snapshot_formats.specs.Formats.{saved_connection, saved_context, saved_keys, saved_radio, saved_trail};
ghost use Rattle.snapshot_formats.specs.Contexts.{typed_saved_connection, typed_saved_context, typed_saved_keys, typed_saved_radio, typed_saved_trail};

use crate::context::{SavedConnection, SavedContext, SavedKeys, SavedRadio, SavedTrail};
use crate::key::LentKey;
use crate::parts::{read_three_parts, take_presence};
use per_bits::{
    BitReader, BitWriter, Element, PerError, PerFault, Whole, put_optional, read_optional,
    read_pair, take_choice, write_choice,
};
use s1ap_elements::SecurityKey;
use std::alloc::Global;

impl<'a> Element<'a> for SavedConnection {
    ghost format = { saved_connection };

    ghost view = { typed_saved_connection };

    fn read(alloc: Global, reader: &mut BitReader<'a>) -> Result<Self, PerError> {
        of_parts!(read_three_parts(alloc, reader), SavedConnection: id, station, enb_ue_id)
    }

    fn write(&self, alloc: Global, writer: &mut BitWriter) -> Result<(), PerError> {
        write_parts!(alloc, writer, self => id, station, enb_ue_id)
    }
}

impl<'a> Element<'a> for SavedKeys {
    ghost format = { saved_keys };

    ghost view = { typed_saved_keys };

    fn read(alloc: Global, reader: &mut BitReader<'a>) -> Result<Self, PerError> {
        let has_next_hop = take_presence(reader)?;
        let kenb = SecurityKey::read(alloc, reader)?;
        let next_hop = read_optional(alloc, has_next_hop, reader)?;
        let chaining_count = Whole::read(reader)?;
        Ok(SavedKeys {
            kenb,
            next_hop,
            chaining_count,
        })
    }

    fn write(&self, alloc: Global, writer: &mut BitWriter) -> Result<(), PerError> {
        writer.put_bit(self.next_hop.is_some())?;
        self.kenb.write(alloc, writer)?;
        put_optional(alloc, &self.next_hop, writer)?;
        self.chaining_count.write(alloc, writer)
    }
}

impl<'a> Element<'a> for SavedTrail {
    ghost format = { saved_trail };

    ghost view = { typed_saved_trail };

    #[tactic(auto, unfolding(per_streams::specs::Each::times))]
    fn read(alloc: Global, reader: &mut BitReader<'a>) -> Result<Self, PerError> {
        of_parts!(read_pair(alloc, reader), SavedTrail: count, moves)
    }

    fn write(&self, alloc: Global, writer: &mut BitWriter) -> Result<(), PerError> {
        write_parts!(alloc, writer, self => count, moves)
    }
}

impl<'a> Element<'a> for SavedRadio {
    ghost format = { saved_radio };

    ghost view = { typed_saved_radio };

    fn read(alloc: Global, reader: &mut BitReader<'a>) -> Result<Self, PerError> {
        match take_choice(1, reader)? {
            0 => read_choice!(SavedRadio::Verbatim, SavedKeys::read(alloc, reader)),
            1 => read_choice!(SavedRadio::Derived, SavedTrail::read(alloc, reader)),
            _ => Err(PerError::Fault(PerFault::Range)),
        }
    }

    fn write(&self, alloc: Global, writer: &mut BitWriter) -> Result<(), PerError> {
        match self {
            SavedRadio::Verbatim(keys) => write_choice(1, 0, keys, alloc, writer),
            SavedRadio::Derived(trail) => write_choice(1, 1, trail, alloc, writer),
        }
    }
}

impl<'a> Element<'a> for SavedContext<'a> {
    ghost format = { saved_context };

    ghost view = { typed_saved_context };

    fn read(alloc: Global, reader: &mut BitReader<'a>) -> Result<Self, PerError> {
        let has_up_last = take_presence(reader)?;
        let (place, down_next) = read_pair(alloc, reader)?;
        let up_last = read_optional(alloc, has_up_last, reader)?;
        let kasme = LentKey::read(alloc, reader)?;
        let radio = SavedRadio::read(alloc, reader)?;
        Ok(SavedContext {
            place,
            down_next,
            up_last,
            kasme,
            radio,
        })
    }

    fn write(&self, alloc: Global, writer: &mut BitWriter) -> Result<(), PerError> {
        writer.put_bit(self.up_last.is_some())?;
        self.place.write(alloc, writer)?;
        self.down_next.write(alloc, writer)?;
        put_optional(alloc, &self.up_last, writer)?;
        self.kasme.write(alloc, writer)?;
        self.radio.write(alloc, writer)
    }
}
