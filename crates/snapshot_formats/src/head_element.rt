//! What stands before the subscribers, read and written.

ghost use Rattle.std.specs.Prelude.{◌≡◌};
ghost use Rattle.per_streams.specs.Bits.{Gives};
ghost use Rattle.per_streams.specs.Writing.{Wrote};
ghost use Rattle.per_bits.specs.Reading.{read_at};
ghost use Rattle.per_bits.specs.Writing.{write_at};
ghost use Rattle.snapshot_formats.specs.Formats.{saved_head, saved_network, saved_station, saved_stranger, saved_stranger_state, saved_waiting};
ghost use Rattle.snapshot_formats.specs.Heads.{typed_saved_head, typed_saved_network, typed_saved_station, typed_saved_stranger, typed_saved_stranger_state, typed_saved_waiting};

use crate::head::{
    SavedHead, SavedNetwork, SavedStation, SavedStranger, SavedStrangerState, SavedWaiting,
};
use crate::parts::{read_four_parts, read_six_parts, read_three_parts};
use per_bits::{
    BitReader, BitWriter, Element, Items, PerError, PerFault, Whole, put_root, read_pair,
    take_choice, write_choice,
};
use std::alloc::Global;

impl<'a> Element<'a> for SavedNetwork<'a> {
    ghost format = { saved_network };

    ghost view = { typed_saved_network };

    fn read(alloc: Global, reader: &mut BitReader<'a>) -> Result<Self, PerError> {
        of_parts!(read_six_parts(alloc, reader), SavedNetwork: plmn, group, code, apn, down, up)
    }

    fn write(&self, alloc: Global, writer: &mut BitWriter) -> Result<(), PerError> {
        write_parts!(alloc, writer, self => plmn, group, code, apn, down, up)
    }
}

impl<'a> Element<'a> for SavedStation {
    ghost format = { saved_station };

    ghost view = { typed_saved_station };

    #[tactic(auto, unfolding(per_streams::specs::Each::times))]
    fn read(alloc: Global, reader: &mut BitReader<'a>) -> Result<Self, PerError> {
        match take_choice(2, reader)? {
            0 => Ok(SavedStation::Down),
            1 => Ok(SavedStation::Up),
            2 => read_choice!(SavedStation::Ready, Items::read(alloc, reader)),
            _ => Err(PerError::Fault(PerFault::Range)),
        }
    }

    fn write(&self, alloc: Global, writer: &mut BitWriter) -> Result<(), PerError> {
        match self {
            SavedStation::Down => put_root(2, 0, writer),
            SavedStation::Up => put_root(2, 1, writer),
            SavedStation::Ready(areas) => write_choice(2, 2, areas, alloc, writer),
        }
    }
}

impl<'a> Element<'a> for SavedHead<'a> {
    ghost format = { saved_head };

    ghost view = { typed_saved_head };

    fn read(alloc: Global, reader: &mut BitReader<'a>) -> Result<Self, PerError> {
        of_parts!(read_three_parts(alloc, reader), SavedHead: network, began, clock)
    }

    fn write(&self, alloc: Global, writer: &mut BitWriter) -> Result<(), PerError> {
        write_parts!(alloc, writer, self => network, began, clock)
    }
}

impl<'a> Element<'a> for SavedWaiting<'a> {
    ghost format = { saved_waiting };

    ghost view = { typed_saved_waiting };

    fn read(alloc: Global, reader: &mut BitReader<'a>) -> Result<Self, PerError> {
        of_parts!(read_four_parts(alloc, reader), SavedWaiting: nas, tai, left, repeats)
    }

    fn write(&self, alloc: Global, writer: &mut BitWriter) -> Result<(), PerError> {
        write_parts!(alloc, writer, self => nas, tai, left, repeats)
    }
}

impl<'a> Element<'a> for SavedStrangerState<'a> {
    ghost format = { saved_stranger_state };

    ghost view = { typed_saved_stranger_state };

    fn read(alloc: Global, reader: &mut BitReader<'a>) -> Result<Self, PerError> {
        match take_choice(1, reader)? {
            0 => read_choice!(
                SavedStrangerState::Waiting,
                SavedWaiting::read(alloc, reader)
            ),
            1 => Ok(SavedStrangerState::Held(Whole::read(reader)?)),
            _ => Err(PerError::Fault(PerFault::Range)),
        }
    }

    fn write(&self, alloc: Global, writer: &mut BitWriter) -> Result<(), PerError> {
        match self {
            SavedStrangerState::Waiting(waiting) => write_choice(1, 0, waiting, alloc, writer),
            SavedStrangerState::Held(slot) => write_choice(1, 1, slot, alloc, writer),
        }
    }
}

impl<'a> Element<'a> for SavedStranger<'a> {
    ghost format = { saved_stranger };

    ghost view = { typed_saved_stranger };

    #[tactic(auto, unfolding(per_streams::specs::Each::times))]
    fn read(alloc: Global, reader: &mut BitReader<'a>) -> Result<Self, PerError> {
        of_parts!(read_pair(alloc, reader), SavedStranger: id, state)
    }

    fn write(&self, alloc: Global, writer: &mut BitWriter) -> Result<(), PerError> {
        write_parts!(alloc, writer, self => id, state)
    }
}
