//! Subscribers, read and written.

ghost use Rattle.std.specs.Prelude.{◌≡◌};
ghost use Rattle.per_streams.specs.Bits.{Gives};
ghost use Rattle.per_streams.specs.Writing.{Wrote};
ghost use Rattle.per_bits.specs.Reading.{read_at};
ghost use Rattle.per_bits.specs.Writing.{write_at};
ghost use Rattle.snapshot_formats.specs.Formats.{saved_asked, saved_bearer, saved_bearer_state, saved_countdown, saved_ids, saved_link, saved_nas, saved_repeat, saved_request, saved_state, saved_subscriber, saved_vector, saved_waits};
ghost use Rattle.snapshot_formats.specs.Subscribers.{typed_saved_asked, typed_saved_bearer, typed_saved_bearer_state, typed_saved_countdown, typed_saved_ids, typed_saved_link, typed_saved_nas, typed_saved_repeat, typed_saved_request, typed_saved_state, typed_saved_subscriber, typed_saved_vector, typed_saved_waits};

use crate::context::SavedContext;
use crate::parts::{read_four_parts, read_six_parts, read_three_parts, take_presence};
use crate::subscriber::{
    SavedAsked, SavedBearer, SavedBearerState, SavedCountdown, SavedIds, SavedLink, SavedNas,
    SavedRepeat, SavedRequest, SavedState, SavedSubscriber, SavedVector, SavedWaits,
};
use per_bits::{
    BitReader, BitWriter, Element, Items, OctetString, PerError, PerFault, Whole, offset_of,
    put_number, put_optional, read_optional, read_pair, take_choice, take_flags, take_three_flags,
    write_choice,
};
use std::alloc::Global;

impl<'a> Element<'a> for SavedLink<'a> {
    ghost format = { saved_link };

    ghost view = { typed_saved_link };

    fn read(alloc: Global, reader: &mut BitReader<'a>) -> Result<Self, PerError> {
        let (has_connection, has_context) = take_flags(reader)?;
        let phase = Whole::read(reader)?;
        let connection = read_optional(alloc, has_connection, reader)?;
        let context = if has_context {
            match SavedContext::read(alloc, reader) {
                Ok(context) => Some(context),
                Err(error) => return Err(error),
            }
        } else {
            None
        };
        Ok(SavedLink {
            phase,
            connection,
            context,
        })
    }

    fn write(&self, alloc: Global, writer: &mut BitWriter) -> Result<(), PerError> {
        writer.put_bit(self.connection.is_some())?;
        writer.put_bit(self.context.is_some())?;
        self.phase.write(alloc, writer)?;
        put_optional(alloc, &self.connection, writer)?;
        put_optional(alloc, &self.context, writer)
    }
}

impl<'a> Element<'a> for SavedIds {
    ghost format = { saved_ids };

    ghost view = { typed_saved_ids };

    fn read(alloc: Global, reader: &mut BitReader<'a>) -> Result<Self, PerError> {
        let has_tmsi = take_presence(reader)?;
        let (associations, tmsis) = read_pair(alloc, reader)?;
        let tmsi = read_optional(alloc, has_tmsi, reader)?;
        Ok(SavedIds {
            associations,
            tmsis,
            tmsi,
        })
    }

    fn write(&self, alloc: Global, writer: &mut BitWriter) -> Result<(), PerError> {
        writer.put_bit(self.tmsi.is_some())?;
        self.associations.write(alloc, writer)?;
        self.tmsis.write(alloc, writer)?;
        put_optional(alloc, &self.tmsi, writer)
    }
}

impl<'a> Element<'a> for SavedAsked<'a> {
    ghost format = { saved_asked };

    ghost view = { typed_saved_asked };

    fn read(alloc: Global, reader: &mut BitReader<'a>) -> Result<Self, PerError> {
        of_parts!(read_three_parts(alloc, reader), SavedAsked: capability, combined_attach, initial_update)
    }

    fn write(&self, alloc: Global, writer: &mut BitWriter) -> Result<(), PerError> {
        write_parts!(alloc, writer, self => capability, combined_attach, initial_update)
    }
}

impl<'a> Element<'a> for SavedBearerState {
    ghost format = { saved_bearer_state };

    ghost view = { typed_saved_bearer_state };

    #[tactic(auto, unfolding(per_streams::specs::Reading::number_at))]
    fn read(_alloc: Global, reader: &mut BitReader<'a>) -> Result<Self, PerError> {
        match offset_of(2, reader)? {
            0 => Ok(SavedBearerState::Inactive),
            1 => Ok(SavedBearerState::ActivePending),
            _ => Ok(SavedBearerState::Active),
        }
    }

    fn write(&self, _alloc: Global, writer: &mut BitWriter) -> Result<(), PerError> {
        match self {
            SavedBearerState::Inactive => put_number(0, 2, 0, writer),
            SavedBearerState::ActivePending => put_number(0, 2, 1, writer),
            SavedBearerState::Active => put_number(0, 2, 2, writer),
        }
    }
}

impl<'a> Element<'a> for SavedRequest {
    ghost format = { saved_request };

    ghost view = { typed_saved_request };

    fn read(alloc: Global, reader: &mut BitReader<'a>) -> Result<Self, PerError> {
        of_parts!(read_three_parts(alloc, reader), SavedRequest: transaction, dual, information)
    }

    fn write(&self, alloc: Global, writer: &mut BitWriter) -> Result<(), PerError> {
        write_parts!(alloc, writer, self => transaction, dual, information)
    }
}

impl<'a> Element<'a> for SavedBearer {
    ghost format = { saved_bearer };

    ghost view = { typed_saved_bearer };

    fn read(alloc: Global, reader: &mut BitReader<'a>) -> Result<Self, PerError> {
        let has_request = take_presence(reader)?;
        let state = SavedBearerState::read(alloc, reader)?;
        let request = read_optional(alloc, has_request, reader)?;
        Ok(SavedBearer { state, request })
    }

    fn write(&self, alloc: Global, writer: &mut BitWriter) -> Result<(), PerError> {
        writer.put_bit(self.request.is_some())?;
        self.state.write(alloc, writer)?;
        put_optional(alloc, &self.request, writer)
    }
}

impl<'a> Element<'a> for SavedNas<'a> {
    ghost format = { saved_nas };

    ghost view = { typed_saved_nas };

    fn read(alloc: Global, reader: &mut BitReader<'a>) -> Result<Self, PerError> {
        let has_header = take_presence(reader)?;
        let header = read_optional(alloc, has_header, reader)?;
        let nas = OctetString::read(alloc, reader)?;
        Ok(SavedNas { header, nas })
    }

    fn write(&self, alloc: Global, writer: &mut BitWriter) -> Result<(), PerError> {
        writer.put_bit(self.header.is_some())?;
        put_optional(alloc, &self.header, writer)?;
        self.nas.write(alloc, writer)
    }
}

impl<'a> Element<'a> for SavedRepeat<'a> {
    ghost format = { saved_repeat };

    ghost view = { typed_saved_repeat };

    fn read(alloc: Global, reader: &mut BitReader<'a>) -> Result<Self, PerError> {
        match take_choice(1, reader)? {
            0 => read_choice!(SavedRepeat::Nas, SavedNas::read(alloc, reader)),
            1 => read_choice!(SavedRepeat::Paging, Items::read(alloc, reader)),
            _ => Err(PerError::Fault(PerFault::Range)),
        }
    }

    fn write(&self, alloc: Global, writer: &mut BitWriter) -> Result<(), PerError> {
        match self {
            SavedRepeat::Nas(nas) => write_choice(1, 0, nas, alloc, writer),
            SavedRepeat::Paging(stations) => write_choice(1, 1, stations, alloc, writer),
        }
    }
}

impl<'a> Element<'a> for SavedCountdown {
    ghost format = { saved_countdown };

    ghost view = { typed_saved_countdown };

    fn read(alloc: Global, reader: &mut BitReader<'a>) -> Result<Self, PerError> {
        of_parts!(read_three_parts(alloc, reader), SavedCountdown: timer, left, repeats)
    }

    fn write(&self, alloc: Global, writer: &mut BitWriter) -> Result<(), PerError> {
        write_parts!(alloc, writer, self => timer, left, repeats)
    }
}

impl<'a> Element<'a> for SavedWaits<'a> {
    ghost format = { saved_waits };

    ghost view = { typed_saved_waits };

    fn read(alloc: Global, reader: &mut BitReader<'a>) -> Result<Self, PerError> {
        let (has_repeat, has_procedure, has_reachable) = take_three_flags(reader)?;
        let repeat = read_optional(alloc, has_repeat, reader)?;
        let procedure = read_optional(alloc, has_procedure, reader)?;
        let reachable = read_optional(alloc, has_reachable, reader)?;
        Ok(SavedWaits {
            repeat,
            procedure,
            reachable,
        })
    }

    fn write(&self, alloc: Global, writer: &mut BitWriter) -> Result<(), PerError> {
        writer.put_bit(self.repeat.is_some())?;
        writer.put_bit(self.procedure.is_some())?;
        writer.put_bit(self.reachable.is_some())?;
        put_optional(alloc, &self.repeat, writer)?;
        put_optional(alloc, &self.procedure, writer)?;
        put_optional(alloc, &self.reachable, writer)
    }
}

impl<'a> Element<'a> for SavedState<'a> {
    ghost format = { saved_state };

    ghost view = { typed_saved_state };

    fn read(alloc: Global, reader: &mut BitReader<'a>) -> Result<Self, PerError> {
        of_parts!(read_six_parts(alloc, reader), SavedState: link, ids, tai, asked, bearer, waits)
    }

    fn write(&self, alloc: Global, writer: &mut BitWriter) -> Result<(), PerError> {
        write_parts!(alloc, writer, self => link, ids, tai, asked, bearer, waits)
    }
}

impl<'a> Element<'a> for SavedVector<'a> {
    ghost format = { saved_vector };

    ghost view = { typed_saved_vector };

    fn read(alloc: Global, reader: &mut BitReader<'a>) -> Result<Self, PerError> {
        of_parts!(read_four_parts(alloc, reader), SavedVector: rand, autn, xres, kasme)
    }

    fn write(&self, alloc: Global, writer: &mut BitWriter) -> Result<(), PerError> {
        write_parts!(alloc, writer, self => rand, autn, xres, kasme)
    }
}

impl<'a> Element<'a> for SavedSubscriber<'a> {
    ghost format = { saved_subscriber };

    ghost view = { typed_saved_subscriber };

    #[tactic(auto, unfolding(per_streams::specs::Each::times))]
    fn read(alloc: Global, reader: &mut BitReader<'a>) -> Result<Self, PerError> {
        let (imsi, address) = read_pair(alloc, reader)?;
        let (gateway, teid) = read_pair(alloc, reader)?;
        let (spent, vectors) = read_pair(alloc, reader)?;
        match SavedState::read(alloc, reader) {
            Ok(state) => Ok(SavedSubscriber {
                imsi,
                address,
                gateway,
                teid,
                spent,
                vectors,
                state,
            }),
            Err(error) => Err(error),
        }
    }

    fn write(&self, alloc: Global, writer: &mut BitWriter) -> Result<(), PerError> {
        write_parts!(alloc, writer, self => imsi, address, gateway, teid, spent, vectors, state)
    }
}
