//! What stations and MMEs say of themselves, read and written.

ghost use Rattle.std.specs.Prelude.{◌≡◌};
ghost use Rattle.per_streams.specs.Bits.{Gives};
ghost use Rattle.per_bits.specs.Reading.{read_at};
ghost use Rattle.per_bits.specs.Writing.{write_at};
ghost use Rattle.per_streams.specs.Writing.{Wrote};
ghost use Rattle.per_bits.specs.Names.{view_of_name, IsName};
ghost use Rattle.s1ap_elements.specs.Formats.{enb_id, global_enb_id, supported_ta, served_gummei, paging_drx};
ghost use Rattle.s1ap_elements.specs.Stations.{typed_enb_id, typed_global_enb_id, typed_supported_ta, typed_served_gummei, typed_paging_drx};

use crate::identity::{MmeCode, MmeGroup, Plmn, Tac};
use crate::station::{EnbId, GlobalEnbId, PagingDrx, ServedGummei, SupportedTa};
use per_bits::{
    BitField, BitReader, BitWriter, Element, Enumerated, Items, PerError, PerFault, put_flags,
    read_three, read_two, take_choice, take_name, write_choice,
};
use std::alloc::Global;

impl<'a> Element<'a> for EnbId {
    ghost format = { enb_id };

    ghost view = { typed_enb_id };

    fn read(alloc: Global, reader: &mut BitReader<'a>) -> Result<Self, PerError> {
        match take_choice(1, reader)? {
            0 => read_choice!(EnbId::Macro, BitField::read(alloc, reader)),
            1 => read_choice!(EnbId::Home, BitField::read(alloc, reader)),
            _ => Err(PerError::Fault(PerFault::Range)),
        }
    }

    fn write(&self, alloc: Global, writer: &mut BitWriter) -> Result<(), PerError> {
        match self {
            EnbId::Macro(number) => write_choice(1, 0, number, alloc, writer),
            EnbId::Home(number) => write_choice(1, 1, number, alloc, writer),
        }
    }
}

impl<'a> Element<'a> for GlobalEnbId {
    ghost format = { global_enb_id };

    ghost view = { typed_global_enb_id };

    fn read(alloc: Global, reader: &mut BitReader<'a>) -> Result<Self, PerError> {
        match read_two::<Plmn, EnbId>(alloc, reader) {
            Ok((plmn, id)) => Ok(GlobalEnbId { plmn, id }),
            Err(error) => Err(error),
        }
    }

    fn write(&self, alloc: Global, writer: &mut BitWriter) -> Result<(), PerError> {
        put_flags(writer)?;
        self.plmn.write(alloc, writer)?;
        self.id.write(alloc, writer)
    }
}

impl<'a> Element<'a> for SupportedTa {
    ghost format = { supported_ta };

    ghost view = { typed_supported_ta };

    fn read(alloc: Global, reader: &mut BitReader<'a>) -> Result<Self, PerError> {
        match read_two::<Tac, Items<Plmn, 1, 6>>(alloc, reader) {
            Ok((tac, plmns)) => Ok(SupportedTa { tac, plmns }),
            Err(error) => Err(error),
        }
    }

    fn write(&self, alloc: Global, writer: &mut BitWriter) -> Result<(), PerError> {
        put_flags(writer)?;
        self.tac.write(alloc, writer)?;
        self.plmns.write(alloc, writer)
    }
}

impl<'a> Element<'a> for ServedGummei {
    ghost format = { served_gummei };

    ghost view = { typed_served_gummei };

    fn read(alloc: Global, reader: &mut BitReader<'a>) -> Result<Self, PerError> {
        match read_three::<Items<Plmn, 1, 32>, Items<MmeGroup, 1, 65535>, Items<MmeCode, 1, 256>>(
            alloc, reader,
        ) {
            Ok((plmns, groups, codes)) => Ok(ServedGummei {
                plmns,
                groups,
                codes,
            }),
            Err(error) => Err(error),
        }
    }

    fn write(&self, alloc: Global, writer: &mut BitWriter) -> Result<(), PerError> {
        put_flags(writer)?;
        self.plmns.write(alloc, writer)?;
        self.groups.write(alloc, writer)?;
        self.codes.write(alloc, writer)
    }
}

fn paging_drx_of(name: Enumerated<3>) -> PagingDrx
    requires { IsName name }
    ensures { typed_paging_drx result ≡ view_of_name name }
{
    match name {
        Enumerated::Extended(number) => PagingDrx::Extended(number),
        Enumerated::Root(0) => PagingDrx::Frames32,
        Enumerated::Root(1) => PagingDrx::Frames64,
        Enumerated::Root(2) => PagingDrx::Frames128,
        Enumerated::Root(_) => PagingDrx::Frames256,
    }
}

fn name_of_paging_drx(cycle: PagingDrx) -> Enumerated<3>
    ensures { view_of_name result ≡ typed_paging_drx cycle }
{
    match cycle {
        PagingDrx::Frames32 => Enumerated::Root(0),
        PagingDrx::Frames64 => Enumerated::Root(1),
        PagingDrx::Frames128 => Enumerated::Root(2),
        PagingDrx::Frames256 => Enumerated::Root(3),
        PagingDrx::Extended(number) => Enumerated::Extended(number),
    }
}

impl<'a> Element<'a> for PagingDrx {
    ghost format = { paging_drx };

    ghost view = { typed_paging_drx };

    fn read(_alloc: Global, reader: &mut BitReader<'a>) -> Result<Self, PerError> {
        match take_name::<3>(reader) {
            Ok(name) => Ok(paging_drx_of(name)),
            Err(fault) => Err(PerError::Fault(fault)),
        }
    }

    fn write(&self, alloc: Global, writer: &mut BitWriter) -> Result<(), PerError> {
        name_of_paging_drx(*self).write(alloc, writer)
    }
}
