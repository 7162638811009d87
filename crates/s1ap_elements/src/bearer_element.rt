//! What messages say of radio access bearers, read and written.

ghost use Rattle.std.specs.Prelude.{◌≡◌, ◌∷◌, [], option_map};
ghost use Rattle.per_streams.specs.Bits.{Gives};
ghost use Rattle.per_bits.specs.Formats.{octet_string};
ghost use Rattle.per_bits.specs.Reading.{read_at, fields_at, skipped_at, optional_at};
ghost use Rattle.per_bits.specs.Writing.{write_at, write_fields, write_optional};
ghost use Rattle.per_streams.specs.Writing.{Wrote};
ghost use Rattle.s1ap_elements.specs.Formats.{ambr, arp, gbr, qos, erab_ends, erab_to_be_setup, erab_tunnel};
ghost use Rattle.s1ap_elements.specs.Bearers.{typed_ambr, typed_arp, typed_gbr, typed_qos, erab_to_be_setup_lists, typed_erab_to_be_setup, typed_erab_tunnel};

use crate::bearer::{Ambr, Arp, ErabToBeSetup, ErabTunnel, Gbr, Qos};
use crate::identity::{Address, BitRate, ErabId, Teid};
use per_bits::{
    BitReader, BitWriter, Closed, Element, OctetString, PerError, Whole, put_flags, put_open,
    put_three_flags, read_pair, read_three, read_two, skip_additions, skip_extensions, skip_later,
    take_flags, take_three_flags,
};
use std::alloc::Global;

impl<'a> Element<'a> for Ambr {
    ghost format = { ambr };

    ghost view = { typed_ambr };

    fn read(alloc: Global, reader: &mut BitReader<'a>) -> Result<Self, PerError> {
        match read_two::<BitRate, BitRate>(alloc, reader) {
            Ok((down, up)) => Ok(Ambr { down, up }),
            Err(error) => Err(error),
        }
    }

    fn write(&self, alloc: Global, writer: &mut BitWriter) -> Result<(), PerError> {
        put_flags(writer)?;
        self.down.write(alloc, writer)?;
        self.up.write(alloc, writer)
    }
}

impl<'a> Element<'a> for Arp {
    ghost format = { arp };

    ghost view = { typed_arp };

    fn read(alloc: Global, reader: &mut BitReader<'a>) -> Result<Self, PerError> {
        match read_three::<Whole<0, 15>, Whole<0, 1>, Whole<0, 1>>(alloc, reader) {
            Ok((priority, capability, vulnerability)) => Ok(Arp {
                priority,
                capability,
                vulnerability,
            }),
            Err(error) => Err(error),
        }
    }

    fn write(&self, alloc: Global, writer: &mut BitWriter) -> Result<(), PerError> {
        put_flags(writer)?;
        self.priority.write(alloc, writer)?;
        self.capability.write(alloc, writer)?;
        self.vulnerability.write(alloc, writer)
    }
}

impl<'a> Element<'a> for Gbr {
    ghost format = { gbr };

    ghost view = { typed_gbr };

    fn read(alloc: Global, reader: &mut BitReader<'a>) -> Result<Self, PerError> {
        let (extended, more) = take_flags(reader)?;
        let (maximum_down, maximum_up) = read_pair::<BitRate, BitRate>(alloc, reader)?;
        let (down, up) = read_pair::<BitRate, BitRate>(alloc, reader)?;
        skip_later(extended, more, reader)?;
        Ok(Gbr {
            maximum_down,
            maximum_up,
            down,
            up,
        })
    }

    fn write(&self, alloc: Global, writer: &mut BitWriter) -> Result<(), PerError> {
        put_flags(writer)?;
        self.maximum_down.write(alloc, writer)?;
        self.maximum_up.write(alloc, writer)?;
        self.down.write(alloc, writer)?;
        self.up.write(alloc, writer)
    }
}

/// Reads past assured bit rates, where they stand.
fn skip_gbr(present: bool, alloc: Global, reader: &mut BitReader) -> Result<(), PerError>
    ensures { Gives (λ _. tt) result reader.new (skipped_at present (read_at gbr) reader.old) }
{
    if present {
        Gbr::read(alloc, reader)?;
        Ok(())
    } else {
        Ok(())
    }
}

impl<'a> Element<'a> for Qos {
    ghost format = { qos };

    ghost view = { typed_qos };

    fn read(alloc: Global, reader: &mut BitReader<'a>) -> Result<Self, PerError> {
        let (extended, assured, more) = take_three_flags(reader)?;
        let qci = Whole::<0, 255>::read(reader)?;
        let arp = Arp::read(alloc, reader)?;
        skip_gbr(assured, alloc, reader)?;
        skip_later(extended, more, reader)?;
        Ok(Qos { qci, arp })
    }

    fn write(&self, alloc: Global, writer: &mut BitWriter) -> Result<(), PerError> {
        put_three_flags(false, writer)?;
        self.qci.write(alloc, writer)?;
        self.arp.write(alloc, writer)
    }
}

/// Optional octets.
fn read_octets<'a>(
    present: bool,
    alloc: Global,
    reader: &mut BitReader<'a>,
) -> Result<Option<&'a [u8]>, PerError>
    ensures { Gives (λ o. option_map (λ s. s.now) o) result reader.new (optional_at present (read_at octet_string) reader.old) }
{
    if present {
        match OctetString::read(alloc, reader) {
            Ok(string) => Ok(Some(string.octets)),
            Err(error) => Err(error),
        }
    } else {
        Ok(None)
    }
}

/// What stands after the quality of service: where the tunnel ends, and optional octets.
fn read_erab_ends<'a>(
    nas: bool,
    more: bool,
    alloc: Global,
    reader: &mut BitReader<'a>,
) -> Result<(Address<'a>, Teid, Option<&'a [u8]>), PerError>
    ensures { Gives (λ e. (e.0, (e.1, (option_map (λ s. s.now) e.2, tt)))) result reader.new
        (fields_at erab_ends (nas ∷ more ∷ []) reader.old) }
{
    let (address, teid) = read_pair::<Closed<Address>, Teid>(alloc, reader)?;
    let nas = read_octets(nas, alloc, reader)?;
    skip_extensions(more, reader)?;
    Ok((address.value, teid, nas))
}

/// Writes what stands after the quality of service.
fn put_erab_ends(
    address: &Address,
    teid: Teid,
    nas: Option<&[u8]>,
    alloc: Global,
    writer: &mut BitWriter,
) -> Result<(), PerError>
    ensures { Wrote result writer.new
        (write_fields erab_ends (address.now, (teid, (option_map (λ s. s.now) nas.entry, tt))) writer.old) }
{
    writer.put_bit(false)?;
    address.write(alloc, writer)?;
    teid.write(alloc, writer)?;
    match nas {
        Some(nas) => put_open(nas, writer),
        None => Ok(()),
    }
}

impl<'a> Element<'a> for ErabToBeSetup<'a, &'a [u8]> {
    ghost format = { erab_to_be_setup };

    ghost view = { λ e. typed_erab_to_be_setup (erab_to_be_setup_lists e) };

    fn read(alloc: Global, reader: &mut BitReader<'a>) -> Result<Self, PerError> {
        let (extended, nas, more) = take_three_flags(reader)?;
        let id = Closed::<ErabId>::read(alloc, reader)?.value;
        let qos = Qos::read(alloc, reader)?;
        let (address, teid, nas) = read_erab_ends(nas, more, alloc, reader)?;
        skip_additions(extended, reader)?;
        Ok(ErabToBeSetup {
            id,
            qos,
            address,
            teid,
            nas,
        })
    }

    fn write(&self, alloc: Global, writer: &mut BitWriter) -> Result<(), PerError> {
        put_three_flags(self.nas.is_some(), writer)?;
        writer.put_bit(false)?;
        self.id.write(alloc, writer)?;
        self.qos.write(alloc, writer)?;
        put_erab_ends(&self.address, self.teid, self.nas, alloc, writer)
    }
}

impl<'a> Element<'a> for ErabTunnel<'a> {
    ghost format = { erab_tunnel };

    ghost view = { typed_erab_tunnel };

    fn read(alloc: Global, reader: &mut BitReader<'a>) -> Result<Self, PerError> {
        match read_three::<Closed<ErabId>, Closed<Address>, Teid>(alloc, reader) {
            Ok((id, address, teid)) => Ok(ErabTunnel {
                id: id.value,
                address: address.value,
                teid,
            }),
            Err(error) => Err(error),
        }
    }

    fn write(&self, alloc: Global, writer: &mut BitWriter) -> Result<(), PerError> {
        put_flags(writer)?;
        writer.put_bit(false)?;
        self.id.write(alloc, writer)?;
        writer.put_bit(false)?;
        self.address.write(alloc, writer)?;
        self.teid.write(alloc, writer)
    }
}
