//! What identifies phones, and what messages say of them, read and written.

ghost use Rattle.std.specs.Prelude.{◌≡◌};
ghost use Rattle.per_streams.specs.Bits.{Gives};
ghost use Rattle.per_bits.specs.Reading.{read_at};
ghost use Rattle.per_bits.specs.Writing.{write_at};
ghost use Rattle.per_streams.specs.Writing.{Wrote};
ghost use Rattle.per_bits.specs.Names.{view_of_name, IsName};
ghost use Rattle.s1ap_elements.specs.Formats.{tai, tai_item, eutran_cgi, s_tmsi, ue_paging_id, rrc_cause, cn_domain, ue_id_pair, ue_s1ap_ids, security_capabilities, security_context};
ghost use Rattle.s1ap_elements.specs.Phones.{typed_tai, typed_tai_item, typed_eutran_cgi, typed_s_tmsi, ue_paging_id_lists, typed_ue_paging_id, typed_rrc_cause, typed_cn_domain, typed_ue_id_pair, typed_ue_s1ap_ids, typed_security_capabilities, typed_security_context};

use crate::identity::{CellId, EnbUeId, MTmsi, MmeCode, MmeUeId, Plmn, SecurityKey, Tac};
use crate::phone::{
    CnDomain, EutranCgi, RrcCause, STmsi, SecurityCapabilities, SecurityContext, Tai, TaiItem,
    UeIdPair, UePagingId, UeS1apIds,
};
use per_bits::{
    BitField, BitReader, BitWriter, Closed, Element, Enumerated, PerError, PerFault, SizedString,
    Whole, offset_of, put_flags, put_number, read_two, skip_later, take_choice, take_flags,
    take_name, write_choice,
};
use std::alloc::Global;

impl<'a> Element<'a> for Tai {
    ghost format = { tai };

    ghost view = { typed_tai };

    // inlined, as it is an element of most messages
    #[inline(always)]
    fn read(alloc: Global, reader: &mut BitReader<'a>) -> Result<Self, PerError> {
        match read_two::<Plmn, Tac>(alloc, reader) {
            Ok((plmn, tac)) => Ok(Tai { plmn, tac }),
            Err(error) => Err(error),
        }
    }

    fn write(&self, alloc: Global, writer: &mut BitWriter) -> Result<(), PerError> {
        put_flags(writer)?;
        self.plmn.write(alloc, writer)?;
        self.tac.write(alloc, writer)
    }
}

impl<'a> Element<'a> for TaiItem {
    ghost format = { tai_item };

    ghost view = { typed_tai_item };

    fn read(alloc: Global, reader: &mut BitReader<'a>) -> Result<Self, PerError> {
        let (extended, more) = take_flags(reader)?;
        let tai = Tai::read(alloc, reader)?;
        skip_later(extended, more, reader)?;
        Ok(TaiItem { tai })
    }

    fn write(&self, alloc: Global, writer: &mut BitWriter) -> Result<(), PerError> {
        put_flags(writer)?;
        self.tai.write(alloc, writer)
    }
}

impl<'a> Element<'a> for EutranCgi {
    ghost format = { eutran_cgi };

    ghost view = { typed_eutran_cgi };

    fn read(alloc: Global, reader: &mut BitReader<'a>) -> Result<Self, PerError> {
        match read_two::<Plmn, CellId>(alloc, reader) {
            Ok((plmn, cell)) => Ok(EutranCgi { plmn, cell }),
            Err(error) => Err(error),
        }
    }

    fn write(&self, alloc: Global, writer: &mut BitWriter) -> Result<(), PerError> {
        put_flags(writer)?;
        self.plmn.write(alloc, writer)?;
        self.cell.write(alloc, writer)
    }
}

impl<'a> Element<'a> for STmsi {
    ghost format = { s_tmsi };

    ghost view = { typed_s_tmsi };

    fn read(alloc: Global, reader: &mut BitReader<'a>) -> Result<Self, PerError> {
        match read_two::<MmeCode, MTmsi>(alloc, reader) {
            Ok((code, m_tmsi)) => Ok(STmsi { code, m_tmsi }),
            Err(error) => Err(error),
        }
    }

    fn write(&self, alloc: Global, writer: &mut BitWriter) -> Result<(), PerError> {
        put_flags(writer)?;
        self.code.write(alloc, writer)?;
        self.m_tmsi.write(alloc, writer)
    }
}

impl<'a> Element<'a> for UeIdPair {
    ghost format = { ue_id_pair };

    ghost view = { typed_ue_id_pair };

    fn read(alloc: Global, reader: &mut BitReader<'a>) -> Result<Self, PerError> {
        match read_two::<MmeUeId, EnbUeId>(alloc, reader) {
            Ok((mme_ue_id, enb_ue_id)) => Ok(UeIdPair {
                mme_ue_id,
                enb_ue_id,
            }),
            Err(error) => Err(error),
        }
    }

    fn write(&self, alloc: Global, writer: &mut BitWriter) -> Result<(), PerError> {
        put_flags(writer)?;
        self.mme_ue_id.write(alloc, writer)?;
        self.enb_ue_id.write(alloc, writer)
    }
}

impl<'a> Element<'a> for SecurityCapabilities {
    ghost format = { security_capabilities };

    ghost view = { typed_security_capabilities };

    fn read(alloc: Global, reader: &mut BitReader<'a>) -> Result<Self, PerError> {
        match read_two::<Closed<BitField<16>>, Closed<BitField<16>>>(alloc, reader) {
            Ok((encryption, integrity)) => Ok(SecurityCapabilities {
                encryption: encryption.value,
                integrity: integrity.value,
            }),
            Err(error) => Err(error),
        }
    }

    fn write(&self, alloc: Global, writer: &mut BitWriter) -> Result<(), PerError> {
        put_flags(writer)?;
        writer.put_bit(false)?;
        self.encryption.write(alloc, writer)?;
        writer.put_bit(false)?;
        self.integrity.write(alloc, writer)
    }
}

impl<'a> Element<'a> for SecurityContext {
    ghost format = { security_context };

    ghost view = { typed_security_context };

    fn read(alloc: Global, reader: &mut BitReader<'a>) -> Result<Self, PerError> {
        match read_two::<Whole<0, 7>, SecurityKey>(alloc, reader) {
            Ok((chaining_count, next_hop)) => Ok(SecurityContext {
                chaining_count,
                next_hop,
            }),
            Err(error) => Err(error),
        }
    }

    fn write(&self, alloc: Global, writer: &mut BitWriter) -> Result<(), PerError> {
        put_flags(writer)?;
        self.chaining_count.write(alloc, writer)?;
        self.next_hop.write(alloc, writer)
    }
}

impl<'a> Element<'a> for UePagingId<&'a [u8]> {
    ghost format = { ue_paging_id };

    ghost view = { λ p. typed_ue_paging_id (ue_paging_id_lists p) };

    fn read(alloc: Global, reader: &mut BitReader<'a>) -> Result<Self, PerError> {
        match take_choice(1, reader)? {
            0 => read_choice!(UePagingId::STmsi, STmsi::read(alloc, reader)),
            1 => match SizedString::<3, 8>::read(alloc, reader) {
                Ok(digits) => Ok(UePagingId::Imsi(digits.octets)),
                Err(error) => Err(error),
            },
            _ => Err(PerError::Fault(PerFault::Range)),
        }
    }

    fn write(&self, alloc: Global, writer: &mut BitWriter) -> Result<(), PerError> {
        match self {
            UePagingId::STmsi(s_tmsi) => write_choice(1, 0, s_tmsi, alloc, writer),
            UePagingId::Imsi(digits) => {
                let digits = SizedString::<3, 8> { octets: digits };
                write_choice(1, 1, &digits, alloc, writer)
            },
        }
    }
}

impl<'a> Element<'a> for UeS1apIds {
    ghost format = { ue_s1ap_ids };

    ghost view = { typed_ue_s1ap_ids };

    fn read(alloc: Global, reader: &mut BitReader<'a>) -> Result<Self, PerError> {
        match take_choice(1, reader)? {
            0 => read_choice!(UeS1apIds::Pair, UeIdPair::read(alloc, reader)),
            1 => Ok(UeS1apIds::MmeUeId(MmeUeId::read(reader)?)),
            _ => Err(PerError::Fault(PerFault::Range)),
        }
    }

    fn write(&self, alloc: Global, writer: &mut BitWriter) -> Result<(), PerError> {
        match self {
            UeS1apIds::Pair(pair) => write_choice(1, 0, pair, alloc, writer),
            UeS1apIds::MmeUeId(mme_ue_id) => write_choice(1, 1, mme_ue_id, alloc, writer),
        }
    }
}

fn rrc_cause_of(name: Enumerated<4>) -> RrcCause
    requires { IsName name }
    ensures { typed_rrc_cause result ≡ view_of_name name }
{
    match name {
        Enumerated::Extended(number) => RrcCause::Extended(number),
        Enumerated::Root(0) => RrcCause::Emergency,
        Enumerated::Root(1) => RrcCause::HighPriorityAccess,
        Enumerated::Root(2) => RrcCause::MtAccess,
        Enumerated::Root(3) => RrcCause::MoSignalling,
        Enumerated::Root(_) => RrcCause::MoData,
    }
}

fn name_of_rrc_cause(cause: RrcCause) -> Enumerated<4>
    ensures { view_of_name result ≡ typed_rrc_cause cause }
{
    match cause {
        RrcCause::Emergency => Enumerated::Root(0),
        RrcCause::HighPriorityAccess => Enumerated::Root(1),
        RrcCause::MtAccess => Enumerated::Root(2),
        RrcCause::MoSignalling => Enumerated::Root(3),
        RrcCause::MoData => Enumerated::Root(4),
        RrcCause::Extended(number) => Enumerated::Extended(number),
    }
}

impl<'a> Element<'a> for RrcCause {
    ghost format = { rrc_cause };

    ghost view = { typed_rrc_cause };

    fn read(_alloc: Global, reader: &mut BitReader<'a>) -> Result<Self, PerError> {
        match take_name::<4>(reader) {
            Ok(name) => Ok(rrc_cause_of(name)),
            Err(fault) => Err(PerError::Fault(fault)),
        }
    }

    fn write(&self, alloc: Global, writer: &mut BitWriter) -> Result<(), PerError> {
        name_of_rrc_cause(*self).write(alloc, writer)
    }
}

impl<'a> Element<'a> for CnDomain {
    ghost format = { cn_domain };

    ghost view = { typed_cn_domain };

    #[tactic(auto, unfolding(per_streams::specs::Reading::number_at))]
    fn read(_alloc: Global, reader: &mut BitReader<'a>) -> Result<Self, PerError> {
        match offset_of(1, reader)? {
            0 => Ok(CnDomain::Ps),
            _ => Ok(CnDomain::Cs),
        }
    }

    fn write(&self, _alloc: Global, writer: &mut BitWriter) -> Result<(), PerError> {
        match self {
            CnDomain::Ps => put_number(0, 1, 0, writer),
            CnDomain::Cs => put_number(0, 1, 1, writer),
        }
    }
}
