//! Numbers and octets that name networks, areas, stations and phones.

use per_bits::{BitField, BitString, Octets, Whole};

/// A network: three octets of packed digits (TS 36.413 clause 9.2.3.8).
pub type Plmn = Octets<3>;

/// A tracking area of a network (TS 36.413 clause 9.2.3.7).
pub type Tac = Octets<2>;

/// A group of MMEs of a network (TS 36.413 clause 9.2.3.9).
pub type MmeGroup = Octets<2>;

/// An MME of its group (TS 36.413 clause 9.2.3.12).
pub type MmeCode = Octets<1>;

/// How much of the phones an MME takes, as against others of its group (TS 36.413 clause 9.2.3.17).
pub type RelativeCapacity = Whole<0, 255>;

/// The MME's id of an association, the MME UE S1AP ID (TS 36.413 clause 9.2.3.3).
pub type MmeUeId = Whole<0, 4294967295>;

/// The station's id of an association, the eNB UE S1AP ID (TS 36.413 clause 9.2.3.4).
pub type EnbUeId = Whole<0, 16777215>;

/// A phone for its MME, for a time (TS 36.413 clause 9.2.3.6, TS 23.003 clause 2.4).
pub type MTmsi = Octets<4>;

/// An end of a tunnel (TS 36.413 clause 9.2.2.2).
pub type Teid = Octets<4>;

/// A cell of a network (TS 36.413 clause 9.2.1.38).
pub type CellId = BitField<28>;

/// A radio access bearer of a phone (TS 36.413 clause 9.2.1.2).
pub type ErabId = Whole<0, 15>;

/// Bits in a second (TS 36.413 clause 9.2.1.19).
pub type BitRate = Whole<0, 10000000000>;

/// When a phone listens for paging: its IMSI modulo 1024 (TS 36.413 clause 9.2.3.10).
pub type UeIndex = BitField<10>;

/// A key, 256 bits (TS 36.413 clauses 9.2.1.41 and 9.2.1.26).
pub type SecurityKey = Octets<32>;

/// A transport address of 1 to 160 bits, lent by the message (TS 36.413 clause 9.2.2.1).
pub type Address<'a> = BitString<'a, 1, 160>;
