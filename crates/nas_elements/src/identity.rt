//! Who a phone is, and where it is.

ghost use Rattle.std.specs.Prelude.{◌≡◌, ◌++◌, IfErr, OnErr, OnOk, ok_or};
ghost use Rattle.nas_elements.specs.Identities.{guti_octets, guti_of, identity_octets, identity_of, plmn_from_s1ap, plmn_of, tai_list_octets, tai_list_of};

use crate::fault::NasFault;
use crate::imsi::Imsi;

/// A network, as NAS writes it: country digits 2 and 1, network digit 3 (or f) and country digit 3, network digits 2 and 1
/// (TS 24.301 clause 9.9.3.12).
#[derive(Clone, Copy, PartialEq, Eq, Debug)]
pub struct Plmn {
    pub octets: [u8; 3],
}

/// A list of one tracking area (TS 24.301 clause 9.9.3.33).
#[derive(Clone, Copy, PartialEq, Eq, Debug)]
pub struct TaiList {
    pub plmn: Plmn,
    /// The tracking area code.
    pub tac: [u8; 2],
}

/// A temporary identity that a network gave (TS 23.003 clause 2.8).
#[derive(Clone, Copy, PartialEq, Eq, Debug)]
pub struct Guti {
    pub plmn: Plmn,
    /// The MME group.
    pub group: [u8; 2],
    /// The MME code.
    pub code: u8,
    /// The M-TMSI.
    pub tmsi: u32,
}

/// An EPS mobile identity (TS 24.301 clause 9.9.3.12): an IMSI or a GUTI.
#[derive(Clone, Copy, PartialEq, Eq)]
pub enum MobileIdentity {
    Imsi(Imsi),
    Temporary(Guti),
}

impl Plmn {
    /// The NAS form of a network that S1AP writes (TS 36.413 clause 9.2.3.8): the same, but a network code of three digits
    /// stands as digit 1 and country digit 3, digits 3 and 2 there.
    pub fn from_s1ap(octets: [u8; 3]) -> Plmn
        ensures { result.octets ≡ plmn_from_s1ap octets }
    {
        let [first, second, third] = octets;
        if second / 16 == 15 {
            return Plmn { octets };
        }
        Plmn {
            octets: [
                first,
                third / 16 * 16 + second % 16,
                third % 16 * 16 + second / 16,
            ],
        }
    }

    /// The network that three octets are; the fault Mandatory for any other number of them.
    #[tactic(auto, unfolding(crate::specs::Identities::plmn_of))]
    pub fn read(octets: &[u8]) -> Result<Plmn, NasFault>
        ensures { result ≡ ok_or (plmn_of octets.now) NasFault.Mandatory }
    {
        let [first, second, third] = octets else {
            return Err(NasFault::Mandatory);
        };
        Ok(Plmn {
            octets: [*first, *second, *third],
        })
    }

    /// Appends its three octets; where that is refused, with the fault NoMemory, `out` is as before.
    pub fn write(&self, out: &mut Vec<u8>) -> Result<(), NasFault>
        ensures ok { OnOk result (out.new.items ≡ out.old.items ++ self.now.octets) }
        ensures err { OnErr result (out.new.items ≡ out.old.items) }
        ensures memory { IfErr result (λ fault. fault ≡ NasFault.NoMemory) }
    {
        Ok(out.extend_from_slice(&self.octets)?)
    }
}

impl TaiList {
    /// The list that these octets are: 00, a network and a code; else the fault Mandatory.
    pub fn read(octets: &[u8]) -> Result<TaiList, NasFault>
        ensures { result ≡ ok_or (tai_list_of octets.now) NasFault.Mandatory }
    {
        TaiList::of_octets(octets).ok_or(NasFault::Mandatory)
    }

    #[tactic(auto, unfolding(crate::specs::Identities::tai_list_of))]
    pub(crate) fn of_octets(octets: &[u8]) -> Option<TaiList>
        ensures { result ≡ tai_list_of octets.now }
    {
        if octets.len() != 6 {
            return None;
        }
        if octets[0] != 0 {
            return None;
        }
        Some(TaiList {
            plmn: Plmn {
                octets: [octets[1], octets[2], octets[3]],
            },
            tac: [octets[4], octets[5]],
        })
    }

    /// Its six octets.
    #[tactic(auto, unfolding(crate::specs::Identities::tai_list_octets))]
    pub fn octets(&self) -> [u8; 6]
        ensures { result ≡ tai_list_octets self.now }
    {
        let [a, b, c] = self.plmn.octets;
        let [d, e] = self.tac;
        [0, a, b, c, d, e]
    }

    /// Appends its six octets; where that is refused, with the fault NoMemory, `out` is as before.
    pub fn write(&self, out: &mut Vec<u8>) -> Result<(), NasFault>
        ensures ok { OnOk result (out.new.items ≡ out.old.items ++ tai_list_octets self.now) }
        ensures err { OnErr result (out.new.items ≡ out.old.items) }
        ensures memory { IfErr result (λ fault. fault ≡ NasFault.NoMemory) }
    {
        Ok(out.extend_from_slice(&self.octets())?)
    }
}

impl Guti {
    /// The GUTI that these octets are: exactly eleven, the first f6; else the fault Mandatory.
    pub fn read(octets: &[u8]) -> Result<Guti, NasFault>
        ensures { result ≡ ok_or (guti_of octets.now) NasFault.Mandatory }
    {
        Guti::of_octets(octets).ok_or(NasFault::Mandatory)
    }

    #[tactic(auto, unfolding(crate::specs::Identities::guti_of))]
    pub(crate) fn of_octets(octets: &[u8]) -> Option<Guti>
        ensures { result ≡ guti_of octets.now }
    {
        let [kind, a, b, c, d, e, f, g, h, i, j] = octets else {
            return None;
        };
        if *kind != 0xf6 {
            return None;
        }
        Some(Guti {
            plmn: Plmn {
                octets: [*a, *b, *c],
            },
            group: [*d, *e],
            code: *f,
            tmsi: u32::from_be_bytes([*g, *h, *i, *j]),
        })
    }

    /// Its eleven octets.
    #[tactic(auto, unfolding(crate::specs::Identities::guti_octets))]
    pub fn octets(&self) -> [u8; 11]
        ensures { result ≡ guti_octets self.now }
    {
        let [a, b, c] = self.plmn.octets;
        let [d, e] = self.group;
        let [f, g, h, i] = self.tmsi.to_be_bytes();
        [0xf6, a, b, c, d, e, self.code, f, g, h, i]
    }

    /// Appends its eleven octets; where that is refused, with the fault NoMemory, `out` is as before.
    pub fn write(&self, out: &mut Vec<u8>) -> Result<(), NasFault>
        ensures ok { OnOk result (out.new.items ≡ out.old.items ++ guti_octets self.now) }
        ensures err { OnErr result (out.new.items ≡ out.old.items) }
        ensures memory { IfErr result (λ fault. fault ≡ NasFault.NoMemory) }
    {
        Ok(out.extend_from_slice(&self.octets())?)
    }
}

impl MobileIdentity {
    /// The identity that these octets are, an IMSI or a GUTI; the fault Mandatory for any other.
    pub fn read(octets: &[u8]) -> Result<MobileIdentity, NasFault>
        ensures { result ≡ ok_or (identity_of octets.now) NasFault.Mandatory }
    {
        MobileIdentity::of_octets(octets).ok_or(NasFault::Mandatory)
    }

    #[tactic(auto, unfolding(crate::specs::Identities::identity_of))]
    pub(crate) fn of_octets(octets: &[u8]) -> Option<MobileIdentity>
        ensures { result ≡ identity_of octets.now }
    {
        if let Some(imsi) = Imsi::of_octets(octets) {
            return Some(MobileIdentity::Imsi(imsi));
        }
        if let Some(guti) = Guti::of_octets(octets) {
            return Some(MobileIdentity::Temporary(guti));
        }
        None
    }

    /// Appends its octets: eight of an IMSI, eleven of a GUTI; where that is refused, with the fault NoMemory, `out` is as before.
    pub fn write(&self, out: &mut Vec<u8>) -> Result<(), NasFault>
        ensures ok { OnOk result (out.new.items ≡ out.old.items ++ identity_octets self.now) }
        ensures err { OnErr result (out.new.items ≡ out.old.items) }
        ensures memory { IfErr result (λ fault. fault ≡ NasFault.NoMemory) }
    {
        match self {
            MobileIdentity::Imsi(imsi) => imsi.write(out),
            MobileIdentity::Temporary(guti) => guti.write(out),
        }
    }
}
