//! The UE security capability (TS 24.301 clause 9.9.3.34).

ghost use Rattle.std.specs.Prelude.{◌≡◌, ◌≤◌, ◌++◌, length, slice_index, IfErr, OnErr, OnOk, ok_or};
ghost use Rattle.nas_elements.specs.Capability.{capability_of, has_eia2, replayed};

use crate::fault::NasFault;
use std::marker::Model;

/// The algorithms that a phone knows: from 2 to 13 octets. Contracts see the list of them.
#[derive(Clone, Copy, PartialEq, Eq)]
pub struct UeCapability {
    octets: [u8; 13],
    count: usize,
}

impl Model for UeCapability {
    ghost use Rattle.std.specs.Prelude.{◌≡◌, ◌≤◌, ◌-◌, ◌++◌, ℕ, List, length, replicate, take, drop};
    ghost use Rattle.std.proofs.Common.{◌∙◌, ap, sym, arith, take-append-drop, length-take-le};

    ghost Value = { List ℕ };

    ghost view = { λ c. take c.count c.octets };

    ghost invariant = { λ c. (2 ≤ c.count) × (c.count ≤ 13) × (length c.octets ≡ 13)
        × (drop c.count c.octets ≡ replicate (13 - c.count) 0) };

    ghost inverse = { λ os. record { octets = os ++ replicate (13 - length os) 0; count = length os } };

    ghost inverse_ok = { λ c h i. record {
      octets = (ap (λ (n : ℕ). take c.count c.octets ++ replicate (13 - n) 0)
          (length-take-le c.count c.octets (omega (arith, h.1, h.2)))
          ∙ ap (λ (xs : List ℕ). take c.count c.octets ++ xs) (sym h.3) ∙ take-append-drop c.count c.octets) i;
      count = length-take-le c.count c.octets (omega (arith, h.1, h.2)) i;
    } };
}

impl UeCapability {
    /// The capability that these octets are, from 2 to 13 of them.
    pub fn new(octets: &[u8]) -> UeCapability
        requires low { 2 ≤ length octets.now }
        requires high { length octets.now ≤ 13 }
        ensures { result ≡ octets.now }
    {
        let count = octets.len();
        let mut all = [0; 13];
        all[..count].copy_from_slice(octets);
        UeCapability { octets: all, count }
    }

    /// The capability that these octets are; the fault Mandatory below 2 and above 13 octets.
    #[tactic(auto, unfolding(crate::specs::Capability::capability_of))]
    pub fn read(octets: &[u8]) -> Result<UeCapability, NasFault>
        ensures { result ≡ ok_or (capability_of octets.now) NasFault.Mandatory }
    {
        let count = octets.len();
        if count < 2 {
            return Err(NasFault::Mandatory);
        }
        if count > 13 {
            return Err(NasFault::Mandatory);
        }
        Ok(UeCapability::new(octets))
    }

    /// Its octets.
    pub fn as_slice(&self) -> &[u8]
        ensures { result.now ≡ self.now }
    {
        &self.octets[..self.count]
    }

    /// The octet of the EPS encryption algorithms: EEA0 in bit 8, EEA1 in bit 7 and so on.
    pub fn encryption(&self) -> u8
        ensures { result ≡ slice_index self.now 0 }
    {
        self.octets[0]
    }

    /// The octet of the EPS integrity algorithms: EIA0 in bit 8, EIA1 in bit 7 and so on.
    pub fn integrity(&self) -> u8
        ensures { result ≡ slice_index self.now 1 }
    {
        self.octets[1]
    }

    /// Whether the phone knows the integrity algorithm EIA2.
    pub fn has_eia2(&self) -> bool
        ensures { result ≡ has_eia2 self.now }
    {
        self.integrity() / 32 % 2 == 1
    }

    /// What SECURITY MODE COMMAND replays of it: 2 octets, or 4 where it has at least 4, the last with its bit 8 zero
    /// (TS 24.301 clause 8.2.20).
    #[tactic(auto, unfolding(crate::specs::Capability::replayed))]
    pub fn replayed(&self) -> UeCapability
        ensures { result ≡ replayed self.now }
    {
        let [first, second, third, fourth, ..] = self.octets;
        if self.count < 4 {
            return UeCapability {
                octets: [first, second, 0, 0, 0, 0, 0, 0, 0, 0, 0, 0, 0],
                count: 2,
            };
        }
        UeCapability {
            octets: [
                first,
                second,
                third,
                fourth % 128,
                0,
                0,
                0,
                0,
                0,
                0,
                0,
                0,
                0,
            ],
            count: 4,
        }
    }

    /// Appends its octets; where that is refused, with the fault NoMemory, `out` is as before.
    pub fn write(&self, out: &mut Vec<u8>) -> Result<(), NasFault>
        ensures ok { OnOk result (out.new.items ≡ out.old.items ++ self.now) }
        ensures err { OnErr result (out.new.items ≡ out.old.items) }
        ensures memory { IfErr result (λ fault. fault ≡ NasFault.NoMemory) }
    {
        Ok(out.extend_from_slice(self.as_slice())?)
    }
}
