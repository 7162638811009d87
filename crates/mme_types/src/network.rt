//! What the network grants each of its subscribers.

ghost use Rattle.std.specs.Prelude.{◌≡◌, ◌↔◌, ◌≤◌, length, IsSome, IfSome, IfOk, IsTrue};
ghost use Rattle.mme_types.specs.Network.{IsLabel, is_label_octet};

use arrayvec::ArrayString;
use s1ap_pdus::elements::{MmeCode, MmeGroup, Plmn, Whole};
use std::alloc::{AllocError, Global};
use std::marker::Model;
use std::rc::Rc;

/// A maximum bit rate of all bearers of a phone, 1 to 10^10 bits a second (TS 36.413 clause 9.2.1.20).
pub type AggregateBitRate = Whole<1, 10000000000>;

/// An access point name of one label, 1 to 63 letters, digits and hyphens (TS 23.003 clause 9.1); a contract sees its octets.
#[derive(Drop)]
pub struct Apn {
    label: ArrayString<63>,
}

impl Model for Apn {
    ghost use Rattle.std.specs.Prelude.{ℕ, List};

    ghost Value = { List ℕ };

    ghost use Rattle.mme_types.specs.Network.{IsLabel};

    ghost view = { λ a. a.label.bytes };

    ghost invariant = { λ a. IsLabel a.label.bytes };
}

impl Apn {
    /// The name of this label, where it is one; takes no memory.
    pub fn try_new(label: &[u8]) -> Option<Apn>
        ensures some { IsSome result ↔ IsLabel label.now }
        ensures value { IfSome result (λ a. a ≡ label.now) }
    {
        if label.is_empty() || !label.iter().all(|octet| is_label_octet(*octet)) {
            return None;
        }
        let Ok(text) = str::from_utf8(label) else {
            return None;
        };
        match ArrayString::from(text) {
            Ok(label) => Some(Apn { label }),
            Err(_) => None,
        }
    }

    /// The octets of the label.
    pub fn as_slice(&self) -> &[u8]
        ensures value { result.now ≡ self.now }
        ensures least { 1 ≤ length self.now }
        ensures most { length self.now ≤ 63 }
    {
        self.label.as_bytes()
    }

    /// The label as a text.
    pub fn as_str(&self) -> &str
        ensures { result.now ≡ self.now }
    {
        self.label.as_str()
    }
}

impl Clone for Apn {
    ghost use Rattle.std.specs.Prelude.{◌≡◌};

    ghost is_clone = { λ x y. y ≡ x };

    fn clone(&self) -> Result<Apn, AllocError> {
        Ok(Apn { label: self.label })
    }
}

fn is_label_octet(octet: u8) -> bool
    ensures { result ≡ is_label_octet octet }
{
    octet.is_ascii_alphanumeric() || octet == b'-'
}

/// The MME's network, group and code, and what it grants each phone.
#[derive(Drop)]
pub struct Network {
    /// The network, packed as S1AP has it.
    pub plmn: Plmn,
    /// The group of MMEs.
    pub group: MmeGroup,
    /// The MME in its group.
    pub code: MmeCode,
    /// Where bearers lead.
    pub apn: Apn,
    /// Downlink rate of each phone.
    pub down: AggregateBitRate,
    /// Uplink rate of each phone.
    pub up: AggregateBitRate,
}

impl Clone for Network {
    ghost use Rattle.std.specs.Prelude.{◌≡◌};

    ghost is_clone = { λ x y. y ≡ x };

    fn clone(&self) -> Result<Network, AllocError> {
        Ok(Network {
            plmn: self.plmn,
            group: self.group,
            code: self.code,
            apn: self.apn.clone()?,
            down: self.down,
            up: self.up,
        })
    }
}

/// A network that all subscribers share; a contract sees the network.
#[derive(Drop)]
pub struct SharedNetwork {
    network: Rc<Network>,
}

impl Model for SharedNetwork {
    ghost use Rattle.mme_types.specs.declared.network.Network.{Network};

    ghost Value = { Network };

    ghost view = { λ s. s.network.value };
}

impl SharedNetwork {
    /// This network, to be shared.
    pub fn new(alloc: Global, network: Network) -> Result<SharedNetwork, AllocError>
        ensures { IfOk result (λ s. s ≡ network) }
    {
        Ok(SharedNetwork {
            network: Rc::new(alloc, network)?,
        })
    }

    /// The network.
    pub fn get(&self) -> &Network
        ensures { result.now ≡ self.now }
    {
        self.network.as_ref()
    }
}

impl Clone for SharedNetwork {
    ghost use Rattle.std.specs.Prelude.{◌≡◌};

    ghost is_clone = { λ x y. y ≡ x };

    fn clone(&self) -> Result<SharedNetwork, AllocError> {
        Ok(SharedNetwork {
            network: self.network.clone()?,
        })
    }
}
