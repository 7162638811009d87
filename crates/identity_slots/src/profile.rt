//! A subscriber's profile and its authentication vectors.

ghost use Rattle.std.specs.Prelude.{◌≡◌, ◌≤◌, IfSome, IsSome, length, replicate};
ghost use Rattle.identity_slots.specs.Forgetting.{forgotten};

use arrayvec::ArrayVec;
use nas_elements::Imsi;
use std::alloc::AllocError;
use std::marker::Model;
use std::mem;

/// What is provisioned of a subscriber.
#[derive(Clone, Copy)]
pub struct Profile {
    pub imsi: Imsi,
    /// Its IPv4 address.
    pub address: [u8; 4],
    /// The IPv4 address of its S-GW.
    pub gateway: [u8; 4],
    /// The S-GW's tunnel end for it.
    pub teid: [u8; 4],
}

/// An expected answer of 4 to 16 octets (TS 33.401 clause 6.1.1).
#[derive(Drop)]
pub struct Xres {
    octets: ArrayVec<u8, 16>,
}

impl Model for Xres {
    ghost use Rattle.std.specs.Prelude.{List, ℕ, ◌≤◌, length};

    ghost Value = { List ℕ };

    ghost view = { λ x. x.octets.items };

    ghost invariant = { λ x. (4 ≤ length x.octets.items) × (length x.octets.items ≤ 16) };
}

impl Xres {
    /// These octets, where they are 4 to 16.
    pub fn try_new(octets: &[u8]) -> Option<Xres>
        ensures value { IfSome result (λ xres. xres ≡ octets.now) }
        ensures some { (4 ≤ length octets.now) → (length octets.now ≤ 16) → IsSome result }
        ensures long { IfSome result (λ _. (4 ≤ length octets.now) × (length octets.now ≤ 16)) }
    {
        if octets.len() < 4 {
            return None;
        }
        match ArrayVec::try_from(octets) {
            Ok(octets) => Some(Xres { octets }),
            Err(_) => None,
        }
    }

    /// Its octets.
    pub fn as_slice(&self) -> &[u8]
        ensures value { result.now ≡ self.now }
        ensures long { (4 ≤ length self.now) × (length self.now ≤ 16) }
    {
        self.octets.as_slice()
    }

    // Nobody's: what stands where one was.
    fn blank() -> Xres
        ensures { result ≡ replicate 16 0 }
    {
        Xres {
            octets: ArrayVec::from([0; 16]),
        }
    }
}

impl Clone for Xres {
    ghost use Rattle.std.specs.Prelude.{◌≡◌};

    ghost is_clone = { λ x y. y ≡ x };

    fn clone(&self) -> Result<Xres, AllocError> {
        Ok(Xres {
            octets: self.octets.clone()?,
        })
    }
}

/// KASME as it was given with a vector, 32 octets (TS 33.401 clause 6.1.2), which a contract sees as its octets. It is neither
/// copied unsaid nor printed nor compared.
#[derive(Drop)]
pub struct GivenKasme {
    octets: [u8; 32],
}

impl Model for GivenKasme {
    ghost use Rattle.std.specs.Prelude.{ℕ, List};

    ghost Value = { List ℕ };

    ghost view = { λ k. k.octets };
}

impl GivenKasme {
    /// The key of these octets.
    pub fn new(octets: [u8; 32]) -> Self
        ensures { result ≡ octets }
    {
        GivenKasme { octets }
    }

    /// Its octets, which are a secret.
    pub fn octets(&self) -> &[u8; 32]
        ensures { result.now ≡ self.now }
    {
        &self.octets
    }
}

/// An authentication vector (TS 33.401 clause 6.1.2).
#[derive(Drop)]
pub struct Vector {
    pub rand: [u8; 16],
    pub autn: [u8; 16],
    pub xres: Xres,
    pub kasme: GivenKasme,
}

impl Vector {
    /// Its secrets are gone: zeros stand in place of XRES and of KASME.
    pub(crate) fn forget(&mut self)
        ensures { self.new ≡ forgotten self.old }
    {
        self.xres = Xres::blank();
        self.kasme = GivenKasme::new([0; 32]);
    }

    /// The vector, out of where it stands: there zeros are left in place of its secrets.
    pub(crate) fn take(&mut self) -> Vector
        ensures vector { result ≡ self.old }
        ensures left { self.new ≡ forgotten self.old }
    {
        Vector {
            rand: self.rand,
            autn: self.autn,
            xres: mem::replace(&mut self.xres, Xres::blank()),
            kasme: mem::replace(&mut self.kasme, GivenKasme::new([0; 32])),
        }
    }
}

impl Clone for Vector {
    ghost use Rattle.std.specs.Prelude.{◌≡◌};

    ghost is_clone = { λ x y. y ≡ x };

    fn clone(&self) -> Result<Vector, AllocError> {
        Ok(Vector {
            rand: self.rand,
            autn: self.autn,
            xres: self.xres.clone()?,
            kasme: GivenKasme::new(*self.kasme.octets()),
        })
    }
}
