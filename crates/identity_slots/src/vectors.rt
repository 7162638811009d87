//! The authentication vectors of a subscriber: as they are given, and as they are kept until they are spent.

ghost use Rattle.std.specs.Prelude.{◌≡◌, ◌≢◌, ◌↔◌, ◌+◌, ◌<◌, ◌≤◌, ◌^◌, ◌++◌, ◌∷◌, [], Err, IfErr, IfOk, IsSome, OnOk, OnErr, drop, length, replicate, option_map, slice_get, true, vec_len};
ghost use Rattle.std.specs.Vec.{vec_capacity};
ghost use Rattle.identity_slots.specs.Forgetting.{first_forgotten, forgotten};
ghost use Rattle.identity_slots.specs.Spending.{IsStocked, spent_before};
ghost use Rattle.identity_slots.specs.declared.provision.ProvisionFault.TheVariants.{Full, NoMemory};

use crate::history::History;
use crate::profile::Vector;
use crate::provision::{ProvisionFault, VECTORS};
use std::alloc::{AllocError, Global};
use std::marker::Model;
use std::mem;

// How many vectors a subscriber is given in all, at most.
const GIVEN: usize = 1 << 62;

// How many are kept at most once one more was given: where there are so many, those that are spent go first.
const KEPT: usize = 128;

// The same vectors, where there is room for as many again and two more.
fn roomier(alloc: Global, vectors: &[Vector]) -> Result<Vec<Vector>, AllocError>
    ensures items { IfOk result (λ v. v.items ≡ vectors.now) }
    ensures room { IfOk result (λ v. vec_len v < vec_capacity v) }
{
    let mut room = Vec::with_capacity(alloc, 2 * vectors.len() + 2)?;
    for vector in vectors {
        room.push(vector.clone()?)?;
    }
    Ok(room)
}

// The secrets of all are gone. It is out of line, so that it is done also where nobody looks at the vectors again.
#[inline(never)]
fn forget_all(vectors: &mut Vec<Vector>)
    ensures { vectors.new.items ≡ first_forgotten (length vectors.old.items) vectors.old.items }
{
    for vector in vectors.iter_mut() {
        vector.forget();
    }
}

// Those from a place on.
fn rest_from(vectors: &[Vector], place: usize) -> &[Vector]
    requires { place ≤ length vectors.now }
    ensures { result.now ≡ drop place vectors.entry.now }
{
    &vectors[place..]
}

// Makes room for one more, of 128 at most. Where there is none, those that are spent go, the others move, and no secret stays where
// it was. Answers how many went.
fn make_room(alloc: Global, items: &mut Vec<Vector>, spent: usize) -> Result<usize, AllocError>
    requires spent { spent ≤ vec_len items.old }
    requires unspent { vec_len items.old < spent + 64 }
    ensures items { IfOk result (λ gone. items.new.items ≡ drop gone items.old.items) }
    ensures gone { IfOk result (λ gone. gone ≤ spent) }
    ensures room { OnOk result (vec_len items.new < vec_capacity items.new) }
    ensures few { OnOk result (vec_len items.new < 128) }
    ensures err { OnErr result (items.new.items ≡ items.old.items) }
{
    if items.len() < items.capacity() && items.len() < KEPT {
        return Ok(0);
    }
    let room = roomier(alloc, rest_from(items.as_slice(), spent))?;
    let mut left = mem::replace(items, room);
    forget_all(&mut left);
    Ok(spent)
}

// Refuses a vector for a fault: its secrets are overwritten.
fn refuse(vector: &mut Vector, fault: ProvisionFault) -> Result<(), ProvisionFault>
    ensures fault { result ≡ Err fault }
    ensures left { vector.new ≡ forgotten vector.old }
{
    vector.forget();
    Err(fault)
}

// The vector at a place, from 0, if there is one.
fn vector_at(vectors: &[Vector], place: usize) -> Option<&Vector>
    ensures value { option_map (λ v. v.now) result ≡ slice_get vectors.entry.now place }
    ensures bound { IsSome result → place < 2 ^ 63 }
{
    vectors.get(place)
}

fn history_of(vectors: &[Vector]) -> History<Vector>
    ensures { result.items ≡ vectors.now }
{
    let mut history = History::new();
    for vector in vectors {
        history = history.and(vector);
    }
    history
}

/// Vectors in the order in which they were given, none of them spent; a contract sees their list.
#[derive(Drop)]
pub struct Vectors {
    items: Vec<Vector>,
}

impl Model for Vectors {
    ghost use Rattle.std.specs.Prelude.{List};
    ghost use Rattle.identity_slots.specs.declared.profile.Vector.{Vector};

    ghost Value = { List Vector };

    ghost view = { λ v. v.items.items };
}

impl Vectors {
    /// These vectors.
    pub fn new(items: Vec<Vector>) -> Vectors
        ensures { result ≡ items.items }
    {
        Vectors { items }
    }

    pub(crate) fn none(alloc: Global) -> Vectors
        ensures { result ≡ [] }
    {
        Vectors::new(Vec::new(alloc))
    }

    pub(crate) fn len(&self) -> usize
        ensures { result ≡ length self.now }
    {
        self.items.len()
    }

    pub(crate) fn as_slice(&self) -> &[Vector]
        ensures { result.now ≡ self.now }
    {
        self.items.as_slice()
    }

    /// Adds a vector, or leaves them as they are. Where they move, no secret stays where they were.
    pub(crate) fn push(&mut self, alloc: Global, vector: Vector) -> Result<(), AllocError>
        ensures items { OnOk result (self.new ≡ self.old ++ vector ∷ []) }
        ensures err { OnErr result (self.new ≡ self.old) }
    {
        if self.items.len() == self.items.capacity() {
            let room = roomier(alloc, self.items.as_slice())?;
            let mut left = mem::replace(&mut self.items, room);
            forget_all(&mut left);
        }
        self.items.push(vector)?;
        Ok(())
    }

    /// The same vectors, to be kept until they are spent. Takes no memory.
    pub fn into_kept(self) -> KeptVectors
        ensures { result ≡ record { given = self; spent = 0 } }
    {
        let given = GivenVectors {
            items: history_of(self.items.as_slice()),
        };
        KeptVectors {
            items: self.items,
            base: 0,
            spent: 0,
            given,
        }
    }
}

/// Vectors as they were given, also those whose secrets are gone: contracts alone see their list, and it takes no memory.
#[derive(Drop)]
pub struct GivenVectors {
    items: History<Vector>,
}

impl Model for GivenVectors {
    ghost use Rattle.std.specs.Prelude.{List};
    ghost use Rattle.identity_slots.specs.declared.profile.Vector.{Vector};

    ghost Value = { List Vector };

    ghost view = { λ g. g.items.items };
}

impl GivenVectors {
    // The husk once for each spent vector, then these.
    fn resumed(spent: usize, husk: &Vector, rest: &[Vector]) -> GivenVectors
        ensures { result ≡ replicate spent husk.now ++ rest.now }
    {
        let mut items = History::repeated(husk, spent);
        for vector in rest {
            items = items.and(vector);
        }
        GivenVectors { items }
    }

    // The same once more.
    fn again(&self) -> GivenVectors
        ensures { result ≡ self.now }
    {
        GivenVectors {
            items: self.items.again(),
        }
    }

    // And this one.
    fn and(&self, vector: &Vector) -> GivenVectors
        ensures { result ≡ self.now ++ vector.now ∷ [] }
    {
        GivenVectors {
            items: self.items.and(vector),
        }
    }
}

impl Clone for GivenVectors {
    ghost use Rattle.std.specs.Prelude.{◌≡◌};

    ghost is_clone = { λ x y. y ≡ x };

    fn clone(&self) -> Result<GivenVectors, AllocError> {
        Ok(self.again())
    }
}

/// Vectors as they were given, the first of which are spent: that XRES and KASME of these are overwritten is an invariant
/// (`IsWindow`).
///
/// No call answers those. A contract sees all as they were given, and how many are spent.
#[derive(Drop)]
pub struct KeptVectors {
    // those from the place `base` on: the ones before it are spent, and aren't kept any more
    items: Vec<Vector>,
    base: usize,
    // how many are spent: those before this place
    spent: usize,
    // all of them as they were given
    given: GivenVectors,
}

impl Model for KeptVectors {
    ghost use Rattle.identity_slots.specs.Spending.{IsWindow, KeptView};

    ghost Value = { KeptView };

    ghost view = { λ v. record { given = v.given; spent = v.spent } };

    ghost invariant = { λ v. IsWindow v.base v.spent v.given v.items.items };
}

impl KeptVectors {
    /// A list whose first vectors are spent already, with a given husk in the place of each.
    ///
    /// Takes no memory.
    pub fn resumed(spent: usize, husk: &Vector, rest: Vectors) -> KeptVectors
        requires { spent + length rest < 2 ^ 63 }
        ensures { result ≡ record { given = replicate spent husk.now ++ rest; spent = spent } }
    {
        let given = GivenVectors::resumed(spent, husk, rest.as_slice());
        KeptVectors {
            items: rest.items,
            base: spent,
            spent,
            given,
        }
    }

    /// All as they were given.
    pub fn given(&self) -> GivenVectors
        ensures { result ≡ self.now.given }
    {
        self.given.again()
    }

    /// How many are spent.
    pub fn spent(&self) -> usize
        ensures value { result ≡ self.now.spent }
        ensures within { self.now.spent ≤ length self.now.given }
    {
        self.spent
    }

    /// The vector that was given at a place, from 0, if there is one; requires that none from there on is spent.
    ///
    /// Takes no memory.
    pub fn get(&self, place: usize) -> Option<&Vector>
        requires unspent { self.now.spent ≤ place }
        ensures value { option_map (λ v. v.now) result ≡ slice_get self.entry.now.given place }
        ensures bound { IsSome result → place < 2 ^ 63 }
    {
        vector_at(self.items.as_slice(), place - self.base)
    }

    // Whether no more are taken.
    fn is_stocked(&self) -> bool
        ensures { (result ≡ true) ↔ IsStocked self.now }
    {
        let given = self.base + self.items.len();
        given - self.spent >= VECTORS || given >= GIVEN
    }

    /// Adds a vector at the end, or changes nothing.
    ///
    /// Full where 64 aren't spent or 2^62 were given, NoMemory where room was refused, in this order; the secrets of the vector are
    /// then overwritten. Where the others move, those that are spent go, and no secret stays where it was.
    pub fn give(&mut self, alloc: Global, mut vector: Vector) -> Result<(), ProvisionFault>
        ensures full { (result ≡ Err Full) ↔ IsStocked self.old }
        ensures fault { IfErr result (λ fault. fault ≢ NoMemory → fault ≡ Full) }
        ensures given { OnOk result (self.new ≡ record self.old { given = self.old.given ++ vector ∷ [] }) }
        ensures err { OnErr result (self.new ≡ self.old) }
    {
        self.push_from(alloc, &mut vector)
    }

    // One vector more, from where it stands: there its secrets are overwritten, also where it is refused. It is out of line, so that
    // they are also where nobody looks at the vector again.
    #[inline(never)]
    fn push_from(&mut self, alloc: Global, vector: &mut Vector) -> Result<(), ProvisionFault>
        ensures full { (result ≡ Err Full) ↔ IsStocked self.old }
        ensures fault { IfErr result (λ fault. fault ≢ NoMemory → fault ≡ Full) }
        ensures given { OnOk result (self.new ≡ record self.old { given = self.old.given ++ vector.old ∷ [] }) }
        ensures err { OnErr result (self.new ≡ self.old) }
        ensures left { vector.new ≡ forgotten vector.old }
    {
        if self.is_stocked() {
            return refuse(vector, ProvisionFault::Full);
        }
        let Ok(gone) = make_room(alloc, &mut self.items, self.spent - self.base) else {
            return refuse(vector, ProvisionFault::NoMemory);
        };
        self.base += gone;
        self.given = self.given.and(vector);
        self.items.push_reserved(vector.take());
        Ok(())
    }

    /// Spends the vectors before a place: nothing that was given changes, only how many are spent.
    ///
    /// Their secrets are overwritten. Takes no memory.
    pub fn spend_before(&mut self, place: usize)
        ensures { self.new ≡ spent_before place self.old }
    {
        let end = place.min(self.base + self.items.len());
        while self.spent < end {
            self.items[self.spent - self.base].forget();
            self.spent += 1;
        }
    }
}

impl Clone for KeptVectors {
    ghost use Rattle.std.specs.Prelude.{◌≡◌};

    ghost is_clone = { λ x y. y ≡ x };

    fn clone(&self) -> Result<KeptVectors, AllocError> {
        Ok(KeptVectors {
            items: self.items.clone()?,
            base: self.base,
            spent: self.spent,
            given: self.given.again(),
        })
    }
}
