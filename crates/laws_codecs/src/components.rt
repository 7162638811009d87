//! Where the fault is in bits that spell no value of a format. Each function has the law as its contract, and does nothing.

ghost use Rattle.std.specs.Prelude.{◌≡◌, ◌⊎◌, ◌↔◌, ℕ, Bool, List, Err};
ghost use Rattle.per_streams.specs.declared.fault.PerFault.{PerFault};
ghost use Rattle.per_streams.specs.Bits.{Place, start};
ghost use Rattle.per_streams.specs.Exact.{Takes};
ghost use Rattle.per_bits.specs.Formats.{Format, Value};
ghost use Rattle.per_bits.specs.Reading.{complete_at, read_at, whole_at};
ghost use Rattle.per_bits.specs.Spelling.{Spells, SpellsWhole};
ghost use Rattle.s1ap_rows.specs.Reading.{frame_at};
ghost use Rattle.laws_codecs.specs.S1apFaults.{head_at, tail_at};
ghost use Rattle.laws_codecs.specs.Components.{Component, HasSpelling, IsFaultOf};
ghost use Rattle.laws_codecs.specs.PerFaults.{ComponentsOf, HasFaultAmong, HasPerFault, HasWholeFault};
ghost use Rattle.laws_codecs.specs.MessageFaults.{FrameComponents, HeadComponents, TailComponents};

/// A component has a spelling at a place or one fault there, never both: of several things that are wrong with it (`IsWrong`), the
/// fault with the lowest number.
pub fn component_outcome()
    ensures some { (c : Component) (s : Place) → HasSpelling c s ⊎ ((fault : PerFault) × IsFaultOf c s fault) }
    ensures one { (c : Component) (s : Place) (fault : PerFault) → HasSpelling c s → IsFaultOf c s fault → ⊥ }
    ensures alone { (c : Component) (s : Place) (fault other : PerFault) → IsFaultOf c s fault → IsFaultOf c s other
        → fault ≡ other }
{}

/// A fault that reading a value (`read_at`) answers is one that the bits have (`HasPerFault`): that of the leftmost component
/// without a spelling; all to its left is spelled (X.691).
pub fn fault_is_named()
    ensures { (f : Format) (s : Place) (fault : PerFault) → read_at f s ≡ Err fault → HasPerFault f s fault }
{}

/// A fault that the bits from a place on have is what reading answers there.
pub fn named_is_fault()
    ensures { (f : Format) (s : Place) (fault : PerFault) → HasPerFault f s fault → read_at f s ≡ Err fault }
{}

/// From a place on, bits spell one value, up to one place, or have one fault, of one component at one place; never both.
pub fn one_outcome()
    ensures some { (f : Format) (s : Place)
        → ((v : Value f) × (t : Place) × Takes (Spells f) s v t) ⊎ ((fault : PerFault) × HasPerFault f s fault) }
    ensures value { (f : Format) (s t u : Place) (v w : Value f) → Takes (Spells f) s v t → Takes (Spells f) s w u
        → (v ≡ w) × (t ≡ u) }
    ensures one { (f : Format) (s t : Place) (v : Value f) (fault : PerFault) → Takes (Spells f) s v t → HasPerFault f s fault
        → ⊥ }
    ensures alone { (f : Format) (s : Place) (fault other : PerFault) (p : HasPerFault f s fault) (q : HasPerFault f s other)
        → (fault ≡ other) × (p.component ≡ q.component) × (p.place ≡ q.place) }
{}

/// Where bits spell a value, each of its components that stands is spelled; where they have a fault, each but the one with the
/// fault.
pub fn components_are_spelled()
    ensures all { (f : Format) (s t : Place) (v : Value f) (c : Component) (here : Place) → Takes (Spells f) s v t
        → ComponentsOf f s c here → HasSpelling c here }
    ensures others { (f : Format) (s : Place) (fault : PerFault) (p : HasPerFault f s fault) (c : Component) (here : Place)
        → ComponentsOf f s c here → HasSpelling c here ⊎ ((c ≡ p.component) × (here ≡ p.place)) }
{}

/// What `fault_is_named` says holds of octets as one complete encoding, with its last padding and what follows it.
pub fn fault_of_whole_is_named()
    ensures { (f : Format) (os : List ℕ) (fault : PerFault) → complete_at f os ≡ Err fault → HasWholeFault f os fault }
{}

/// A fault that octets have as one complete encoding is what reading them answers.
pub fn named_is_fault_of_whole()
    ensures { (f : Format) (os : List ℕ) (fault : PerFault) → HasWholeFault f os fault → complete_at f os ≡ Err fault }
{}

/// Octets spell a value as one complete encoding, or have one fault, of one component at one place; never both.
pub fn one_whole_outcome()
    ensures some { (f : Format) (os : List ℕ)
        → ((v : Value f) × SpellsWhole f v os) ⊎ ((fault : PerFault) × HasWholeFault f os fault) }
    ensures one { (f : Format) (os : List ℕ) (v : Value f) (fault : PerFault) → SpellsWhole f v os → HasWholeFault f os fault
        → ⊥ }
    ensures alone { (f : Format) (os : List ℕ) (fault other : PerFault) (p : HasWholeFault f os fault)
        (q : HasWholeFault f os other) → (fault ≡ other) × (p.component ≡ q.component) × (p.place ≡ q.place) }
{}

/// Reading the parts of an S1AP message beside its elements answers a fault exactly if their components have it: the frame with its
/// end, the extension bit with the number of elements, and what follows the elements (TS 36.413 clause 9.3).
pub fn message_parts_by_components()
    ensures frame { (os : List ℕ) (fault : PerFault)
        → (whole_at frame_at os ≡ Err fault) ↔ HasFaultAmong (FrameComponents os) fault }
    ensures head { (os : List ℕ) (fault : PerFault)
        → (head_at (start os) ≡ Err fault) ↔ HasFaultAmong (HeadComponents (start os)) fault }
    ensures tail { (extended : Bool) (s : Place) (fault : PerFault)
        → (tail_at extended s ≡ Err fault) ↔ HasFaultAmong (TailComponents extended s) fault }
{}
