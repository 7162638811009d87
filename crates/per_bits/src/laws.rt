//! Laws of every format.

ghost use Rattle.std.specs.Prelude.{◌≡◌, ◌++◌, ℕ, Bool, List, length, Ok, Err};
ghost use Rattle.per_streams.specs.declared.fault.PerFault.{PerFault};
ghost use Rattle.per_streams.specs.declared.fault.PerFault.TheVariants.{Range};
ghost use Rattle.per_bits.specs.Written.{IsWritable, written};
ghost use Rattle.per_bits.specs.Writing.{write_at, complete_write};
ghost use Rattle.per_bits.specs.Formats.{Format, Value};
ghost use Rattle.per_bits.specs.Spelling.{SpellsWhole};
ghost use Rattle.per_bits.specs.Reading.{complete_at};

/// Octets spell at most one value.
pub fn one_value()
    ensures { (f : Format) (os : List ℕ) (v w : Value f) → SpellsWhole f v os → SpellsWhole f w os → v ≡ w }
{}

/// What is written is spelled.
pub fn what_is_written()
    ensures { (f : Format) (v : Value f) (os : List ℕ) → complete_write f v ≡ Ok os → SpellsWhole f v os }
{}

/// Reading gives back what was written.
pub fn what_is_written_is_read()
    ensures { (f : Format) (v : Value f) (os : List ℕ) → complete_write f v ≡ Ok os → complete_at f os ≡ Ok v }
{}

/// Reading gives a value exactly where the octets spell it, and a fault only where they spell none.
pub fn read_exactly()
    ensures read { (f : Format) (v : Value f) (os : List ℕ) → SpellsWhole f v os → complete_at f os ≡ Ok v }
    ensures spelled { (f : Format) (v : Value f) (os : List ℕ) → complete_at f os ≡ Ok v → SpellsWhole f v os }
    ensures refused { (f : Format) (v : Value f) (os : List ℕ) (fault : PerFault) → complete_at f os ≡ Err fault
        → SpellsWhole f v os → ⊥ }
{}

/// Writing gives the written spelling where the value is writable, and else Range.
pub fn writes_exactly()
    ensures writable { (f : Format) (v : Value f) (out : List Bool) → IsWritable f v
        → write_at f v out ≡ Ok (out ++ written f v (length out)) }
    ensures refused { (f : Format) (v : Value f) (out : List Bool) → (IsWritable f v → ⊥) → write_at f v out ≡ Err Range }
{}
