//! Laws of every row of parts, and of the elements. Each function has the law as its contract, and does nothing.

ghost use Rattle.std.specs.Prelude.{◌≡◌, ℕ, List, Ok, Err, Some, true};
ghost use Rattle.nas_elements.specs.declared.fault.NasFault.{NasFault};
ghost use Rattle.nas_elements.specs.Digits.{imsi_of_text, imsi_text, is_imsi};
ghost use Rattle.nas_elements.specs.Parts.{Content, ContentFits, ContentValue, Small, SpellsContent, content_of, write_content};
ghost use Rattle.nas_elements.specs.Rows.{Row, RowFault, RowFits, RowValue, SpellsRow, are_distinct, read_row, write_row};

/// A row is read as a value only if the octets spell it.
pub fn read_is_spelled()
    ensures { (r : Row) (os : List ℕ) (v : RowValue r) → read_row r os ≡ Ok v → SpellsRow r v os }
{}

/// A row is read as the value that the octets spell.
pub fn spelled_is_read()
    ensures { (r : Row) (os : List ℕ) (v : RowValue r) → SpellsRow r v os → read_row r os ≡ Ok v }
{}

/// Octets spell at most one value of a row.
pub fn one_value()
    ensures { (r : Row) (os : List ℕ) (v w : RowValue r) → SpellsRow r v os → SpellsRow r w os → v ≡ w }
{}

/// A row is refused with the fault Mandatory only if no front of the octets spells its mandatory part, with OptionalPart only if a
/// front spells it and no elements part the rest, and with no other fault.
pub fn row_fault()
    ensures { (r : Row) (os : List ℕ) (fault : NasFault) → read_row r os ≡ Err fault → RowFault r os fault }
{}

/// What is written of a row whose kept elements are distinct spells its value.
pub fn written_is_spelled()
    ensures { (r : Row) (v : RowValue r) → are_distinct r.kept ≡ true → RowFits r v → SpellsRow r v (write_row r v) }
{}

/// A value that octets spell of a row whose kept elements are distinct can be written.
pub fn spelled_is_writable()
    ensures { (r : Row) (v : RowValue r) (os : List ℕ) → are_distinct r.kept ≡ true → Small os → SpellsRow r v os → RowFits r v }
{}

/// An element is read as a value only if the octets spell it.
pub fn element_is_spelled()
    ensures { (c : Content) (os : List ℕ) (v : ContentValue c) → content_of c os ≡ Some v → SpellsContent c v os }
{}

/// An element is read as the value that the octets spell.
pub fn spelled_is_element()
    ensures { (c : Content) (os : List ℕ) (v : ContentValue c) → SpellsContent c v os → content_of c os ≡ Some v }
{}

/// An element that is written is read as it.
pub fn written_is_element()
    ensures { (c : Content) (v : ContentValue c) → ContentFits c v → content_of c (write_content c v) ≡ Some v }
{}

/// An IMSI that is read from text has that text.
pub fn text_is_imsi()
    ensures { (bs ds : List ℕ) → imsi_of_text bs ≡ Some ds → imsi_text ds ≡ bs }
{}

/// The text of an IMSI is read as that IMSI.
pub fn imsi_is_text()
    ensures { (ds : List ℕ) → is_imsi ds ≡ true → imsi_of_text (imsi_text ds) ≡ Some ds }
{}
