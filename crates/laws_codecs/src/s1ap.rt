//! Where the fault is in octets that are no S1AP message; what is decoded is in range; and numbers take the fewest bits and octets.
//! Each function has the law as its contract, and does nothing.

ghost use Rattle.std.specs.Prelude.{◌≡◌, ◌<◌, ◌^◌, ℕ, List, Ok, Err, ◌⊎◌};
ghost use Rattle.s1ap_rows.specs.declared.fault.S1apFault.{S1apFault};
ghost use Rattle.s1ap_rows.specs.declared.fault.S1apFault.TheVariants.{NoMemory};
ghost use Rattle.s1ap_pdus.specs.declared.pdu.Pdu.{Pdu};
ghost use Rattle.s1ap_pdus.specs.Pdus.{SpellsMessage, decoded};
ghost use Rattle.per_streams.specs.Numbers.{octets_for, width_of};
ghost use Rattle.laws_codecs.specs.Least.{AreFewestOctets, IsLeastWidth};
ghost use Rattle.laws_codecs.specs.Ranged.{DecodedIsInRange};
ghost use Rattle.laws_codecs.specs.S1apFaults.{HasS1apFault};

use s1ap_pdus::decoded_exactly;

/// A fault that decoding answers is one that the octets have (`HasS1apFault`), from the left: that of octets that spell no frame;
/// of a frame of no message; of the first element that can't be taken (it stands again, is of no row and marked reject, spells
/// nothing that its row holds, or isn't spelled); of what isn't spelled after the elements; last, of the first row that lacks its
/// element (TS 36.413 clause 10.3).
pub fn s1ap_fault_is_named()
    ensures { (os : List ℕ) (fault : S1apFault) → decoded os ≡ Err fault → HasS1apFault os fault }
{}

/// A fault that octets have is what decoding them answers.
pub fn named_is_s1ap_fault()
    ensures { (os : List ℕ) (fault : S1apFault) → HasS1apFault os fault → decoded os ≡ Err fault }
{}

/// Octets spell a message or have one fault, never both.
pub fn one_s1ap_outcome()
    ensures some { (os : List ℕ) → ((m : Pdu (List ℕ)) × SpellsMessage m os) ⊎ ((fault : S1apFault) × HasS1apFault os fault) }
    ensures one { (os : List ℕ) (m : Pdu (List ℕ)) (fault : S1apFault) → SpellsMessage m os → HasS1apFault os fault → ⊥ }
    ensures alone { (os : List ℕ) (fault other : S1apFault) → HasS1apFault os fault → HasS1apFault os other → fault ≡ other }
{
    decoded_exactly();
}

/// No octets decode to lack of memory.
pub fn no_memory_is_no_fault()
    ensures { (os : List ℕ) → decoded os ≡ Err NoMemory → ⊥ }
{}

/// `width_of` gives the fewest bits for a number below 256, and `octets_for` the fewest octets for one below 2^64 (X.691 clauses
/// 11.3 and 11.5).
pub fn widths_are_least()
    ensures bits { (n : ℕ) → n < 256 → IsLeastWidth n (width_of n) }
    ensures octets { (n : ℕ) → n < 2 ^ 64 → AreFewestOctets n (octets_for n) }
{}

/// In a decoded message each mandatory element is in its format's range: numbers, the octets of strings, the lengths of lists
/// (TS 36.413 clauses 9.2 and 9.3.4).
pub fn decoded_is_in_range()
    ensures { DecodedIsInRange }
{
    decoded_exactly();
}
