//! Laws of messages.

ghost use Rattle.std.specs.Prelude.{◌≡◌, ℕ, List, Ok, Some, None};
ghost use Rattle.s1ap_pdus.specs.declared.pdu.Pdu.{Pdu};
ghost use Rattle.s1ap_pdus.specs.Pdus.{IsWritableMessage, SpellsMessage, decoded, encoded, named, typed};

/// Octets are decoded as a message exactly if they spell it, whatever the order of its elements, with what may be skipped, with
/// extensions and additions.
pub fn decoded_exactly()
    ensures decoded { (m : Pdu (List ℕ)) (os : List ℕ) → SpellsMessage m os → decoded os ≡ Ok m }
    ensures spelled { (m : Pdu (List ℕ)) (os : List ℕ) → decoded os ≡ Ok m → SpellsMessage m os }
{}

/// The values of a message's rows give the message again.
pub fn named_again()
    ensures { (m : Pdu (List ℕ)) → named (typed m).0 (typed m).1 ≡ m }
{}

/// Octets spell at most one message.
pub fn one_message()
    ensures { (m n : Pdu (List ℕ)) (os : List ℕ) → SpellsMessage m os → SpellsMessage n os → m ≡ n }
{}

/// What is written for a message spells it, and is decoded as it and nothing else.
pub fn what_is_encoded()
    ensures spelled { (m : Pdu (List ℕ)) (os : List ℕ) → encoded m ≡ Some os → SpellsMessage m os }
    ensures decoded { (m : Pdu (List ℕ)) (os : List ℕ) → encoded m ≡ Some os → decoded os ≡ Ok m }
{}

/// A message is written exactly if each value in its open type, the elements and the whole are writable.
pub fn encoded_exactly()
    ensures written { (m : Pdu (List ℕ)) → IsWritableMessage m → (os : List ℕ) × (encoded m ≡ Some os) }
    ensures refused { (m : Pdu (List ℕ)) → (IsWritableMessage m → ⊥) → encoded m ≡ None }
{}
