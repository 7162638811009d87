//! How long a written value is, and that what is short is written. Each law is the contract of a function that does nothing.

ghost use Rattle.std.specs.Prelude.{◌≡◌, ◌≤◌, ◌*◌, ℕ, true, List, length, Some};
ghost use Rattle.per_bits.specs.Formats.{Format, Value};
ghost use Rattle.per_bits.specs.Written.{IsWritable, written};
ghost use Rattle.s1ap_pdus.specs.declared.pdu.Pdu.{Pdu};
ghost use Rattle.s1ap_pdus.specs.Pdus.{IsWritableMessage, encoded};
ghost use Rattle.laws_network.specs.Sizes.{IsShortMessage, in_range, most_octets};

use s1ap_pdus::encoded_exactly;

/// The written form of a value has at most as many octets as its format and its strings say, wherever it stands; and a value with
/// its numbers in range, its lists of a length that is allowed and at most 16,383 octets in all is writable.
pub fn short_values_are_writable()
    ensures size { (f : Format) (v : Value f) (at : ℕ) → length (written f v at) ≤ 8 * most_octets f v }
    ensures writable { (f : Format) (v : Value f) → in_range f v ≡ true → most_octets f v ≤ 16383 → IsWritable f v }
{}

/// A message with each value in range and at most 16,000 octets has a written form.
pub fn short_messages_are_written()
    ensures writable { (m : Pdu (List ℕ)) → IsShortMessage m → IsWritableMessage m }
    ensures written { (m : Pdu (List ℕ)) → IsShortMessage m → (os : List ℕ) × (encoded m ≡ Some os) }
{
    encoded_exactly();
}
