//! Laws of messages. Each function has the law as its contract, and does nothing.

ghost use Rattle.std.specs.Prelude.{◌≡◌, ℕ, List, Ok, Err, Some, length};
ghost use Rattle.nas_elements.specs.declared.fault.NasFault.{NasFault};
ghost use Rattle.nas_messages.specs.Protection.{protected_form, split};
ghost use Rattle.nas_messages.specs.declared.protection.Protected.{Protected};
ghost use Rattle.nas_messages.specs.declared.emm_types.Direction.{Direction};
ghost use Rattle.nas_messages.specs.declared.emm_types.Emm.{Emm};
ghost use Rattle.nas_messages.specs.declared.esm_types.Esm.{Esm};
ghost use Rattle.nas_messages.specs.Messages.{Goes, HasFault, IsWritable, SpellsEmm, decoded_emm, encoded_emm};
ghost use Rattle.nas_messages.specs.EsmMessages.{HasEsmFault, IsWritableEsm, SpellsEsm, decoded_esm, encoded_esm};

/// Octets are decoded as a message only if they spell it.
pub fn decoded_is_spelled()
    ensures { (direction : Direction) (os : List ℕ) (m : Emm (List ℕ)) → decoded_emm direction os ≡ Ok m
        → SpellsEmm direction m os }
{}

/// Octets are decoded as the message that they spell.
pub fn spelled_is_decoded()
    ensures { (direction : Direction) (m : Emm (List ℕ)) (os : List ℕ) → SpellsEmm direction m os → decoded_emm direction os
        ≡ Ok m }
{}

/// Octets spell at most one message.
pub fn one_message()
    ensures { (direction : Direction) (m n : Emm (List ℕ)) (os : List ℕ) → SpellsEmm direction m os → SpellsEmm direction n os
        → m ≡ n }
{}

/// What is encoded is decoded as the same message by its receiver.
pub fn encoded_is_decoded()
    ensures { (direction : Direction) (m : Emm (List ℕ)) → IsWritable m → Goes direction m → decoded_emm direction (encoded_emm m)
        ≡ Ok m }
{}

/// A fault that decoding answers is one that the octets have (`HasFault`).
pub fn fault_is_named()
    ensures { (direction : Direction) (os : List ℕ) (fault : NasFault) → decoded_emm direction os ≡ Err fault
        → HasFault direction os fault }
{}

/// Octets are decoded as an ESM message only if they spell it.
pub fn decoded_esm_is_spelled()
    ensures { (os : List ℕ) (m : Esm (List ℕ)) → decoded_esm os ≡ Ok m → SpellsEsm m os }
{}

/// Octets are decoded as the ESM message that they spell.
pub fn spelled_esm_is_decoded()
    ensures { (m : Esm (List ℕ)) (os : List ℕ) → SpellsEsm m os → decoded_esm os ≡ Ok m }
{}

/// Octets spell at most one ESM message.
pub fn one_esm_message()
    ensures { (m n : Esm (List ℕ)) (os : List ℕ) → SpellsEsm m os → SpellsEsm n os → m ≡ n }
{}

/// What is encoded of an ESM message is decoded as it.
pub fn encoded_esm_is_decoded()
    ensures { (m : Esm (List ℕ)) → IsWritableEsm m → decoded_esm (encoded_esm m) ≡ Ok m }
{}

/// A fault that decoding an ESM message answers is one that the octets have (`HasEsmFault`).
pub fn fault_of_esm_is_named()
    ensures { (os : List ℕ) (fault : NasFault) → decoded_esm os ≡ Err fault → HasEsmFault os fault }
{}

/// What is split is in the protected form, with a MAC of four octets.
pub fn split_is_protected()
    ensures { (os : List ℕ) (p : Protected (List ℕ)) → split os ≡ Some p → (os ≡ protected_form p) × (length p.mac ≡ 4) }
{}

/// What is in the protected form, with such a MAC, is split.
pub fn protected_is_split()
    ensures { (os : List ℕ) (p : Protected (List ℕ)) → os ≡ protected_form p → length p.mac ≡ 4 → split os ≡ Some p }
{}
