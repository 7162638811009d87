//! Octets spell one NAS message or have one fault. Each function has the law as its contract, and does nothing.

ghost use Rattle.std.specs.Prelude.{◌≡◌, ◌⊎◌, ℕ, List, Err};
ghost use Rattle.nas_elements.specs.declared.fault.NasFault.{NasFault};
ghost use Rattle.nas_messages.specs.declared.emm_types.Direction.{Direction};
ghost use Rattle.nas_messages.specs.declared.emm_types.Emm.{Emm};
ghost use Rattle.nas_messages.specs.declared.esm_types.Esm.{Esm};
ghost use Rattle.nas_messages.specs.Messages.{HasFault, SpellsEmm, decoded_emm};
ghost use Rattle.nas_messages.specs.EsmMessages.{HasEsmFault, SpellsEsm, decoded_esm};

use nas_messages::{
    decoded_esm_is_spelled, decoded_is_spelled, fault_is_named, fault_of_esm_is_named,
    spelled_esm_is_decoded, spelled_is_decoded,
};

/// A fault that octets have is what decoding them as an EMM message answers (TS 24.301 clause 7).
pub fn named_is_emm_fault()
    ensures { (direction : Direction) (os : List ℕ) (fault : NasFault) → HasFault direction os fault → decoded_emm direction os
        ≡ Err fault }
{
    decoded_is_spelled();
    fault_is_named();
}

/// Octets spell an EMM message of the given direction or have one fault, never both.
pub fn one_emm_outcome()
    ensures some { (direction : Direction) (os : List ℕ) → ((m : Emm (List ℕ)) × SpellsEmm direction m os)
        ⊎ ((fault : NasFault) × HasFault direction os fault) }
    ensures one { (direction : Direction) (os : List ℕ) (m : Emm (List ℕ)) (fault : NasFault) → SpellsEmm direction m os
        → HasFault direction os fault → ⊥ }
    ensures alone { (direction : Direction) (os : List ℕ) (fault other : NasFault) → HasFault direction os fault
        → HasFault direction os other → fault ≡ other }
{
    decoded_is_spelled();
    spelled_is_decoded();
    fault_is_named();
    named_is_emm_fault();
}

/// A fault that octets have is what decoding them as an ESM message answers (TS 24.301 clause 7).
pub fn named_is_esm_fault()
    ensures { (os : List ℕ) (fault : NasFault) → HasEsmFault os fault → decoded_esm os ≡ Err fault }
{
    decoded_esm_is_spelled();
    fault_of_esm_is_named();
}

/// Octets spell an ESM message or have one fault, never both.
pub fn one_esm_outcome()
    ensures some { (os : List ℕ) → ((m : Esm (List ℕ)) × SpellsEsm m os) ⊎ ((fault : NasFault) × HasEsmFault os fault) }
    ensures one { (os : List ℕ) (m : Esm (List ℕ)) (fault : NasFault) → SpellsEsm m os → HasEsmFault os fault → ⊥ }
    ensures alone { (os : List ℕ) (fault other : NasFault) → HasEsmFault os fault → HasEsmFault os other → fault ≡ other }
{
    decoded_esm_is_spelled();
    spelled_esm_is_decoded();
    fault_of_esm_is_named();
    named_is_esm_fault();
}
