//! Laws of counts and of what is accepted: each is the contract of a function that computes nothing.

ghost use Rattle.std.specs.Prelude.{◌≡◌, ◌≤◌, ◌<◌, ◌%◌, ◌^◌, ◌↔◌, ℕ, List, Option, Some, None, Ok};
ghost use Rattle.nas_messages.specs.declared.protection.SecurityHeader.{SecurityHeader};
ghost use Rattle.nas_security.specs.Accepting.{accepted, short_accepted};
ghost use Rattle.nas_security.specs.Context.{Mac};
ghost use Rattle.nas_security.specs.Counts.{IsEstimate, estimate, first_after};
ghost use Rattle.nas_security.specs.Laws.{IsAccepted};

use eps_keys::same_is_equal;

/// An estimate is the least count of 24 bits above the last one with the low bits; where there is
/// none, no such count has them.
pub fn estimate_is_least()
    ensures some { (last : Option ℕ) (bits modulus n : ℕ)
        → estimate last bits modulus ≡ Some n → IsEstimate last bits modulus n }
    ensures none { (last : Option ℕ) (bits modulus : ℕ) → estimate last bits modulus ≡ None
        → (n : ℕ) → first_after last ≤ n → n < 2 ^ 24 → n % modulus ≡ bits → ⊥ }
{}

/// A message is accepted exactly if its header is allowed, its count is the estimate and its MAC is right.
pub fn accepted_is_exact()
    ensures { (mac : Mac) (last : Option ℕ) (allowed : List SecurityHeader) (octets : List ℕ)
        (count : ℕ) (message : List ℕ)
        → (accepted mac last allowed octets ≡ Ok (count, message))
        ↔ IsAccepted mac last allowed octets count message }
{
    same_is_equal();
}

/// An accepted count has 24 bits and is above the last accepted one: none is accepted twice.
pub fn accepted_is_fresh()
    ensures whole { (mac : Mac) (last : Option ℕ) (allowed : List SecurityHeader) (octets : List ℕ)
        (count : ℕ) (message : List ℕ)
        → accepted mac last allowed octets ≡ Ok (count, message)
        → (first_after last ≤ count) × (count < 2 ^ 24) }
    ensures short { (mac : Mac) (last : Option ℕ) (ksi : ℕ) (octets : List ℕ) (count : ℕ)
        → short_accepted mac last ksi octets ≡ Ok count
        → (first_after last ≤ count) × (count < 2 ^ 24) }
{
    same_is_equal();
}
