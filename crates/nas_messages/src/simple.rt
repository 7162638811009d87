//! Messages of one part at most, with no optional element that is kept.

ghost use Rattle.std.specs.Prelude.{◌≡◌, ◌∷◌, ◌<◌, []};
ghost use Rattle.nas_elements.specs.Parts.{exactly, halves, octet, read_parts, spare};
ghost use Rattle.nas_elements.specs.Rows.{read_row};
ghost use Rattle.nas_elements.specs.Seen.{at};
ghost use Rattle.nas_elements.specs.declared.rule.Domain.TheVariants as domains;
ghost use Rattle.nas_messages.specs.Simple.{simple, in_row};

use nas_elements::{Domain, NasFault, Optional, octet_at};

/// A message without a mandatory part.
#[tactic(auto, unfolding(nas_elements::specs::Rows::read_row))]
pub fn nothing_in(domain: Domain, octets: &[u8]) -> Result<(), NasFault>
    ensures { in_row (λ _. (tt, tt)) result ≡ read_row (simple domain []) octets.now }
{
    let _ = Optional::read(domain, octets)?;
    Ok(())
}

/// A message whose mandatory part is a cause.
#[tactic(auto, unfolding(nas_elements::specs::Rows::read_row))]
pub fn cause_in(domain: Domain, octets: &[u8]) -> Result<u8, NasFault>
    ensures { in_row (λ cause. ((cause, tt), tt)) result ≡ read_row (simple domain (octet ∷ [])) octets.now }
{
    let Some((cause, rest)) = octet_at(octets) else {
        return Err(NasFault::Mandatory);
    };
    let _ = Optional::read(domain, rest)?;
    Ok(cause)
}

/// An octet whose low three bits are these.
pub fn three_at(expected: u8, octets: &[u8]) -> Option<((), &[u8])>
    requires { expected < 8 }
    ensures { at (λ _. ((tt, tt), tt)) result ≡ read_parts (halves (exactly expected) spare ∷ []) octets.now }
{
    let Some((first, rest)) = octet_at(octets) else {
        return None;
    };
    if first % 16 % 8 != expected {
        return None;
    }
    Some(((), rest))
}

/// A message whose mandatory part is an octet with these low three bits.
#[tactic(auto, unfolding(nas_elements::specs::Rows::read_row))]
pub fn three_in(expected: u8, octets: &[u8]) -> Result<(), NasFault>
    requires { expected < 8 }
    ensures { in_row (λ _. (((tt, tt), tt), tt)) result
        ≡ read_row (simple domains.Emm (halves (exactly expected) spare ∷ [])) octets.now }
{
    let Some((_, rest)) = three_at(expected, octets) else {
        return Err(NasFault::Mandatory);
    };
    let _ = Optional::read(Domain::Emm, rest)?;
    Ok(())
}
