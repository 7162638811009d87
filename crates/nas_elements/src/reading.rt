//! Reading parts from the left: a value and the octets after it; `None` where the octets don't begin with the part. None of
//! it takes memory.

ghost use Rattle.std.specs.Prelude.{◌≡◌, option_map};
ghost use Rattle.nas_elements.specs.Parts.{Part, read_part, octet_at, fixed_at, short_at, long_at, constant, lv, between, identity, guti, tai_list, label};
ghost use Rattle.nas_elements.specs.Identities.{label_of};
ghost use Rattle.nas_elements.specs.Seen.{at, octets_of};

use crate::identity::{Guti, MobileIdentity, TaiList};

/// One octet.
#[tactic(auto, unfolding(crate::specs::Parts::octet_at))]
pub fn octet_at(octets: &[u8]) -> Option<(u8, &[u8])>
    ensures { at (λ n. n) result ≡ octet_at octets.now }
{
    match octets {
        [] => None,
        [octet, rest @ ..] => Some((*octet, rest)),
    }
}

/// The first `count` octets, and what follows them.
#[tactic(auto, unfolding(crate::specs::Parts::fixed_at))]
pub fn fixed_at(count: usize, octets: &[u8]) -> Option<(&[u8], &[u8])>
    ensures { at (λ s. s.now) result ≡ fixed_at count octets.now }
{
    if octets.len() < count {
        return None;
    }
    Some(octets.split_at(count))
}

/// Octets after a length of one octet.
#[tactic(auto, unfolding(crate::specs::Parts::short_at))]
pub fn short_at(octets: &[u8]) -> Option<(&[u8], &[u8])>
    ensures { at (λ s. s.now) result ≡ short_at octets.now }
{
    let (count, rest) = octet_at(octets)?;
    fixed_at(count as usize, rest)
}

/// Octets after a length of two octets.
#[tactic(auto, unfolding(crate::specs::Parts::long_at))]
pub fn long_at(octets: &[u8]) -> Option<(&[u8], &[u8])>
    ensures { at (λ s. s.now) result ≡ long_at octets.now }
{
    let (high, rest) = octet_at(octets)?;
    let (low, rest) = octet_at(rest)?;
    fixed_at(high as usize * 256 + low as usize, rest)
}

/// The octets after an octet that is known.
pub fn constant_at(expected: u8, octets: &[u8]) -> Option<((), &[u8])>
    ensures { at (λ _. tt) result ≡ read_part (constant expected) octets.now }
{
    let (octet, rest) = octet_at(octets)?;
    if octet != expected {
        return None;
    }
    Some(((), rest))
}

/// From `low` to `high` octets after their length.
pub fn bounded_at(low: usize, high: usize, octets: &[u8]) -> Option<(&[u8], &[u8])>
    ensures { at (λ s. s.now) result ≡ read_part (lv (between low high)) octets.now }
{
    let (content, rest) = short_at(octets)?;
    if content.len() < low {
        return None;
    }
    if content.len() > high {
        return None;
    }
    Some((content, rest))
}

/// An identity after its length.
pub fn identity_at(octets: &[u8]) -> Option<(MobileIdentity, &[u8])>
    ensures { at (λ i. i) result ≡ read_part (lv identity) octets.now }
{
    let (content, rest) = short_at(octets)?;
    Some((MobileIdentity::of_octets(content)?, rest))
}

/// A GUTI after its length.
pub fn guti_at(octets: &[u8]) -> Option<(Guti, &[u8])>
    ensures { at (λ g. g) result ≡ read_part (lv guti) octets.now }
{
    let (content, rest) = short_at(octets)?;
    Some((Guti::of_octets(content)?, rest))
}

/// A list of one tracking area after its length.
pub fn tai_list_at(octets: &[u8]) -> Option<(TaiList, &[u8])>
    ensures { at (λ a. a) result ≡ read_part (lv tai_list) octets.now }
{
    let (content, rest) = short_at(octets)?;
    Some((TaiList::of_octets(content)?, rest))
}

/// A label of 1 to 63 octets after two lengths: its own, and that of both.
pub fn label_at(octets: &[u8]) -> Option<(&[u8], &[u8])>
    ensures { at (λ s. s.now) result ≡ read_part (lv label) octets.now }
{
    let (content, rest) = short_at(octets)?;
    let name = label_of(content)?;
    Some((name, rest))
}

#[tactic(auto, unfolding(crate::specs::Identities::label_of))]
fn label_of(octets: &[u8]) -> Option<&[u8]>
    ensures { octets_of result ≡ label_of octets.now }
{
    let [count, name @ ..] = octets else {
        return None;
    };
    if *count as usize != name.len() {
        return None;
    }
    if *count < 1 {
        return None;
    }
    if *count > 63 {
        return None;
    }
    Some(name)
}
