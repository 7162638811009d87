//! Printable names.

ghost use Rattle.std.specs.Prelude.{◌≡◌, option_map};

use per_bits::{Closed, SizedString};

/// A printable name of 1 to 150 octets, any of them (TS 36.413 clauses 9.1.8.4 and 9.1.8.5).
pub type Name<'a> = Closed<SizedString<'a, 1, 150>>;

/// A name's octets.
pub fn octets_of_name<'a>(name: Option<Name<'a>>) -> Option<&'a [u8]>
    ensures { option_map (λ s. s.now) result ≡ option_map (λ n. n.value.octets.now) name.entry }
{
    match name {
        Some(name) => Some(name.value.octets),
        None => None,
    }
}

/// The name of these octets.
pub fn name_of_octets<'a>(octets: Option<&'a [u8]>) -> Option<Name<'a>>
    ensures { option_map (λ n. n.value.octets.now) result ≡ option_map (λ s. s.now) octets.entry }
{
    match octets {
        Some(octets) => Some(Closed {
            value: SizedString { octets },
        }),
        None => None,
    }
}
