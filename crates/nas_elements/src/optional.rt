//! The optional part of a message: the elements after its mandatory part (TS 24.007 clause 11.2.4).

ghost use Rattle.std.specs.Prelude.{◌≡◌, ◌++◌, option_map, ok_or, OnOk};
ghost use Rattle.nas_elements.specs.Optionals.{FitsBy, cause_rule, element_at, elements, first, rule_of, write_by};
ghost use Rattle.nas_elements.specs.Rows.{OptionalFits, is_set, write_optional};
ghost use Rattle.nas_elements.specs.Seen.{at, element_of, octets_of};

use crate::fault::NasFault;
use crate::identifier;
use crate::reading::{fixed_at, long_at, octet_at, short_at};
use crate::rule::{Domain, Element, Rule};
use crate::writing::{put_fixed, put_long, put_octet, put_short};
use std::alloc::AllocError;
use std::marker::Model;

fn cause_rule(domain: Domain) -> Rule
    ensures { result ≡ cause_rule domain }
{
    match domain {
        Domain::Emm => Rule::ByOctet,
        Domain::Esm => Rule::Fixed(1),
    }
}

#[tactic(auto, unfolding(crate::specs::Optionals::rule_of))]
fn rule_of(domain: Domain, iei: u8) -> Rule
    ensures { result ≡ rule_of domain iei }
{
    if 0x80 <= iei {
        return Rule::Itself;
    }
    if identifier::ESM_MESSAGE_CONTAINER <= iei {
        return Rule::ByTwo;
    }
    if iei == identifier::OLD_LOCATION_AREA {
        return Rule::Fixed(5);
    }
    if iei == identifier::OLD_P_TMSI_SIGNATURE {
        return Rule::Fixed(3);
    }
    if iei == identifier::LAST_VISITED_TAI {
        return Rule::Fixed(5);
    }
    if iei == identifier::DRX_PARAMETER {
        return Rule::Fixed(2);
    }
    if iei == identifier::NONCE {
        return Rule::Fixed(4);
    }
    if iei == identifier::EMM_CAUSE {
        return Rule::Fixed(1);
    }
    if iei == identifier::T3412_VALUE {
        return Rule::Fixed(1);
    }
    if iei == identifier::ESM_CAUSE {
        return cause_rule(domain);
    }
    Rule::ByOctet
}

/// The element at the front, and the octets after it; `None` where it ends past the octets.
#[tactic(auto, unfolding(crate::specs::Optionals::element_at, crate::specs::Parts::octet_at))]
pub fn element_at(domain: Domain, octets: &[u8]) -> Option<(Element<&[u8]>, &[u8])>
    ensures { at element_of result ≡ element_at domain octets.now }
{
    match octets {
        [] => None,
        [iei, rest @ ..] => match rule_of(domain, *iei) {
            Rule::Itself => {
                let element = Element {
                    iei: *iei / 16 * 16,
                    octets: &octets[..1],
                };
                Some((element, rest))
            }
            Rule::Fixed(count) => {
                let (content, rest) = fixed_at(count, rest)?;
                let element = Element {
                    iei: *iei,
                    octets: content,
                };
                Some((element, rest))
            }
            Rule::ByOctet => {
                let (content, rest) = short_at(rest)?;
                let element = Element {
                    iei: *iei,
                    octets: content,
                };
                Some((element, rest))
            }
            Rule::ByTwo => {
                let (content, rest) = long_at(rest)?;
                let element = Element {
                    iei: *iei,
                    octets: content,
                };
                Some((element, rest))
            }
        },
    }
}

/// The optional part of a message. All messages skip optional parts by this one definition, and of repeated elements the first
/// counts.
///
/// It is octets that the rules part into elements, of which contracts see the list.
#[derive(Drop)]
pub struct Optional<'a> {
    domain: Domain,
    octets: &'a [u8],
}

impl<'a> Model for Optional<'a> {
    ghost use Rattle.std.specs.Prelude.{◌≡◌, ℕ, List, is_some, true};
    ghost use Rattle.nas_elements.specs.declared.rule.Element.{Element};
    ghost use Rattle.nas_elements.specs.Optionals.{elements, elements_in};

    ghost Value = { List (Element (List ℕ)) };

    ghost view = { λ o. elements_in o.domain o.octets.now };

    ghost invariant = { λ o. is_some (elements o.domain o.octets.now) ≡ true };
}

impl<'a> Optional<'a> {
    /// The elements of an optional part; the fault OptionalPart where one ends past the octets. Takes no memory.
    pub fn read(domain: Domain, octets: &'a [u8]) -> Result<Optional<'a>, NasFault>
        ensures { result ≡ ok_or (elements domain octets.entry.now) NasFault.OptionalPart }
    {
        match Optional::parted(domain, octets) {
            Some(optional) => Ok(optional),
            None => Err(NasFault::OptionalPart),
        }
    }

    fn parted(domain: Domain, octets: &'a [u8]) -> Option<Optional<'a>>
        ensures { result ≡ elements domain octets.entry.now }
    {
        let mut rest = octets;
        while rest.len() > 0 {
            let Some((_, after)) = element_at(domain, rest) else {
                return None;
            };
            rest = after;
        }
        Some(Optional { domain, octets })
    }

    /// The octets of the first element with this identifier, without identifier and length; of an element of one octet, that
    /// octet.
    pub fn find(&self, iei: u8) -> Option<&'a [u8]>
        ensures { octets_of result ≡ first iei self.now }
    {
        let mut rest = self.octets;
        while rest.len() > 0 {
            let Some((element, after)) = element_at(self.domain, rest) else {
                return None;
            };
            if element.iei == iei {
                return Some(element.octets);
            }
            rest = after;
        }
        None
    }
}

/// Whether an element is there and bit 1 of its first octet is set.
pub fn is_set(element: Option<&[u8]>) -> bool
    ensures { result ≡ is_set (octets_of element.entry) }
{
    match element {
        Some([octet, ..]) => *octet % 2 == 1,
        _ => false,
    }
}

/// Appends an element after its identifier and its length, if there is one.
pub fn put_element(
    out: &mut Vec<u8>,
    domain: Domain,
    iei: u8,
    element: Option<&[u8]>,
) -> Result<(), AllocError>
    requires { OptionalFits domain iei (octets_of element) }
    ensures { OnOk result (out.new.items ≡ out.old.items ++ write_optional domain iei (octets_of element.entry)) }
{
    let Some(octets) = element else {
        return Ok(());
    };
    put_by(out, rule_of(domain, iei), iei, octets)
}

fn put_by(out: &mut Vec<u8>, rule: Rule, iei: u8, octets: &[u8]) -> Result<(), AllocError>
    requires { FitsBy rule iei octets.now }
    ensures { OnOk result (out.new.items ≡ out.old.items ++ write_by rule iei octets.now) }
{
    match rule {
        Rule::Itself => put_fixed(out, octets),
        Rule::Fixed(_) => {
            put_octet(out, iei)?;
            put_fixed(out, octets)
        }
        Rule::ByOctet => {
            put_octet(out, iei)?;
            put_short(out, octets)
        }
        Rule::ByTwo => {
            put_octet(out, iei)?;
            put_long(out, octets)
        }
    }
}
