//! The fields of acts, each from its text.

ghost use Rattle.std.specs.Prelude.{◌≡◌, ◌<◌, IfOk};
ghost use Rattle.trace_words.specs.Script.{area_field, enb_ue_id_field, five_digits, hex_digit, macro_field};

use crate::fault::TraceFault;
use crate::fields::{number, sized_octets};
use crate::script_values::MacroId;
use per_bits::Whole;
use s1ap_elements::EnbUeId;

/// One hex digit, of either case.
fn hex_digit(octet: u8) -> Result<u32, TraceFault>
    ensures value { result ≡ hex_digit octet }
    ensures small { IfOk result (λ d. d < 16) }
{
    match octet {
        b'A'..=b'F' => Ok(u32::from(octet - b'A' + 10)),
        b'a'..=b'f' => Ok(u32::from(octet - b'a' + 10)),
        b'0'..=b'9' => Ok(u32::from(octet - b'0')),
        _ => Err(TraceFault::BadNumber),
    }
}

/// The id of a macro eNodeB, in five hex digits.
pub(crate) fn macro_id(text: &[u8]) -> Result<MacroId, TraceFault>
    ensures { result ≡ macro_field text.now }
{
    match text {
        [a, b, c, d, e] => five_digits(*a, *b, *c, *d, *e),
        _ => Err(TraceFault::BadNumber),
    }
}

fn five_digits(a: u8, b: u8, c: u8, d: u8, e: u8) -> Result<MacroId, TraceFault>
    ensures { result ≡ five_digits a b c d e }
{
    let first = 65536 * hex_digit(a)?;
    let second = 4096 * hex_digit(b)?;
    let third = 256 * hex_digit(c)?;
    let fourth = 16 * hex_digit(d)?;
    let fifth = hex_digit(e)?;
    Ok(MacroId::new(first + second + third + fourth + fifth))
}

/// An eNB UE S1AP ID, in 24 bits (TS 36.413 clause 9.2.3.4).
pub(crate) fn enb_ue_id(text: &[u8]) -> Result<EnbUeId, TraceFault>
    ensures { result ≡ enb_ue_id_field text.now }
{
    Ok(Whole::new(number(text, 0, 0xff_ffff)?))
}

/// A tracking area code, in four hex digits.
pub(crate) fn tracking_area(text: &[u8]) -> Result<[u8; 2], TraceFault>
    ensures { result ≡ area_field text.now }
{
    match sized_octets::<2>(text) {
        Ok(code) => Ok(code),
        Err(_) => Err(TraceFault::BadNumber),
    }
}
