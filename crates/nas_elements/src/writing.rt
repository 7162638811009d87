//! Writing parts at the end of octets. Where memory is refused, a part may be there in part.

ghost use Rattle.std.specs.Prelude.{◌≡◌, ◌++◌, ◌∷◌, ◌<◌, [], length, OnOk};
ghost use Rattle.nas_elements.specs.Parts.{guti, identity, label, lv, short, tai_list, wide, write_part, PartFits};

use crate::identity::{Guti, MobileIdentity, TaiList};
use std::alloc::AllocError;

/// Appends one octet.
pub fn put_octet(out: &mut Vec<u8>, octet: u8) -> Result<(), AllocError>
    ensures { OnOk result (out.new.items ≡ out.old.items ++ octet ∷ []) }
{
    out.push(octet)?;
    Ok(())
}

/// Appends octets without a length.
pub fn put_fixed(out: &mut Vec<u8>, octets: &[u8]) -> Result<(), AllocError>
    ensures { OnOk result (out.new.items ≡ out.old.items ++ octets.now) }
{
    Ok(out.extend_from_slice(octets)?)
}

/// Appends octets after a length of one octet.
pub fn put_short(out: &mut Vec<u8>, octets: &[u8]) -> Result<(), AllocError>
    requires { length octets.now < 256 }
    ensures { OnOk result (out.new.items ≡ out.old.items ++ short octets.now) }
{
    out.push(octets.len() as u8)?;
    out.extend_from_slice(octets)?;
    Ok(())
}

/// Appends octets after a length of two octets.
pub fn put_long(out: &mut Vec<u8>, octets: &[u8]) -> Result<(), AllocError>
    requires { length octets.now < 65536 }
    ensures { OnOk result (out.new.items ≡ out.old.items ++ wide octets.now) }
{
    out.push((octets.len() / 256) as u8)?;
    out.push((octets.len() % 256) as u8)?;
    out.extend_from_slice(octets)?;
    Ok(())
}

/// Appends a GUTI after its length.
#[tactic(auto, unfolding(crate::specs::Identities::guti_octets))]
pub fn put_guti(out: &mut Vec<u8>, value: &Guti) -> Result<(), AllocError>
    requires { PartFits (lv guti) value.now }
    ensures { OnOk result (out.new.items ≡ out.old.items ++ write_part (lv guti) value.now) }
{
    out.push(11)?;
    Ok(out.extend_from_slice(&value.octets())?)
}

/// Appends an identity after its length.
#[tactic(auto, unfolding(crate::specs::Digits::imsi_octets))]
pub fn put_identity(out: &mut Vec<u8>, value: &MobileIdentity) -> Result<(), AllocError>
    requires { PartFits (lv identity) value.now }
    ensures { OnOk result (out.new.items ≡ out.old.items ++ write_part (lv identity) value.now) }
{
    match value {
        MobileIdentity::Imsi(imsi) => {
            out.push(8)?;
            Ok(out.extend_from_slice(&imsi.octets())?)
        }
        MobileIdentity::Temporary(guti) => put_guti(out, guti),
    }
}

/// Appends a list of one tracking area after its length.
#[tactic(auto, unfolding(crate::specs::Identities::tai_list_octets))]
pub fn put_tai_list(out: &mut Vec<u8>, value: &TaiList) -> Result<(), AllocError>
    requires { PartFits (lv tai_list) value.now }
    ensures { OnOk result (out.new.items ≡ out.old.items ++ write_part (lv tai_list) value.now) }
{
    out.push(6)?;
    Ok(out.extend_from_slice(&value.octets())?)
}

/// Appends a label after two lengths: its own, and that of both.
pub fn put_label(out: &mut Vec<u8>, octets: &[u8]) -> Result<(), AllocError>
    requires { PartFits (lv label) octets.now }
    ensures { OnOk result (out.new.items ≡ out.old.items ++ write_part (lv label) octets.now) }
{
    out.push((octets.len() + 1) as u8)?;
    put_short(out, octets)
}
