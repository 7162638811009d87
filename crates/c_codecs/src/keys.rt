//! MACs and derived keys (TS 33.401 annexes A and B).

ghost use Rattle.std.specs.Prelude.{◌≡◌, ◌<◌, ◌^◌};
ghost use Rattle.c_codecs.specs.Keys.{bit_of, derived_kenb, derived_nas_integrity_key, derived_next_hop, mac_of, sized};

use crate::fault::CodecFault;
use eps_keys::{DirectionBit, eia2, kenb, nas_integrity_key, next_hop};

/// `N` octets, no more and no fewer, else BadOctets.
fn sized<const N: usize>(octets: &[u8]) -> Result<[u8; N], CodecFault>
    requires { N < 2 ^ 32 }
    ensures { result ≡ sized N octets.now }
{
    if octets.len() != N {
        return Err(CodecFault::BadOctets);
    }
    let mut all = [0u8; N];
    all.copy_from_slice(octets);
    Ok(all)
}

fn bit_of(number: u32) -> Result<DirectionBit, CodecFault>
    ensures { result ≡ bit_of number }
{
    match number {
        0 => Ok(DirectionBit::Uplink),
        1 => Ok(DirectionBit::Downlink),
        _ => Err(CodecFault::BadNumber),
    }
}

/// The MAC of octets by 128-EIA2 under a key of 16 octets, its first octet the highest; direction 0 is from the phone and 1 to it.
/// BadOctets for another key, then BadNumber for another direction.
pub fn mac_of(key: &[u8], count: u32, direction: u32, octets: &[u8]) -> Result<u32, CodecFault>
    ensures { result ≡ mac_of key.now count direction octets.now }
{
    let key = sized::<16>(key)?;
    let direction = bit_of(direction)?;
    Ok(u32::from_be_bytes(eia2(&key, count, direction, octets)))
}

/// KeNB of KASME, 32 octets, and an uplink NAS COUNT. BadOctets for another KASME.
pub fn derived_kenb(kasme: &[u8], count: u32) -> Result<[u8; 32], CodecFault>
    ensures { result ≡ derived_kenb kasme.now count }
{
    let kasme = sized::<32>(kasme)?;
    Ok(*kenb(&kasme, count).octets())
}

/// The next hop key of KASME and the key before it, 32 octets each. BadOctets for others.
pub fn derived_next_hop(kasme: &[u8], previous: &[u8]) -> Result<[u8; 32], CodecFault>
    ensures { result ≡ derived_next_hop kasme.now previous.now }
{
    let kasme = sized::<32>(kasme)?;
    let previous = sized::<32>(previous)?;
    Ok(*next_hop(&kasme, &previous).octets())
}

/// The key of NAS integrity by 128-EIA2 of KASME, 32 octets. BadOctets for another KASME.
pub fn derived_nas_integrity_key(kasme: &[u8]) -> Result<[u8; 16], CodecFault>
    ensures { result ≡ derived_nas_integrity_key kasme.now }
{
    let kasme = sized::<32>(kasme)?;
    Ok(*nas_integrity_key(&kasme).octets())
}
