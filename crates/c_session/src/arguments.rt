//! Arguments of calls, each from what it is given as.

ghost use Rattle.std.specs.Prelude.{◌≡◌, ◌<◌, ◌^◌};
ghost use Rattle.c_session.specs.Arguments.{apn_of, imsi_of, network_of, profile_of, rate_of, sized, station_of, vector_of, xres_of};

use crate::refusal::{Refusal, of_line};
use identity_slots::{GivenKasme, Profile, StationNumber, Vector, Xres};
use mme_types::{AggregateBitRate, Apn, Network};
use nas_elements::Imsi;
use per_bits::Octets;
use trace_words::fields;

/// The station of a number below 128, else BadNumber.
pub(crate) fn station_of(number: u8) -> Result<StationNumber, Refusal>
    ensures { result ≡ station_of number }
{
    if number < 128 {
        Ok(StationNumber::new(number))
    } else {
        Err(Refusal::BadNumber)
    }
}

/// An IMSI in its 14 or 15 digits, else BadNumber.
pub(crate) fn imsi_of(text: &[u8]) -> Result<Imsi, Refusal>
    ensures { result ≡ imsi_of text.now }
{
    match fields::imsi(text) {
        Ok(imsi) => Ok(imsi),
        Err(fault) => Err(of_line(fault)),
    }
}

/// `N` octets, no more and no fewer, else BadOctets.
fn sized<const N: usize>(octets: &[u8]) -> Result<[u8; N], Refusal>
    requires { N < 2 ^ 32 }
    ensures { result ≡ sized N octets.now }
{
    if octets.len() != N {
        return Err(Refusal::BadOctets);
    }
    let mut all = [0u8; N];
    all.copy_from_slice(octets);
    Ok(all)
}

fn xres_of(octets: &[u8]) -> Result<Xres, Refusal>
    ensures { result ≡ xres_of octets.now }
{
    if octets.len() < 4 || octets.len() > 16 {
        return Err(Refusal::BadOctets);
    }
    match Xres::try_new(octets) {
        Some(xres) => Ok(xres),
        None => Err(Refusal::BadOctets),
    }
}

fn apn_of(text: &[u8]) -> Result<Apn, Refusal>
    ensures { result ≡ apn_of text.now }
{
    Apn::try_new(text).ok_or(Refusal::BadNumber)
}

fn rate_of(rate: u64) -> Result<AggregateBitRate, Refusal>
    ensures { result ≡ rate_of rate }
{
    if rate < 1 || rate > 10_000_000_000 {
        return Err(Refusal::BadNumber);
    }
    Ok(AggregateBitRate::new(rate))
}

/// What the MME is, and what it grants each phone.
pub(crate) fn network_of(
    plmn: &[u8],
    group: u16,
    code: u8,
    apn: &[u8],
    down: u64,
    up: u64,
) -> Result<Network, Refusal>
    ensures { result ≡ network_of plmn.now group code apn.now down up }
{
    Ok(Network {
        plmn: Octets::new(sized::<3>(plmn)?),
        group: Octets::new(group.to_be_bytes()),
        code: Octets::new([code]),
        apn: apn_of(apn)?,
        down: rate_of(down)?,
        up: rate_of(up)?,
    })
}

/// A subscriber, whose addresses and tunnel end are numbers.
pub(crate) fn profile_of(
    imsi: &[u8],
    address: u32,
    gateway: u32,
    teid: u32,
) -> Result<Profile, Refusal>
    ensures { result ≡ profile_of imsi.now address gateway teid }
{
    Ok(Profile {
        imsi: imsi_of(imsi)?,
        address: address.to_be_bytes(),
        gateway: gateway.to_be_bytes(),
        teid: teid.to_be_bytes(),
    })
}

/// An authentication vector.
pub(crate) fn vector_of(
    rand: &[u8],
    autn: &[u8],
    xres: &[u8],
    kasme: &[u8],
) -> Result<Vector, Refusal>
    ensures { result ≡ vector_of rand.now autn.now xres.now kasme.now }
{
    Ok(Vector {
        rand: sized::<16>(rand)?,
        autn: sized::<16>(autn)?,
        xres: xres_of(xres)?,
        kasme: GivenKasme::new(sized::<32>(kasme)?),
    })
}
