//! Messages and keys, without a handle.

ghost use Rattle.std.specs.Prelude.{◌≡◌, Ok};
ghost use Rattle.c_codecs.specs.Faults.{number_of};
ghost use Rattle.c_codecs.specs.Keys.{derived_kenb, derived_nas_integrity_key, derived_next_hop, mac_of};
ghost use Rattle.c_codecs.specs.Nas.{nas_parts, nas_type};
ghost use Rattle.mme_c.specs.Codecs.{IsFound, IsKey, IsMessage, has_id, id_or_0, in_form, message_ids};

use crate::numbers::OK;
use c_codecs::{
    CodecFault, S1apMessage, derived_kenb, derived_nas_integrity_key, derived_next_hop, mac_of,
    nas_parts, nas_type, s1ap_message,
};
use std::alloc::Global;

/// The version of the library.
#[repr(C)]
#[derive(Drop)]
pub struct Release {
    pub major: u32,
    pub minor: u32,
    pub patch: u32,
}

/// An S1AP message by its kind and the ids of the one association that it names; 0 where it names none.
#[repr(C)]
#[derive(Drop)]
pub struct MessageIds {
    pub kind: u32,
    pub has_mme_ue_id: u32,
    pub mme_ue_id: u32,
    pub has_enb_ue_id: u32,
    pub enb_ue_id: u32,
}

/// A NAS message in the protected form, but for the plain message in it.
#[repr(C)]
#[derive(Drop)]
pub struct NasForm {
    pub header: u32,
    pub mac: u32,
    pub sequence: u32,
}

/// The version of the library.
#[unsafe(no_mangle)]
pub extern "C" fn soizkadur_version(release: &mut Release)
    ensures { release.new ≡ record { major = 1; minor = 0; patch = 0 } }
{
    *release = Release {
        major: 1,
        minor: 0,
        patch: 0,
    };
}

/// The number of a fault.
fn refused(fault: CodecFault) -> u32
    ensures { result ≡ number_of fault }
{
    u32::from(fault.number())
}

/// The S1AP message that these octets spell, by its kind and its ids.
#[unsafe(no_mangle)]
pub extern "C" fn soizkadur_s1ap(alloc: Global, octets: &[u8], message: &mut MessageIds) -> u32
    ensures { IsMessage octets.now message.old result message.new }
{
    match s1ap_message(alloc, octets) {
        Ok(found) => {
            *message = message_ids(found);
            OK
        }
        Err(fault) => refused(fault),
    }
}

fn message_ids(message: S1apMessage) -> MessageIds
    ensures { result ≡ message_ids message }
{
    MessageIds {
        kind: u32::from(message.kind),
        has_mme_ue_id: has_id(message.mme_ue_id),
        mme_ue_id: id_or_0(message.mme_ue_id),
        has_enb_ue_id: has_id(message.enb_ue_id),
        enb_ue_id: id_or_0(message.enb_ue_id),
    }
}

fn has_id(id: Option<u32>) -> u32
    ensures { result ≡ has_id id }
{
    match id {
        Some(_) => 1,
        None => 0,
    }
}

fn id_or_0(id: Option<u32>) -> u32
    ensures { result ≡ id_or_0 id }
{
    match id {
        Some(id) => id,
        None => 0,
    }
}

/// The type of the plain EMM message that these octets are, if that direction sends them.
#[unsafe(no_mangle)]
pub extern "C" fn soizkadur_nas(octets: &[u8], direction: u32, kind: &mut u32) -> u32
    ensures { IsFound (nas_type octets.now direction) kind.old result kind.new }
{
    match nas_type(octets, direction) {
        Ok(found) => {
            *kind = u32::from(found);
            OK
        }
        Err(fault) => refused(fault),
    }
}

/// The parts of a NAS message in the protected form.
#[unsafe(no_mangle)]
pub extern "C" fn soizkadur_nas_protected(octets: &[u8], parts: &mut NasForm) -> u32
    ensures { IsFound (in_form (nas_parts octets.now)) parts.old result parts.new }
{
    match nas_parts(octets) {
        Ok(found) => {
            *parts = NasForm {
                header: u32::from(found.header),
                mac: found.mac,
                sequence: u32::from(found.sequence),
            };
            OK
        }
        Err(fault) => refused(fault),
    }
}

/// The MAC of 128-EIA2 of octets under a key.
#[unsafe(no_mangle)]
pub extern "C" fn soizkadur_eia2(
    key: &[u8],
    count: u32,
    direction: u32,
    octets: &[u8],
    mac: &mut u32,
) -> u32
    ensures { IsFound (mac_of key.now count direction octets.now) mac.old result mac.new }
{
    match mac_of(key, count, direction, octets) {
        Ok(found) => {
            *mac = found;
            OK
        }
        Err(fault) => refused(fault),
    }
}

/// Writes a key that was derived, where there is room for it and no more.
fn write_key(derived: &[u8], key: &mut [u8]) -> u32
    ensures { IsKey (Ok derived.now) key.old result key.new }
{
    if key.len() != derived.len() {
        return refused(CodecFault::BadOctets);
    }
    key.copy_from_slice(derived);
    OK
}

/// The key KeNB of KASME and an uplink NAS COUNT.
#[unsafe(no_mangle)]
pub extern "C" fn soizkadur_kenb(kasme: &[u8], count: u32, key: &mut [u8]) -> u32
    ensures { IsKey (derived_kenb kasme.now count) key.old result key.new }
{
    match derived_kenb(kasme, count) {
        Ok(derived) => write_key(&derived, key),
        Err(fault) => refused(fault),
    }
}

/// The next hop key NH of KASME and the key before it.
#[unsafe(no_mangle)]
pub extern "C" fn soizkadur_next_hop(kasme: &[u8], previous: &[u8], key: &mut [u8]) -> u32
    ensures { IsKey (derived_next_hop kasme.now previous.now) key.old result key.new }
{
    match derived_next_hop(kasme, previous) {
        Ok(derived) => write_key(&derived, key),
        Err(fault) => refused(fault),
    }
}

/// The key of NAS integrity by 128-EIA2, of KASME.
#[unsafe(no_mangle)]
pub extern "C" fn soizkadur_nas_integrity_key(kasme: &[u8], key: &mut [u8]) -> u32
    ensures { IsKey (derived_nas_integrity_key kasme.now) key.old result key.new }
{
    match derived_nas_integrity_key(kasme) {
        Ok(derived) => write_key(&derived, key),
        Err(fault) => refused(fault),
    }
}
