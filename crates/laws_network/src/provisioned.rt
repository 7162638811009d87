//! What an MME is given is in range by its types.

ghost use Rattle.std.specs.Prelude.{◌≡◌, ℕ, ◌<◌, length, slice_get, true, Some};
ghost use Rattle.per_streams.specs.Octet.{all_below};
ghost use Rattle.identity_slots.specs.Ids.{slots};
ghost use Rattle.identity_slots.specs.declared.profile.Vector.{Vector};
ghost use Rattle.laws_network.specs.Ranges.{NetworkInRange, ProfileInRange, VectorInRange};
ghost use Rattle.laws_network.specs.WorldRanges.{IsProvisionedInRange};

use identity_slots::{Profile, Provision, Slot, Vector};
use mme_core::Config;
use mme_types::Network;

/// What goes into messages of a configuration and of a provisioning is in range, whatever they are.
pub fn provisioned_is_in_range(config: &Config, provision: &Provision)
    ensures { IsProvisionedInRange config.now provision.now }
{
    network_is_in_range(&config.network);
    for place in 0..provision.len() {
        let slot = slot_of(place);
        profile_is_in_range(provision.profile(slot));
        vectors_are_in_range(provision.vectors(slot));
    }
}

// The slot of a place.
fn slot_of(place: usize) -> Slot
    requires { place < slots }
    ensures { result ≡ place }
{
    Slot::new(place as u32)
}

fn network_is_in_range(network: &Network)
    ensures { NetworkInRange network.now }
{
    octets_are_below(&network.plmn.get());
    octets_are_below(&network.group.get());
    octets_are_below(&network.code.get());
    octets_are_below(network.apn.as_slice());
    let _ = network.down.get();
    let _ = network.up.get();
}

fn profile_is_in_range(profile: &Profile)
    ensures { ProfileInRange profile.now }
{
    octets_are_below(&profile.address);
    octets_are_below(&profile.gateway);
    octets_are_below(&profile.teid);
}

fn vectors_are_in_range(vectors: &[Vector])
    ensures { (place : ℕ) (v : Vector) → slice_get vectors.now place ≡ Some v → VectorInRange v }
{
    for vector in vectors {
        vector_is_in_range(vector);
    }
}

fn vector_is_in_range(vector: &Vector)
    ensures { VectorInRange vector.now }
{
    octets_are_below(&vector.rand);
    octets_are_below(&vector.autn);
}

fn octets_are_below(octets: &[u8])
    ensures { all_below 256 octets.now ≡ true }
{
    let _ = octets;
}
