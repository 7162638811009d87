//! What an MME begins with: its stations, the subscribers of a provisioning, and no strangers; and one subscriber more.

ghost use Rattle.std.specs.Prelude.{◌≡◌, ◌<◌, ◌≤◌, ◌++◌, ◌∷◌, [], length, IfOk, OnErr, OnOk};
ghost use Rattle.identity_slots.specs.Ids.{slots};
ghost use Rattle.s1ap_pdus.specs.Pdus.{encoded};
ghost use Rattle.mme_types.specs.Stations.{no_stations};
ghost use Rattle.mme_routing.specs.Outcomes.{setup_response};
ghost use Rattle.mme_core.specs.World.{fresh_subscribers, never_seen};

use emm_machine::Subscriber;
use identity_slots::{Profile, Provision, Slot, Vectors};
use mme_owners::Owners;
use mme_routing::setup_response;
use mme_types::{EnbWorld, Network, SentOctets, SharedNetwork};
use std::alloc::{AllocError, Global};

/// The slot of a place.
pub(crate) fn slot_of(place: usize) -> Slot
    requires { place < slots }
    ensures { result ≡ place }
{
    Slot::new(place as u32)
}

/// A network, to be shared.
fn share(alloc: Global, network: &Network) -> Result<SharedNetwork, AllocError>
    ensures { IfOk result (λ s. s ≡ network.now) }
{
    SharedNetwork::new(alloc, network.clone()?)
}

/// S1 SETUP RESPONSE of a network, and the network to be shared.
pub(crate) fn prepare(
    alloc: Global,
    network: &Network,
) -> Result<(Option<SentOctets>, SharedNetwork), AllocError>
    ensures response { IfOk result (λ p. p.0 ≡ encoded (setup_response network.now)) }
    ensures shared { IfOk result (λ p. p.1 ≡ network.now) }
{
    let setup_response = setup_response(alloc, network)?;
    let shared = share(alloc, network)?;
    Ok((setup_response, shared))
}

/// One subscriber more, who was never seen, with its vectors. Refused, all are as they were.
pub(crate) fn push_fresh(
    alloc: Global,
    network: &SharedNetwork,
    owners: &mut Owners,
    slot: Slot,
    profile: &Profile,
    vectors: Vectors,
) -> Result<(), AllocError>
    requires { length owners.old.subscribers < slots }
    ensures clock { owners.new.clock ≡ owners.old.clock }
    ensures strangers { owners.new.strangers ≡ owners.old.strangers }
    ensures ok { OnOk result
        (owners.new.subscribers ≡ owners.old.subscribers ++ never_seen network.now slot profile.now vectors ∷ []) }
    ensures err { OnErr result (owners.new ≡ owners.old) }
{
    let subscriber = Subscriber::new(alloc, network, slot, profile, vectors)?;
    owners.push(subscriber)
}

/// No strangers, and the subscribers of a provisioning, who were never seen; their vectors are taken out of it.
pub(crate) fn fresh_owners(
    alloc: Global,
    network: &SharedNetwork,
    provision: &mut Provision,
) -> Result<Owners, AllocError>
    ensures clock { IfOk result (λ t. t.clock ≡ 0) }
    ensures strangers { IfOk result (λ t. t.strangers ≡ []) }
    ensures value { IfOk result
        (λ t. t.subscribers ≡ fresh_subscribers network.now 0 provision.old.profiles provision.old.vectors) }
    ensures few { OnOk result (length provision.old.profiles ≤ slots) }
    ensures profiles { OnOk result (provision.new.profiles ≡ provision.old.profiles) }
{
    let count = provision.len();
    let mut owners = Owners::new(alloc, 0);
    for place in 0..count {
        let slot = slot_of(place);
        let vectors = provision.take_vectors(slot);
        let profile = provision.profile(slot);
        match push_fresh(alloc, network, &mut owners, slot, profile, vectors) {
            Ok(()) => {}
            Err(fault) => {
                // (where the scope ended them, each part of them would be ended here)
                drop(owners);
                return Err(fault);
            }
        }
    }
    Ok(owners)
}

/// What an MME begins with beside its configuration and who is provisioned.
#[derive(Drop)]
pub(crate) struct Begun {
    pub(crate) stations: EnbWorld,
    pub(crate) setup_response: Option<SentOctets>,
    pub(crate) shared: SharedNetwork,
    pub(crate) owners: Owners,
}

/// All stations are down, S1 SETUP RESPONSE has its octets, and nobody was seen; vectors are taken out of the provisioning.
pub(crate) fn begin(
    alloc: Global,
    network: &Network,
    provision: &mut Provision,
) -> Result<Begun, AllocError>
    ensures stations { IfOk result (λ b. b.stations ≡ no_stations) }
    ensures response { IfOk result (λ b. b.setup_response ≡ encoded (setup_response network.now)) }
    ensures shared { IfOk result (λ b. b.shared ≡ network.now) }
    ensures clock { IfOk result (λ b. b.owners.clock ≡ 0) }
    ensures strangers { IfOk result (λ b. b.owners.strangers ≡ []) }
    ensures value { IfOk result
        (λ b. b.owners.subscribers ≡ fresh_subscribers network.now 0 provision.old.profiles provision.old.vectors) }
    ensures few { OnOk result (length provision.old.profiles ≤ slots) }
    ensures profiles { OnOk result (provision.new.profiles ≡ provision.old.profiles) }
{
    let stations = EnbWorld::new(alloc)?;
    let (setup_response, shared) = prepare(alloc, network)?;
    let owners = fresh_owners(alloc, &shared, provision)?;
    Ok(Begun {
        stations,
        setup_response,
        shared,
        owners,
    })
}
