//! What the parts of a snapshot are to an MME.

ghost use Rattle.std.specs.Prelude.{◌≡◌, ◌<◌, IfOk, IfSome, IfNone, option_map, false, true};
ghost use Rattle.nas_elements.specs.Digits.{imsi_of};
ghost use Rattle.identity_slots.specs.Ids.{enb_ue_ids};
ghost use Rattle.stranger_machine.specs.Table.{stranger_at};
ghost use Rattle.snapshot_formats.specs.Heads.{typed_saved_head, typed_saved_network, typed_saved_station, typed_saved_stranger_state, typed_saved_waiting};
ghost use Rattle.snapshot_formats.specs.Subscribers.{typed_saved_subscriber};
ghost use Rattle.mme_snapshot.specs.Images.{hops_of, is_held_by, is_label, is_placed, is_timed, named_head, named_kept, named_network, named_profile, named_station, named_stranger};

use identity_slots::{
    AssociationId, COUNTERS, Profile, Slot, StationNumber, number_in, station_in,
};
use mme_core::Config;
use mme_tables::Strangers;
use mme_types::{Apn, Connection, NasOctets, Network, StationState};
use nas_elements::{Imsi, timers};
use per_bits::Whole;
use snapshot_formats::{
    SavedHead, SavedNetwork, SavedRadio, SavedStation, SavedStrangerState, SavedSubscriber,
    SavedWaiting,
};
use std::alloc::{AllocError, Global};
use stranger_machine::{KeptEntry, Stranger};

/// What stands first: the network and where the clock began, and where it is.
#[derive(Drop)]
pub(crate) struct Head {
    pub config: Config,
    pub clock: u64,
}

// The network of a head, where its access point name is a label.
fn network_of(saved: &SavedNetwork) -> Option<Network>
    ensures network { IfSome result (λ n. n ≡ named_network (typed_saved_network saved.now)) }
    ensures label { IfSome result (λ n. is_label saved.now.apn.octets.now ≡ true) }
    ensures none { IfNone result (is_label saved.now.apn.octets.now ≡ false) }
{
    let apn = Apn::try_new(saved.apn.octets)?;
    Some(Network {
        plmn: saved.plmn,
        group: saved.group,
        code: saved.code,
        apn,
        down: saved.down,
        up: saved.up,
    })
}

/// The head that is stored; none where its access point name isn't a label.
pub(crate) fn head_of(saved: &SavedHead) -> Option<Head>
    ensures head { IfSome result (λ h. h ≡ named_head (typed_saved_head saved.now)) }
    ensures label { IfSome result (λ h. is_label saved.now.network.apn.octets.now ≡ true) }
    ensures none { IfNone result (is_label saved.now.network.apn.octets.now ≡ false) }
{
    let network = network_of(&saved.network)?;
    Some(Head {
        config: Config {
            network,
            clock: saved.began.get(),
        },
        clock: saved.clock.get(),
    })
}

/// The state of a station.
pub(crate) fn station_of(saved: SavedStation) -> StationState
    ensures { result ≡ named_station (typed_saved_station saved) }
{
    match saved {
        SavedStation::Down => StationState::Down,
        SavedStation::Up => StationState::Up,
        SavedStation::Ready(areas) => StationState::Ready(areas),
    }
}

fn kept_of(alloc: Global, id: AssociationId, saved: &SavedWaiting) -> Result<KeptEntry, AllocError>
    ensures { IfOk result (λ k. k ≡ named_kept id (typed_saved_waiting saved.now)) }
{
    Ok(KeptEntry {
        station: StationNumber::new(station_in(id)),
        enb_ue_id: Whole::new(u64::from(number_in(id))),
        nas: NasOctets::new(Vec::from_slice(alloc, saved.nas.octets)?),
        tai: saved.tai,
    })
}

/// The stranger with an id.
pub(crate) fn stranger_of(
    alloc: Global,
    id: AssociationId,
    saved: &SavedStrangerState,
) -> Result<Stranger, AllocError>
    ensures { IfOk result (λ s. s ≡ named_stranger id (typed_saved_stranger_state saved.now)) }
{
    match saved {
        SavedStrangerState::Waiting(waiting) => Ok(Stranger::Waiting {
            kept: kept_of(alloc, id, waiting)?,
            left: waiting.left.get() as u32,
            repeats: waiting.repeats.get() as u32,
        }),
        SavedStrangerState::Held(slot) => Ok(Stranger::Held(Slot::new(slot.get() as u32))),
    }
}

/// Whether T3470 of a stranger that waits has a tick left and no more than its length, and no more repeats than it has.
pub(crate) fn is_timed(stranger: &Stranger) -> bool
    ensures { result ≡ is_timed stranger.now }
{
    match stranger {
        Stranger::Waiting {
            kept: _,
            left,
            repeats,
        } => 0 < *left && *left <= timers::T3470_TICKS && *repeats <= timers::T3470_REPEATS,
        Stranger::Held(_) => true,
    }
}

/// What is provisioned of a subscriber; none where its IMSI isn't one.
pub(crate) fn profile_of(saved: &SavedSubscriber) -> Option<Profile>
    ensures { result ≡ option_map (λ imsi. named_profile imsi (typed_saved_subscriber saved.now)) (imsi_of saved.now.imsi) }
{
    let Ok(imsi) = Imsi::read(saved.imsi.as_slice()) else {
        return None;
    };
    Some(Profile {
        imsi,
        address: saved.address.get(),
        gateway: saved.gateway.get(),
        teid: saved.teid.get(),
    })
}

/// How many next hops are derived for the keys of a subscriber.
pub(crate) fn hops_of(saved: &SavedSubscriber) -> u64
    ensures { result ≡ hops_of (typed_saved_subscriber saved.now) }
{
    match &saved.state.link.context {
        Some(context) => match &context.radio {
            SavedRadio::Derived(trail) => trail.moves.get(),
            SavedRadio::Verbatim(_) => 0,
        },
        None => 0,
    }
}

// Whether a stranger with an id is held by the slot.
fn is_held_by(strangers: &Strangers, id: AssociationId, slot: Slot) -> bool
    ensures { result ≡ is_held_by slot (stranger_at id strangers.now.strangers) }
{
    match strangers.find(id) {
        Some(lent) => match lent.stranger {
            Stranger::Held(other) => *other == slot,
            Stranger::Waiting { .. } => false,
        },
        None => false,
    }
}

/// Whether the id of a connection is the slot's own, or that of a stranger whom the slot holds.
pub(crate) fn is_placed(strangers: &Strangers, slot: Slot, connection: Option<Connection>) -> bool
    ensures placed { result ≡ is_placed strangers.now.strangers slot connection }
    ensures numbered { IfSome connection (λ k. k.enb_ue_id < enb_ue_ids) }
{
    let Some(connection) = connection else {
        return true;
    };
    let made = AssociationId::of_stranger(
        connection.station.get(),
        connection.enb_ue_id.get() as u32,
    );
    connection.id.get() / COUNTERS == slot.get()
        || connection.id == made && is_held_by(strangers, connection.id, slot)
}
