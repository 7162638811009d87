//! Where the phones are, by the states of their subscribers, and where strangers wait, by theirs.

ghost use Rattle.std.specs.Prelude.{◌≡◌, ◌+◌, ◌<◌, ◌≤◌, ℕ, OnErr, OnOk, length, map, slice_set, true};
ghost use Rattle.emm_machine.specs.Still.{pages};
ghost use Rattle.sorted_list.specs.Ordered.{Every};
ghost use Rattle.stranger_machine.specs.Machine.{is_of_station};
ghost use Rattle.mme_tables.specs.Whereabouts.{away_from, unless, waits_at, IsFree, NoneWaits};
ghost use Rattle.mme_owners.specs.Touched.{whereabouts, with_whereabouts, KeepsConnection};
ghost use Rattle.mme_owners.specs.Noticed.{ended_by};
ghost use Rattle.mme_owners.specs.Placed.{own_place, place_in_state, still_there};

use crate::records::Records;
use crate::stepped::Stepped;
use emm_state::{Repeat, Solo};
use identity_slots::{AssociationId, Slot, number_in, station_in};
use mme_tables::{Connections, Whereabouts};
use mme_types::{Connection, StationNumber};
use s1ap_elements::EnbUeId;
use std::alloc::AllocError;
use stranger_machine::{Notice, Stranger};

// ---- subscribers

// Whether a paging is to be sent again.
fn is_paging(repeat: &Option<Repeat>) -> bool
    ensures { result ≡ pages repeat.now }
{
    match repeat {
        Some(Repeat::Paging(_)) => true,
        Some(Repeat::Nas(_, _)) | None => false,
    }
}

/// The phone of a slot is where a state says; takes no memory.
pub(crate) fn place(connections: &mut Connections, slot: Slot, solo: &Solo)
    requires within { slot < length connections.old.whereabouts }
    requires free { IsFree slot solo.now.connection connections.old.whereabouts }
    requires alone { NoneWaits solo.now.connection connections.old.associations }
    requires room { 0 < connections.old.room }
    ensures whereabouts { connections.new.whereabouts ≡ slice_set connections.old.whereabouts slot (whereabouts solo.now) }
    ensures strangers { (id : ℕ) → waits_at id connections.new.associations ≡ waits_at id connections.old.associations }
    ensures room { connections.old.room ≤ connections.new.room + 1 }
{
    let whereabouts = Whereabouts {
        connection: solo.connection,
        is_paged: is_paging(&solo.repeat),
    };
    connections.set(slot, whereabouts);
}

/// Each phone is where the state says that was prepared, which is where it was or nowhere; takes no memory.
pub(crate) fn place_all(connections: &mut Connections, stepped: &[Stepped])
    requires within { Every (λ x. x.slot < length connections.old.whereabouts) stepped.now }
    requires places { Every (KeepsConnection connections.old.whereabouts) stepped.now }
    requires room { length stepped.now ≤ connections.old.room }
    ensures whereabouts { connections.new.whereabouts ≡ with_whereabouts stepped.now connections.old.whereabouts }
    ensures strangers { (id : ℕ) → waits_at id connections.new.associations ≡ waits_at id connections.old.associations }
    ensures room { connections.old.room ≤ connections.new.room + length stepped.now }
{
    connections.are_apart();
    for one in stepped {
        place(connections, one.slot(), one.solo());
    }
}

// ---- strangers

// The place that a stranger's id is made of.
fn own_place(id: AssociationId) -> Connection
    ensures { result ≡ own_place id }
{
    // (that it has 32 bits)
    let _ = id.get();
    Connection {
        id,
        station: StationNumber::new(station_in(id)),
        enb_ue_id: EnbUeId::new(u64::from(number_in(id))),
    }
}

/// Where a stranger is, if it waits.
pub(crate) fn place_of(id: AssociationId, stranger: &Stranger) -> Option<Connection>
    ensures { result ≡ place_in_state id stranger.now }
{
    match stranger {
        Stranger::Waiting {
            kept: _,
            left: _,
            repeats: _,
        } => Some(own_place(id)),
        Stranger::Held(_) => None,
    }
}

/// Those of some strangers who wait no longer have no place; takes no memory.
pub(crate) fn leave(connections: &mut Connections, records: &Records, ids: &[AssociationId])
    ensures whereabouts { connections.new.whereabouts ≡ connections.old.whereabouts }
    ensures strangers { (id : ℕ) → waits_at id connections.new.associations
        ≡ still_there ids.now records.now.strangers id (waits_at id connections.old.associations) }
    ensures room { connections.old.room ≤ connections.new.room }
{
    for id in ids {
        if records.left(*id).is_none() {
            connections.end_wait(*id);
        }
    }
}

// ---- both

/// Those whose association a notice of a station ends are nowhere from now on. Refused, each is where it was.
pub(crate) fn vacate(connections: &mut Connections, notice: &Notice) -> Result<(), AllocError>
    requires { is_of_station notice.now ≡ true }
    ensures whereabouts { OnOk result (connections.new.whereabouts
        ≡ map (away_from (ended_by notice.now)) connections.old.whereabouts) }
    ensures strangers { OnOk result ((id : ℕ) → waits_at id connections.new.associations
        ≡ unless (ended_by notice.now) (waits_at id connections.old.associations)) }
    ensures room { connections.old.room ≤ connections.new.room }
    ensures err { OnErr result (connections.new ≡ connections.old) }
{
    match notice {
        Notice::Gone(station) => connections.close_station(*station),
        Notice::Listed(station, items) => connections.close_listed(*station, items.as_slice()),
        Notice::Tick => unreachable!(),
    }
}
