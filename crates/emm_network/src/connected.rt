//! The rows of messages on an association, and of what ends one (TS 36.413 clause 8).

ghost use Rattle.std.specs.Prelude.{◌≡◌, OnOk, Some, None};
ghost use Rattle.emm_network.specs.Connected.{connection_of, connections_gone, displaced, has_connection_id, has_pair, hop_after, hopped, indicate, next_chaining_count, not_switched, path_switch, standing_hop, station_gone, strike, struck, switched};
ghost use Rattle.mme_types.specs.Events.{message_lists};

use emm_state::{Context, Draft, Repeat, is_registered};
use eps_keys::{Kasme, NextHop};
use identity_slots::AssociationId;
use mme_types::{
    Connection, RadioKeys, StationNumber, UeMessage, error_indication, is_listed,
    path_switch_acknowledge, path_switch_failure,
};
use s1ap_elements::{AssociationToReset, Cause, ProtocolCause, RadioNetworkCause};
use std::alloc::{AllocError, Global};

// Next hop chaining counts are below this (TS 33.401 clause 7.2.8.1).
const CHAINING_COUNTS: u8 = 8;

// The next hop chaining count after this one: it goes round.
fn next_chaining_count(count: u8) -> u8
    ensures { result ≡ next_chaining_count count }
{
    (count % CHAINING_COUNTS + 1) % CHAINING_COUNTS
}

// The next hop that stands: the one that a station was told last, else the first of the chain (TS 33.401 clause A.4).
fn standing_hop(kasme: &Kasme, radio: &RadioKeys) -> NextHop
    ensures { result ≡ standing_hop kasme.now radio.now }
{
    match &radio.next_hop {
        Some(told) => told.copy(),
        None => kasme.first_hop(&radio.kenb),
    }
}

// The next hop after the one that stands.
fn hop_after(context: &Context) -> NextHop
    ensures { result ≡ hop_after context.now }
{
    let kasme = &context.kasme;
    kasme.next_hop(&standing_hop(kasme, &context.radio))
}

// The context's radio keys are those of the next hop after the one that stands, which is returned, with its chaining count.
fn hop(context: &mut Context) -> (NextHop, u8)
    ensures hop { result.0 ≡ hop_after context.old }
    ensures count { result.1 ≡ next_chaining_count context.old.radio.chaining_count }
    ensures keys { context.new ≡ record context.old { radio = hopped context.old } }
{
    let hop = hop_after(context);
    let count = next_chaining_count(context.radio.chaining_count);
    context.radio.next_hop = Some(hop.copy());
    context.radio.chaining_count = count;
    (hop, count)
}

/// The connection that a message names: the one that a path switch leads to.
pub fn connection_of(message: &UeMessage<&[u8]>) -> Connection
    ensures { result ≡ connection_of (message_lists message.now) }
{
    Connection {
        id: message.mme_ue_id,
        station: message.station,
        enb_ue_id: message.enb_ue_id,
    }
}

/// Whether the message has the MME UE S1AP ID of the connection.
pub fn has_connection_id(draft: &Draft, message: &UeMessage<&[u8]>) -> bool
    ensures { result ≡ has_connection_id (message_lists message.now) draft.now }
{
    match draft.solo.connection {
        Some(connection) => connection.id == message.mme_ue_id,
        None => false,
    }
}

/// Whether the message is of the connection's station, with its eNB UE S1AP ID.
pub fn has_pair(draft: &Draft, message: &UeMessage<&[u8]>) -> bool
    ensures { result ≡ has_pair (message_lists message.now) draft.now }
{
    match draft.solo.connection {
        Some(connection) => {
            connection.station == message.station && connection.enb_ue_id == message.enb_ue_id
        }
        None => false,
    }
}

/// ERROR INDICATION with the ids that were received goes back (TS 36.413 clause 8.7.2).
#[tactic(auto, unfolding(crate::specs::Connected::indicate))]
pub fn indicate(
    draft: &mut Draft,
    alloc: Global,
    cause: RadioNetworkCause,
    message: &UeMessage<&[u8]>,
) -> Result<(), AllocError>
    ensures { OnOk result (draft.new ≡ indicate (Cause.RadioNetwork cause) (message_lists message.now) draft.old) }
{
    let answer = error_indication(
        message.mme_ue_id,
        message.enb_ue_id,
        Cause::RadioNetwork(cause),
    );
    draft.emit(alloc, message.station, answer, None)
}

#[tactic(auto, unfolding(crate::specs::Connected::not_switched))]
fn not_switched(
    draft: &mut Draft,
    alloc: Global,
    cause: Cause,
    message: &UeMessage<&[u8]>,
) -> Result<(), AllocError>
    ensures { OnOk result (draft.new ≡ not_switched cause (message_lists message.now) draft.old) }
{
    let answer = path_switch_failure(message.mme_ue_id, message.enb_ue_id, cause);
    draft.emit(alloc, message.station, answer, None)
}

// The connection moves, and the station is told the next hop.
#[tactic(auto, unfolding(crate::specs::Connected::switched))]
fn switched(draft: &mut Draft, alloc: Global, message: &UeMessage<&[u8]>) -> Result<(), AllocError>
    ensures some { (x : Context) → draft.old.solo.context ≡ Some x
        → OnOk result (draft.new ≡ switched (message_lists message.now) x draft.old) }
    ensures none { draft.old.solo.context ≡ None → draft.new ≡ draft.old }
{
    let Some(context) = &mut draft.solo.context else {
        return Ok(());
    };
    let (hop, count) = hop(context);
    let answer = path_switch_acknowledge(connection_of(message), hop, count);
    draft.solo.connection = Some(connection_of(message));
    draft.emit(alloc, message.station, answer, None)
}

/// PATH SWITCH REQUEST (TS 36.413 clause 8.4.4).
#[tactic(auto, unfolding(crate::specs::Connected::path_switch))]
pub fn path_switch(
    draft: &mut Draft,
    alloc: Global,
    message: &UeMessage<&[u8]>,
) -> Result<(), AllocError>
    ensures { OnOk result (draft.new ≡ path_switch (message_lists message.now) draft.old) }
{
    let unknown = Cause::RadioNetwork(RadioNetworkCause::UnknownMmeUeS1apId);
    if !has_connection_id(draft, message) {
        return not_switched(draft, alloc, unknown, message);
    }
    if !message.mme_ue_id.is_of_slot() {
        return not_switched(draft, alloc, unknown, message);
    }
    if !is_registered(draft.solo.phase) {
        let not_compatible = Cause::Protocol(ProtocolCause::MessageNotCompatible);
        return not_switched(draft, alloc, not_compatible, message);
    }
    switched(draft, alloc, message)
}

/// A stranger came anew where an association was claimed.
#[tactic(auto, unfolding(crate::specs::Connected::displaced))]
pub fn displaced(draft: &mut Draft, id: AssociationId)
    ensures { draft.new ≡ displaced id draft.old }
{
    if let Some(connection) = draft.solo.connection {
        if connection.id == id {
            draft.lose();
        }
    }
}

// The station is struck from the paging to repeat.
#[tactic(auto, unfolding(crate::specs::Connected::strike))]
fn strike(draft: &mut Draft, station: StationNumber)
    ensures { draft.new ≡ strike station draft.old }
{
    if let Some(Repeat::Paging(stations)) = &mut draft.solo.repeat {
        stations.remove(station);
    }
}

/// A station was lost, set up anew or reset as a whole.
#[tactic(auto, unfolding(crate::specs::Connected::station_gone))]
pub fn station_gone(draft: &mut Draft, station: StationNumber)
    ensures { draft.new ≡ station_gone station draft.old }
{
    strike(draft, station);
    if let Some(connection) = draft.solo.connection {
        if connection.station == station {
            draft.lose();
        }
    }
}

/// A station reset a list of associations (TS 36.413 clause 8.7.1.2.2); no station is struck from the paging to repeat.
#[tactic(auto, unfolding(crate::specs::Connected::connections_gone))]
pub fn connections_gone(draft: &mut Draft, station: StationNumber, items: &[AssociationToReset])
    ensures { draft.new ≡ connections_gone station items.now draft.old }
{
    if let Some(connection) = draft.solo.connection {
        if connection.station == station && is_listed(connection.id, connection.enb_ue_id, items) {
            draft.lose();
        }
    }
}
