//! The station that an event is of: what is sent for it, and its new state.

ghost use Rattle.std.specs.Prelude.{◌≡◌, [], slice_set, unwrap_or, IfOk};
ghost use Rattle.mme_types.specs.Stations.{station_at};
ghost use Rattle.mme_core.specs.World.{placed, station_sent};

use mme_answering::{Outs, Owner, send_all};
use mme_types::{Answers, EnbWorld, StationNumber, StationState};
use std::alloc::AllocError;

/// What is sent for a station, in the room that is given.
pub(crate) fn station_outs(
    mut outs: Outs,
    station: Option<StationNumber>,
    mut sent: Answers,
) -> Result<Outs, AllocError>
    requires { outs ≡ [] }
    ensures { IfOk result (λ outs. outs ≡ station_sent station sent) }
{
    if sent.as_slice().is_empty() {
        return Ok(outs);
    }
    if let Some(station) = station {
        send_all(&mut outs, Owner::Station(station), &mut sent)?;
    }
    Ok(outs)
}

// A station's new state, where it has one.
#[inline(always)]
fn settle_own(stations: &mut EnbWorld, station: StationNumber, state: Option<StationState>)
    ensures { stations.new ≡ slice_set stations.old station (unwrap_or state (station_at stations.old station)) }
{
    if let Some(state) = state {
        stations.set(station, state);
    }
}

/// The new state of the station that the event is of, if it is of one.
#[inline(always)]
pub(crate) fn settle_station(
    stations: &mut EnbWorld,
    station: Option<StationNumber>,
    state: Option<StationState>,
)
    ensures { stations.new ≡ placed station state stations.old }
{
    match station {
        Some(station) => settle_own(stations, station, state),
        None => {}
    }
}
