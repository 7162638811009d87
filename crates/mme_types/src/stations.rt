//! What every subscriber may know of the stations.

ghost use Rattle.std.specs.Prelude.{◌≡◌, IfOk, slice_set, length};
ghost use Rattle.mme_types.specs.Stations.{is_broadcast, no_stations, station_at};

use identity_slots::StationNumber;
use s1ap_pdus::elements::{Plmn, SupportedTas};
use std::alloc::{AllocError, Global};
use std::marker::Model;

/// What the MME knows of a station (TS 36.413 clause 8.7.3).
#[derive(Drop)]
pub enum StationState {
    /// Without a connection.
    Down,
    /// Connected, and not set up.
    Up,
    /// Set up, with the tracking areas that it broadcasts.
    Ready(SupportedTas),
}

/// Whether a network is among those that a tracking area is broadcast for.
pub fn is_broadcast(plmn: Plmn, plmns: &[Plmn]) -> bool
    ensures { result ≡ is_broadcast plmn plmns.now }
{
    plmns.iter().any(|other| *other == plmn)
}

/// The states of the 128 stations, by number.
///
/// A contract sees the list.
#[derive(Drop)]
pub struct EnbWorld {
    stations: Vec<StationState>,
}

impl Model for EnbWorld {
    ghost use Rattle.std.specs.Prelude.{◌≡◌, List, length};
    ghost use Rattle.mme_types.specs.declared.stations.StationState.{StationState};

    ghost Value = { List StationState };

    ghost view = { λ w. w.stations.items };

    ghost invariant = { λ w. length w.stations.items ≡ 128 };
}

impl EnbWorld {
    /// All stations are down.
    pub fn new(alloc: Global) -> Result<EnbWorld, AllocError>
        ensures { IfOk result (λ w. w ≡ no_stations) }
    {
        let mut stations = Vec::with_capacity(alloc, 128)?;
        for _ in 0..128usize {
            stations.push(StationState::Down)?;
        }
        Ok(EnbWorld { stations })
    }

    /// A station's state; takes no memory.
    pub fn get(&self, station: StationNumber) -> &StationState
        ensures { result.now ≡ station_at self.entry.now station }
    {
        &self.stations[station.get() as usize]
    }

    /// A station's state is this one now; takes no memory.
    pub fn set(&mut self, station: StationNumber, state: StationState)
        ensures { self.new ≡ slice_set self.old station state }
    {
        self.stations[station.get() as usize] = state;
    }

    /// The states by number.
    pub fn as_slice(&self) -> &[StationState]
        ensures value { result.now ≡ self.now }
        ensures count { length self.now ≡ 128 }
    {
        self.stations.as_slice()
    }
}
