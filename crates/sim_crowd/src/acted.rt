//! What comes of an act.

ghost use Rattle.std.specs.Prelude.{◌≡◌, option_map};
ghost use Rattle.sim_crowd.specs.Acting.{acted_by};
ghost use Rattle.sim_crowd.specs.Stations.{uplink_by};

use identity_slots::StationNumber;
use std::alloc::AllocError;
use std::marker::Model;

/// A value, or memory was refused.
pub(crate) type OrRefused<T> = Result<T, AllocError>;

/// A message that is sent, if one is.
pub(crate) type Sent = OrRefused<Option<Uplink>>;

/// What comes of an act.
pub(crate) type Done = OrRefused<Acted>;

/// A message that a station sends to the MME. A contract sees the station and the octets.
#[derive(Drop)]
pub struct Uplink {
    /// Which station.
    pub station: StationNumber,
    /// The S1AP message.
    pub octets: Vec<u8>,
}

impl Model for Uplink {
    ghost use Rattle.sim_crowd.specs.Uplinks.{UplinkView};

    ghost Value = { UplinkView };

    ghost view = { λ u. record { station = u.station; octets = u.octets.items } };
}

impl Uplink {
    /// The message of a station with these octets, if there are any.
    pub(crate) fn of(station: StationNumber, octets: Option<Vec<u8>>) -> Option<Uplink>
        ensures { result ≡ uplink_by station (option_map (λ v. v.items) octets) }
    {
        let octets = octets?;
        Some(Uplink { station, octets })
    }
}

/// What comes of an act.
#[derive(Drop)]
pub enum Acted {
    /// It can't be done.
    Skipped,
    /// It is done, and nothing is sent.
    Silent,
    /// It is done by this message.
    Sends(Uplink),
}

impl Acted {
    /// It is done by this message, if there is one.
    pub(crate) fn by(uplink: Option<Uplink>) -> Acted
        ensures { result ≡ acted_by uplink }
    {
        match uplink {
            Some(uplink) => Acted::Sends(uplink),
            None => Acted::Skipped,
        }
    }
}
