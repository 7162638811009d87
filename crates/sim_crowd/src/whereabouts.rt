//! Where phones are.

ghost use Rattle.std.specs.Prelude.{◌≡◌};
ghost use Rattle.sim_crowd.specs.Whereabouts.{is_connection, place_with, same_connection, same_place, standing_nowhere, standing_with};

use identity_slots::StationNumber;
use s1ap_elements::UeIdPair;
use trace_words::RadioPlace;

/// An association of a phone at a station.
#[derive(Clone, Copy)]
pub(crate) struct Connection {
    pub(crate) station: StationNumber,
    pub(crate) pair: UeIdPair,
}

/// Where a phone is.
#[derive(Clone, Copy)]
pub(crate) struct Standing {
    /// Where it was last.
    pub(crate) place: Option<RadioPlace>,
    /// Its association, which may have ended since.
    pub(crate) connection: Option<Connection>,
    /// The association that it has once the MME has moved its path.
    pub(crate) awaited: Option<Connection>,
}

impl Connection {
    /// Where a phone with this association is.
    pub(crate) fn place(&self) -> RadioPlace
        ensures { result ≡ place_with self.now }
    {
        RadioPlace {
            station: self.station,
            enb_ue_id: self.pair.enb_ue_id,
        }
    }

    /// Whether it is the other one.
    pub(crate) fn is_same(&self, other: &Connection) -> bool
        ensures { result ≡ same_connection self.now other.now }
    {
        self.station.get() == other.station.get()
            && (self.pair.mme_ue_id.get() == other.pair.mme_ue_id.get()
                && self.pair.enb_ue_id.get() == other.pair.enb_ue_id.get())
    }

    /// Whether one that may be none is this.
    pub(crate) fn is_in(&self, known: &Option<Connection>) -> bool
        ensures { result ≡ is_connection self.now known.now }
    {
        match known {
            Some(known) => known.is_same(self),
            None => false,
        }
    }
}

impl Standing {
    /// Of a phone that was nowhere yet.
    pub(crate) fn nowhere() -> Standing
        ensures { result ≡ standing_nowhere }
    {
        Standing {
            place: None,
            connection: None,
            awaited: None,
        }
    }

    /// Of a phone with this association alone.
    pub(crate) fn of(connection: &Connection) -> Standing
        ensures { result ≡ standing_with connection.now }
    {
        Standing {
            place: Some(connection.place()),
            connection: Some(*connection),
            awaited: None,
        }
    }
}

/// Whether two places are one.
pub(crate) fn is_same_place(one: &RadioPlace, other: &RadioPlace) -> bool
    ensures { result ≡ same_place one.now other.now }
{
    one.station.get() == other.station.get() && one.enb_ue_id.get() == other.enb_ue_id.get()
}
