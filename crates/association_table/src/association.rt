//! An association, how a list names one, and why a change of the map was refused.

ghost use Rattle.std.specs.Prelude.{◌≡◌, ℕ};
ghost use Rattle.association_table.specs.Table.{association_id};

use sorted_list::Keyed;

/// Whose association it is.
#[derive(Clone, Copy, PartialEq, Eq, Debug)]
pub enum AssociationOwner {
    /// A phone that is not known yet: the association's station and eNB UE id name it.
    Stranger,
    /// A subscriber, by its slot.
    Subscriber(u32),
}

/// An entry of the map: the association with this id.
#[derive(Clone, Copy, PartialEq, Eq, Debug)]
pub struct Association {
    /// MME UE S1AP ID (TS 36.413 clause 9.2.3.3).
    pub id: u32,
    pub owner: AssociationOwner,
    /// The number of the station.
    pub station: u8,
    /// eNB UE S1AP ID (TS 36.413 clause 9.2.3.4).
    pub enb_ue_id: u32,
}

impl Keyed for Association {
    ghost rank = { association_id };

    fn key(&self) -> u128 {
        u128::from(self.id)
    }
}

/// What a list names associations of a station by: the ids that are given of them (TS 36.413 clause 9.1.8.1).
#[derive(Clone, Copy, PartialEq, Eq, Debug)]
pub struct Listed {
    /// MME UE S1AP ID.
    pub id: Option<u32>,
    /// eNB UE S1AP ID.
    pub enb_ue_id: Option<u32>,
}

/// Why an association was not opened, in the order of the checks.
#[derive(Clone, Copy, PartialEq, Eq, Debug)]
pub enum OpenFault {
    /// The id has an association.
    Taken = 1,
    /// A growth was refused.
    NoMemory = 2,
}

/// Why an association was not moved, in the order of the checks.
#[derive(Clone, Copy, PartialEq, Eq, Debug)]
pub enum MoveFault {
    /// The id has no association.
    Unknown = 1,
    /// A growth was refused. Moving within the place that the association has needs none, so this isn't answered today.
    NoMemory = 2,
}
