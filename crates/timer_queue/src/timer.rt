//! The names of timers, and their order.

ghost use Rattle.std.specs.Prelude.{◌≡◌};
ghost use Rattle.timer_queue.specs.Rank.{rank};

/// Whose timer it is. Owners stand in this order: strangers by station and eNB UE id, then subscribers by slot.
#[derive(Clone, Copy, PartialEq, Eq, Debug)]
pub enum TimerOwner {
    /// A phone that is not known yet: its station's number, and its eNB UE id there.
    Stranger { station: u8, enb_ue_id: u32 },
    /// A subscriber, by its slot.
    Subscriber(u32),
}

/// What a timer is for. Of one owner the procedure's stands first.
#[derive(Clone, Copy, PartialEq, Eq, Debug)]
pub enum Kind {
    /// The answer to a request, which is repeated (TS 24.301 clause 10.2).
    Procedure,
    /// A sign of life from a phone that is idle (TS 24.301 clause 5.3.5).
    Reachable,
}

/// The name of a timer.
#[derive(Clone, Copy, PartialEq, Eq, Debug)]
pub struct Timer {
    pub owner: TimerOwner,
    pub kind: Kind,
}

/// What a tick answers: a timer that has come to zero, and is gone.
pub type Expiry = Timer;

/// The number by which timers are kept in order.
#[tactic(auto, unfolding(crate::specs::Rank::rank))]
pub(crate) fn rank(timer: Timer) -> u64
    ensures { result ≡ rank timer }
{
    let owner = match timer.owner {
        TimerOwner::Stranger { station, enb_ue_id } => {
            u64::from(station) * 0x1_0000_0000 + u64::from(enb_ue_id)
        }
        TimerOwner::Subscriber(slot) => 0x100_0000_0000 + u64::from(slot),
    };
    let kind = match timer.kind {
        Kind::Procedure => 0,
        Kind::Reachable => 1,
    };
    2 * owner + kind
}
