//! Over every run of the MME all is in range that its messages are built of, and so they are sent. Each law is the contract of a
//! function that does nothing.

ghost use Rattle.laws_network.specs.RangesInRuns.{AloneStepsAreInRange, BeginsInRange, ItemsAreInRange, StepsAreInRange, WorldStaysInRange};
ghost use Rattle.laws_network.specs.Told.{BeginnersAreTold, ChallengesAreSent, SendersAreAnswered, WaitingAreTold};

use crate::answers::{
    stations_are_answered, strangers_are_answered, what_stations_tell_is_in_range,
};
use crate::messages::phone_messages_are_written;
use crate::subscriber::{every_message_is_sent, proved_were_challenged, ranges_are_kept};

/// An MME whose configuration and provisioning are in range, as all are, begins in range, with all subscribers and waiting
/// strangers, and stays so over every run; and the items that a run has for a slot are in range.
pub fn runs_are_in_range()
    ensures begins { BeginsInRange }
    ensures stays { WorldStaysInRange }
    ensures items { ItemsAreInRange }
{
    ranges_are_kept();
    what_stations_tell_is_in_range();
}

/// At every step of a run in range a slot's setting, its item and the states before and after it are in range: so the laws of
/// one subscriber's machine apply, and each message that it builds is sent; and so over the slot's items alone.
pub fn steps_are_in_range()
    ensures next { StepsAreInRange }
    ensures alone { AloneStepsAreInRange }
{
    every_message_is_sent();
    ranges_are_kept();
    what_stations_tell_is_in_range();
}

/// Over a run in range whoever has proved itself was sent the AUTHENTICATION REQUEST by its vector (TS 24.301 clause 5.4.2.2).
pub fn challenges_are_sent()
    ensures { ChallengesAreSent }
{
    ranges_are_kept();
    what_stations_tell_is_in_range();
    proved_were_challenged();
}

/// Over a run in range whatever a stranger is told is sent: IDENTITY REQUEST, a refusal, the release of its association, and
/// what answers a message with the id of nobody or from elsewhere (TS 24.301 clause 5.4.4, TS 36.413 clause 10.6).
pub fn strangers_are_told()
    ensures begins { BeginnersAreTold }
    ensures sends { SendersAreAnswered }
    ensures waits { WaitingAreTold }
{
    ranges_are_kept();
    what_stations_tell_is_in_range();
    strangers_are_answered();
    stations_are_answered();
    phone_messages_are_written();
}
