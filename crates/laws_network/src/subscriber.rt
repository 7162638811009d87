//! What one subscriber's machine sends is sent whole. Each law is the contract of a function that does nothing.

ghost use Rattle.emm_machine.specs.Words.{fresh_solo};
ghost use Rattle.laws_network.specs.SubscriberRanges.{SoloInRange, StaysInRange};
ghost use Rattle.laws_network.specs.Whole.{AttachRefusedIsWhole, ChallengedIsWhole, EveryMessageIsSent, IndicateIsWhole, LeaveIsWhole, NotAuthenticatedIsWhole, NotSwitchedIsWhole, PageIsWhole, ProtectIsWhole, RefuseIsWhole, ReleaseIsWhole, RequestsAreKnown, SendIsWhole, SetUpIsWhole, SwitchedIsWhole, TheProvedWereChallenged, TurnAwayIsWhole};

use crate::messages::phone_messages_are_written;
use nas_messages::{decoded_esm_is_spelled, decoded_is_spelled};

/// A subscriber who was never seen is in range, and what is in range stays so over every run: the ids and keys that go into
/// messages, and the NAS message that is sent again.
pub fn ranges_are_kept()
    ensures fresh { SoloInRange fresh_solo }
    ensures run { StaysInRange }
{
    decoded_is_spelled();
    decoded_esm_is_spelled();
    phone_messages_are_written();
}

/// Each message that a step builds is sent, if its setting, its state and its item are in range.
pub fn every_message_is_sent()
    ensures { EveryMessageIsSent }
{
    decoded_is_spelled();
    decoded_esm_is_spelled();
    phone_messages_are_written();
}

/// In a state in range each action whose parts are in range sends its message: it has a written form, and is the next that is sent.
pub fn actions_send_whole()
    ensures send { SendIsWhole }
    ensures protect { ProtectIsWhole }
    ensures release { ReleaseIsWhole }
    ensures leave { LeaveIsWhole }
    ensures turn_away { TurnAwayIsWhole }
    ensures refuse { RefuseIsWhole }
    ensures set_up { SetUpIsWhole }
    ensures page { PageIsWhole }
    ensures indicate { IndicateIsWhole }
    ensures not_switched { NotSwitchedIsWhole }
    ensures switched { SwitchedIsWhole }
{
    phone_messages_are_written();
}

/// What a refused attach, a challenge and a wrong response send on the phone's connection, in order; and the cause of a release
/// that a station asks for is one that is written (TS 24.301 clauses 5.5.1.2.5, 5.4.2).
pub fn rows_send_whole()
    ensures attach_refused { AttachRefusedIsWhole }
    ensures challenged { ChallengedIsWhole }
    ensures not_authenticated { NotAuthenticatedIsWhole }
    ensures requests { RequestsAreKnown }
{
    phone_messages_are_written();
}

/// Whoever has proved itself was sent the AUTHENTICATION REQUEST by its vector (TS 24.301 clause 5.4.2.2).
pub fn proved_were_challenged()
    ensures { TheProvedWereChallenged }
{
    decoded_is_spelled();
    decoded_esm_is_spelled();
    phone_messages_are_written();
}
