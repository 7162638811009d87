//! What a phone is told under its keys, over every run: the security mode, and what goes plain. Each law is the contract of a
//! function that does nothing.

ghost use Rattle.laws_mme.specs.Bidding.{CommandsReplay};
ghost use Rattle.laws_mme.specs.Plain.{NothingPlainIsSent, StaysWithoutPlain};

use laws_subscriber::{protected_forms_are_marked, soundness_is_kept};
use s1ap_pdus::what_is_encoded;

/// Over every run from where a phone was deregistered, each NAS message with the security header "integrity protected with new
/// context" is SECURITY MODE COMMAND with the capability of the last ATTACH REQUEST; EIA2, which the command chooses, is in it
/// (TS 24.301 clause 5.4.3.2, TS 33.401 clause 7.2.4.4).
pub fn capabilities_are_replayed()
    ensures { CommandsReplay }
{
    soundness_is_kept();
    protected_forms_are_marked();
    what_is_encoded();
}

/// To a registered phone, at any item but an ATTACH REQUEST, each NAS message has a security header, but for the answer to a
/// refused request, which goes to where the request came from, on the slot's next id. Nothing plain waits to be sent again
/// (TS 24.301 clause 4.4.4.2).
pub fn nothing_plain_to_the_registered()
    ensures run { StaysWithoutPlain }
    ensures sent { NothingPlainIsSent }
{
    what_is_encoded();
}
