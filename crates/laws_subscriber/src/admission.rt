//! What it takes to be let in, whoever sends, over runs of one subscriber's machine. Each law is the contract of a function that
//! does nothing.

ghost use Rattle.emm_state.specs.declared.setting.Setting.{Setting};
ghost use Rattle.emm_machine.specs.Words.{fresh_solo};
ghost use Rattle.laws_subscriber.specs.Keys.{KeysByProof, KeysToTheProved};
ghost use Rattle.laws_subscriber.specs.Marked.{SendsInOrder, SendsMarked};
ghost use Rattle.laws_subscriber.specs.Proof.{RegisteredByProof};
ghost use Rattle.laws_subscriber.specs.Sound.{IsSound, StaysSound};
ghost use Rattle.laws_subscriber.specs.Unproved.{UnprovedLeaves};

use eps_keys::same_is_equal;
use nas_security::accepted_is_fresh;
use s1ap_pdus::what_is_encoded;

/// A subscriber who was never seen is sound, and stays so over every run (`IsSound`): its context is the vector at its place; its
/// radio keys come from the context's KASME and a count that it accepted, by some number of path switches; the phase says whether
/// there are a context, a connection and an open challenge; and nothing that is repeated plain has a security header.
pub fn soundness_is_kept()
    ensures fresh { (s : Setting) → IsSound s fresh_solo }
    ensures run { StaysSound }
{
    accepted_is_fresh();
}

/// Over every run each message that is sent decodes, and the NAS messages among them with a security header are, one for one and in
/// order, the protected forms under the marks that are sent, by the keys of the vectors at their places. What has no mark has no
/// security header (TS 24.301 clause 4.4.3).
pub fn protected_forms_are_marked()
    ensures each { SendsMarked }
    ensures order { SendsInOrder }
{
    accepted_is_fresh();
    what_is_encoded();
}

/// A phone that was deregistered and is past the proof (asked for ESM information, accepted, registered, updating or detaching) was
/// challenged by the vector of its context, answered what that vector expects, and completed the security mode under its key with
/// the header of a new context, in this order, without being deregistered in between (TS 24.301 clauses 5.4.2, 5.4.3).
pub fn registered_by_proof()
    ensures { RegisteredByProof }
{
    accepted_is_fresh();
    same_is_equal();
}

/// INITIAL CONTEXT SETUP REQUEST and PATH SWITCH REQUEST ACKNOWLEDGE go only to the station and number of the phone's connection,
/// only past the proof, with a key of the context; over every run from where the phone was deregistered, the whole proof came
/// before (TS 33.401 clauses 6.2, 7.2.8).
pub fn keys_go_to_the_proved()
    ensures each { KeysToTheProved }
    ensures run { KeysByProof }
{
    accepted_is_fresh();
    what_is_encoded();
    same_is_equal();
}

/// A message without a correct MAC leaves a registered phone registered, with its context, bearer, M-TMSI, tracking area and next
/// vector. Two exceptions: an ATTACH REQUEST (by the phone, or by a stranger who tells the IMSI) begins anew, whoever sends it; a
/// PATH SWITCH REQUEST on the phone's association takes the next hop of its radio keys. The clock and the withdrawn subscription
/// aren't messages (TS 24.301 clause 4.4.4.3).
pub fn unproved_leaves()
    ensures { UnprovedLeaves }
{}
