//! The messages that the machines build are written and brief, where their parts are in range. Each law is the contract of a
//! function that does nothing.

ghost use Rattle.std.specs.Prelude.{◌≡◌, ◌<◌, ◌^◌, ℕ, true, false, List, Option};
ghost use Rattle.per_streams.specs.Octet.{AreBytes, all_below};
ghost use Rattle.s1ap_causes.specs.declared.cause.Cause.{Cause};
ghost use Rattle.s1ap_elements.specs.declared.phone.Tai.{Tai};
ghost use Rattle.nas_messages.specs.declared.protection.SecurityHeader.{SecurityHeader};
ghost use Rattle.eps_keys.specs.declared.direction.DirectionBit.{DirectionBit};
ghost use Rattle.eps_keys.specs.Eia2.{eia2};
ghost use Rattle.eps_keys.specs.Hmac.{kenb, nas_integrity_key, next_hop};
ghost use Rattle.nas_security.specs.Protecting.{protected_by};
ghost use Rattle.esm_machine.specs.declared.cause.EsmCause.{EsmCause};
ghost use Rattle.esm_machine.specs.Sent.{activation, connectivity_reject, disconnect_reject, information_request, status};
ghost use Rattle.esm_machine.specs.Sessions.{Session, transaction_of};
ghost use Rattle.identity_slots.specs.declared.profile.Profile.{Profile};
ghost use Rattle.identity_slots.specs.declared.profile.Vector.{Vector};
ghost use Rattle.mme_types.specs.declared.connection.Connection.{Connection};
ghost use Rattle.mme_types.specs.declared.network.Network.{Network};
ghost use Rattle.mme_signalling.specs.declared.cause.EmmCause.{EmmCause};
ghost use Rattle.mme_signalling.specs.declared.messages.Grant.{Grant};
ghost use Rattle.mme_signalling.specs.Messages.{attach_accept, attach_reject, authentication_reject, authentication_request, detach_accept, emm_status, network_detach, security_mode_command, service_reject, update_accept, update_reject};
ghost use Rattle.mme_signalling.specs.Pdus.{context_setup, downlink, error_indication, is_extended, paging, path_switch_acknowledge, path_switch_failure, release_command};
ghost use Rattle.laws_network.specs.Ranges.{ConnectionInRange, IsBrief, IsBriefIf, IsWritten, NetworkInRange, ProfileInRange, TaiInRange, VectorInRange};

use crate::sizes::short_messages_are_written;

/// Each S1AP message that is built for a phone has a written form, if its parts are in range and its NAS message has at most 15,000
/// octets (TS 36.413 clause 9.1).
pub fn phone_messages_are_written()
    ensures nas { (k : Connection) (nas : List ℕ) → ConnectionInRange k → IsBrief 15000 nas → IsWritten (downlink k nas) }
    ensures release { (id enb_ue_id : ℕ) (c : Cause) → id < 2 ^ 32 → enb_ue_id < 2 ^ 24 → is_extended c ≡ false
        → IsWritten (release_command id enb_ue_id c) }
    ensures indication { (id enb_ue_id : ℕ) (c : Cause) → id < 2 ^ 32 → enb_ue_id < 2 ^ 24 → is_extended c ≡ false
        → IsWritten (error_indication id enb_ue_id c) }
    ensures not_switched { (id enb_ue_id : ℕ) (c : Cause) → id < 2 ^ 32 → enb_ue_id < 2 ^ 24 → is_extended c ≡ false
        → IsWritten (path_switch_failure id enb_ue_id c) }
    ensures switched { (k : Connection) (hop : List ℕ) (count : ℕ) → ConnectionInRange k → AreBytes 32 hop → count < 8
        → IsWritten (path_switch_acknowledge k hop count) }
    ensures page { (n : Network) (imsi : List ℕ) (tmsi : ℕ) (tai : Tai) → NetworkInRange n → TaiInRange tai
        → IsWritten (paging n imsi tmsi tai) }
    ensures set_up { (n : Network) (p : Profile) (capability : List ℕ) (k : Connection) (kenb : List ℕ) (nas : Option (List ℕ))
        → NetworkInRange n → ProfileInRange p → ConnectionInRange k → AreBytes 32 kenb → IsBriefIf 15000 nas
        → IsWritten (context_setup n p capability k kenb nas) }
{
    short_messages_are_written();
}

/// Each EMM message that is built of parts in range has at most 1,000 octets, if the ESM message in it has at most 200 (TS 24.301
/// clause 8.2).
pub fn nas_messages_are_brief()
    ensures attach_rejected { (cause : EmmCause) (esm : Option (List ℕ)) → IsBriefIf 200 esm
        → IsBrief 1000 (attach_reject cause esm) }
    ensures challenge { (ksi : ℕ) (v : Vector) → ksi < 7 → VectorInRange v
        → IsBrief 1000 (authentication_request ksi v.rand v.autn) }
    ensures not_authenticated { IsBrief 1000 authentication_reject }
    ensures secure { (ksi : ℕ) (capability : List ℕ) → ksi < 7 → all_below 256 capability ≡ true
        → IsBrief 1000 (security_mode_command ksi capability) }
    ensures attached { (n : Network) (g : Grant) (esm : List ℕ) → NetworkInRange n → TaiInRange g.tai → IsBrief 200 esm
        → IsBrief 1000 (attach_accept n g esm) }
    ensures updated { (n : Network) (g : Grant) → NetworkInRange n → TaiInRange g.tai → IsBrief 1000 (update_accept n g) }
    ensures update_rejected { (cause : EmmCause) → IsBrief 1000 (update_reject cause) }
    ensures service_rejected { (cause : EmmCause) → IsBrief 1000 (service_reject cause) }
    ensures detached { IsBrief 1000 detach_accept × IsBrief 1000 network_detach }
    ensures told { (cause : EmmCause) → IsBrief 1000 (emm_status cause) }
{}

/// Each ESM message that is built has at most 200 octets (TS 24.301 clause 8.3).
pub fn esm_messages_are_brief()
    ensures asked { (session : Session) → transaction_of session.request < 256 → IsBrief 200 (information_request session) }
    ensures activated { (session : Session) (apn address : List ℕ) → transaction_of session.request < 256 → IsBrief 63 apn
        → AreBytes 4 address → IsBrief 200 (activation session apn address) }
    ensures connection_rejected { (cause : EsmCause) (transaction : ℕ) → transaction < 256
        → IsBrief 200 (connectivity_reject cause transaction) }
    ensures disconnection_rejected { (transaction : ℕ) → transaction < 256 → IsBrief 200 (disconnect_reject transaction) }
    ensures told { (cause : EsmCause) (bearer transaction : ℕ) → bearer < 16 → transaction < 256
        → IsBrief 200 (status cause bearer transaction) }
{}

/// Keys that are derived are octets, radio keys 32 of them; a MAC under a key of octets is octets; and the protected form of a NAS
/// message of at most 1,000 octets has at most 1,100 (TS 33.401, annexes A and B.2; TS 24.301 clause 9.1).
pub fn keys_and_forms_are_octets()
    ensures radio { (kasme : List ℕ) (count : ℕ) → AreBytes 32 (kenb kasme count) }
    ensures hop { (kasme previous : List ℕ) → AreBytes 32 (next_hop kasme previous) }
    ensures integrity { (kasme : List ℕ) → all_below 256 (nas_integrity_key kasme) ≡ true }
    ensures mac { (key : List ℕ) → all_below 256 key ≡ true → (count : ℕ) (direction : DirectionBit) (octets : List ℕ)
        → IsBrief 16 (eia2 key count direction octets) }
    ensures form { (key : List ℕ) (count : ℕ) (header : SecurityHeader) (nas : List ℕ) → all_below 256 key ≡ true → IsBrief 1000 nas
        → IsBrief 1100 (protected_by (eia2 key) count header nas) }
{}
