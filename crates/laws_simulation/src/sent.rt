//! What simulated phones and stations send is of the profile. Each law is the contract of a function that does nothing.

ghost use Rattle.laws_simulation.specs.Phones.{ActsMoveWell, HearingMovesWell, LiesAreForms, PhoneBeginsInRange, PhoneNasIsBrief, PhonesSendWell};
ghost use Rattle.laws_simulation.specs.Stations.{ActsAreSent, AnswersAreSent, NasIsCarried, OthersAreSilent, PhonesAreCarried, StationBeginsInRange, StationStaysInRange};

use laws_codecs::decoded_is_in_range;
use laws_network::short_messages_are_written;
use nas_messages::{
    decoded_esm_is_spelled, decoded_is_spelled, encoded_esm_is_decoded, encoded_is_decoded,
    protected_is_split,
};
use s1ap_messages::what_is_encoded;

/// Each NAS message that a phone sends, by any acts and to whatever octets the network sends, is written from a value of the
/// profile that goes from phones to the network, and is decoded as it; so is the ESM message within, and the message in the
/// protected form. The two acts that lie send only the protected form. None has more than 1,100 octets. A phone begins in range,
/// and stays so (TS 24.301 clauses 8.2, 8.3 and 9.1).
pub fn phones_send_nas()
    ensures acts { ActsMoveWell }
    ensures lies { LiesAreForms }
    ensures hears { HearingMovesWell }
    ensures brief { PhoneNasIsBrief }
    ensures begins { PhoneBeginsInRange }
    ensures runs { PhonesSendWell }
{
    encoded_is_decoded();
    encoded_esm_is_decoded();
    protected_is_split();
    decoded_is_spelled();
    decoded_esm_is_spelled();
}

/// By each possible act whose NAS message has at most 15,000 octets, a station sends what is written from the act's message and is
/// decoded as it, with the NAS message that was handed to it. Whatever octets come, INITIAL CONTEXT SETUP RESPONSE and UE CONTEXT
/// RELEASE COMPLETE are sent if they are owed, and nothing else. An act that can't be done sends nothing. A station begins in
/// range, and stays so (TS 36.413 clause 9.1).
pub fn stations_send_s1ap()
    ensures acts { ActsAreSent }
    ensures others { OthersAreSilent }
    ensures nas { NasIsCarried }
    ensures phones { PhonesAreCarried }
    ensures answers { AnswersAreSent }
    ensures begins { StationBeginsInRange }
    ensures stays { StationStaysInRange }
{
    short_messages_are_written();
    what_is_encoded();
    decoded_is_in_range();
}
