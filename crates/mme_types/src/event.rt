//! What happens to a subscriber. `B` is what holds octets: a slice of the message in code, a list in contracts.

use identity_slots::{AssociationId, StationNumber};
use s1ap_pdus::elements::{AssociationToReset, Cause, EnbUeId, Tai};

/// An INITIAL UE MESSAGE (TS 36.413 clause 8.6.2.1).
#[derive(Clone, Copy)]
pub struct Entry<B> {
    pub station: StationNumber,
    pub enb_ue_id: EnbUeId,
    /// Its NAS message.
    pub nas: B,
    pub tai: Tai,
}

/// What a station sends about a phone.
#[derive(Clone, Copy)]
pub enum UeBody<B> {
    /// UPLINK NAS TRANSPORT.
    Uplink { nas: B, tai: Tai },
    /// UE CONTEXT RELEASE REQUEST.
    UeContextReleaseRequest { cause: Cause },
    /// UE CONTEXT RELEASE COMPLETE.
    UeContextReleaseComplete,
    /// INITIAL CONTEXT SETUP FAILURE.
    InitialContextSetupFailure,
    /// PATH SWITCH REQUEST.
    PathSwitch,
    /// INITIAL CONTEXT SETUP RESPONSE, UE CAPABILITY INFO INDICATION or NAS NON DELIVERY INDICATION.
    Notice,
}

impl<'a> UeBody<&'a [u8]> {
    ghost use Rattle.std.specs.Prelude.{◌≡◌};

    /// The same.
    pub fn again(&self) -> UeBody<&'a [u8]>
        ensures { result ≡ self.now }
    {
        match self {
            UeBody::Uplink { nas, tai } => UeBody::Uplink { nas, tai: *tai },
            UeBody::UeContextReleaseRequest { cause } => UeBody::UeContextReleaseRequest {
                cause: *cause,
            },
            UeBody::UeContextReleaseComplete => UeBody::UeContextReleaseComplete,
            UeBody::InitialContextSetupFailure => UeBody::InitialContextSetupFailure,
            UeBody::PathSwitch => UeBody::PathSwitch,
            UeBody::Notice => UeBody::Notice,
        }
    }
}

/// A message of a station with the MME's number of an association: for PATH SWITCH REQUEST the source's.
#[derive(Clone, Copy)]
pub struct UeMessage<B> {
    pub station: StationNumber,
    pub mme_ue_id: AssociationId,
    pub enb_ue_id: EnbUeId,
    pub body: UeBody<B>,
}

/// What happens to a subscriber.
#[derive(Clone, Copy)]
pub enum SoloEvent<'a> {
    Nothing,
    /// An INITIAL UE MESSAGE that names the subscriber.
    Initial(Entry<&'a [u8]>),
    /// A stranger turned out to be the subscriber: the stranger's association, and the message that began it.
    Claim(AssociationId, Entry<&'a [u8]>),
    /// A message whose MME UE id is the subscriber's.
    Message(UeMessage<&'a [u8]>),
    /// A stranger came anew where this association was claimed.
    Displaced(AssociationId),
    /// A station was lost, set up anew or reset as a whole.
    StationGone(StationNumber),
    /// A station reset a list of associations.
    ConnectionsGone(StationNumber, &'a [AssociationToReset]),
    /// A second has passed.
    Tick,
    /// Downlink data waits.
    Data,
    /// The subscription is withdrawn.
    Cancel,
}
