//! What a phone keeps of its registration.

ghost use Rattle.std.specs.Prelude.{◌≡◌};
ghost use Rattle.sim_phone.specs.Messages.{unregistered};

use crate::side::PhoneSide;
use nas_elements::Guti;
use nas_security::SecurityContext;

/// A phone's security context. It is the network's, seen from the other side: what that calls downlink is the phone's uplink.
pub type PhoneContext = SecurityContext<PhoneSide>;

/// What a phone keeps of its registration.
#[derive(Clone, Copy)]
pub struct Registration {
    /// The context of the challenge that was answered last, until the network takes it into use.
    pub challenge: Option<PhoneContext>,
    /// The context in use.
    pub context: Option<PhoneContext>,
    /// The GUTI that the network gave last.
    pub guti: Option<Guti>,
}

impl Registration {
    /// Of a phone that isn't registered.
    pub fn none() -> Registration
        ensures { result ≡ unregistered }
    {
        Registration {
            challenge: None,
            context: None,
            guti: None,
        }
    }
}
