//! What a phone sends of its own accord.

ghost use Rattle.std.specs.Prelude.{◌≡◌, ◌<◌, ◌^◌, ℕ, Bool, List, IfOk, Some, is_some, nat_le};
ghost use Rattle.nas_elements.specs.Identities.{IdentityFits};
ghost use Rattle.sim_phone.specs.Asking.{attach_saying, detach_saying, identity_by, service_saying, service_with, update_saying, update_with};

use crate::messages::{
    NO_KEY_SET, area_update_request, attach_request, detach_request, permanent, temporary,
};
use crate::protecting::{Saying, protected_saying, service_request, with_count_spent};
use crate::registration::{PhoneContext, Registration};
use nas_elements::{Guti, Imsi, MobileIdentity};
use nas_messages::SecurityHeader;
use std::alloc::{AllocError, Global};

// The first number that is no count: a NAS COUNT has 24 bits.
const COUNT_LIMIT: u32 = 1 << 24;

/// ATTACH REQUEST (TS 24.301 clause 8.2.4), with or without the ESM information flag; what was kept of a registration is forgotten.
/// Refused for lack of memory alone.
pub fn attach_saying(
    alloc: Global,
    identity: MobileIdentity,
    information: bool,
) -> Result<Saying, AllocError>
    requires { IdentityFits identity }
    ensures { IfOk result (λ s. s ≡ attach_saying identity information) }
{
    Ok(Saying {
        octets: Some(attach_request(alloc, identity, information)?),
        registration: Registration::none(),
    })
}

// Whether no count is left to a context.
fn is_spent(context: &PhoneContext) -> bool
    ensures { result ≡ nat_le (2 ^ 24) context.now.down_next }
{
    COUNT_LIMIT <= context.down_next()
}

/// Whether a SERVICE REQUEST can be sent: a context is there, with a count left. Takes no memory.
pub fn can_request_service(registration: Registration) -> bool
    ensures { result ≡ is_some (service_saying registration).octets }
{
    match registration.context {
        Some(context) => !is_spent(&context),
        None => false,
    }
}

/// Whether a TRACKING AREA UPDATE REQUEST can be sent: that, and a GUTI. Takes no memory.
#[tactic(auto, unfolding(crate::specs::Protecting::protected_saying))]
pub fn can_request_update(registration: Registration) -> bool
    ensures { result ≡ is_some (update_saying registration).octets }
{
    match (registration.context, registration.guti) {
        (Some(context), Some(_)) => !is_spent(&context),
        _ => false,
    }
}

/// Whether a DETACH REQUEST can be sent: one without a context is sent plain. Takes no memory.
#[tactic(auto, unfolding(crate::specs::Protecting::protected_saying))]
pub fn can_detach(registration: Registration) -> bool
    ensures { (imsi : List ℕ) (switch_off : Bool) → result ≡ is_some (detach_saying imsi registration switch_off).octets }
{
    match registration.context {
        Some(context) => !is_spent(&context),
        None => true,
    }
}

fn service_with(
    alloc: Global,
    registration: Registration,
    context: PhoneContext,
) -> Result<Saying, AllocError>
    ensures { IfOk result (λ s. s ≡ service_with registration context) }
{
    if is_spent(&context) {
        return Ok(Saying::nothing(registration));
    }
    Ok(Saying {
        octets: Some(service_request(alloc, &context)?),
        registration: Registration {
            context: Some(with_count_spent(&context)),
            ..registration
        },
    })
}

/// SERVICE REQUEST (TS 24.301 clause 8.2.25), with a context of which a count is left; else nothing. Refused for lack of memory
/// alone.
pub fn service_saying(alloc: Global, registration: Registration) -> Result<Saying, AllocError>
    ensures { IfOk result (λ s. s ≡ service_saying registration) }
{
    match registration.context {
        Some(context) => service_with(alloc, registration, context),
        None => Ok(Saying::nothing(registration)),
    }
}

fn update_with(
    alloc: Global,
    registration: Registration,
    context: PhoneContext,
    guti: Guti,
) -> Result<Saying, AllocError>
    ensures { IfOk result (λ s. s ≡ update_with registration context (Some guti)) }
{
    let request = area_update_request(alloc, context.ksi() % 8, guti)?;
    let header = SecurityHeader::IntegrityProtected;
    protected_saying(alloc, registration, context, header, &request)
}

/// TRACKING AREA UPDATE REQUEST (TS 24.301 clause 8.2.29), with a context of which a count is left, and a GUTI; else nothing.
/// Refused for lack of memory alone.
pub fn update_saying(alloc: Global, registration: Registration) -> Result<Saying, AllocError>
    ensures { IfOk result (λ s. s ≡ update_saying registration) }
{
    match (registration.context, registration.guti) {
        (Some(context), Some(guti)) => update_with(alloc, registration, context, guti),
        _ => Ok(Saying::nothing(registration)),
    }
}

// By which a phone is known: its GUTI, or else its IMSI.
fn identity_by(imsi: Imsi, guti: Option<Guti>) -> MobileIdentity
    ensures value { result ≡ identity_by imsi guti }
    ensures fits { IdentityFits result }
{
    match guti {
        Some(guti) => temporary(guti),
        None => permanent(imsi),
    }
}

/// DETACH REQUEST (TS 24.301 clause 8.2.11): protected where there is a context, and then with a count of it, or nothing where none
/// is left. Refused for lack of memory alone.
pub fn detach_saying(
    alloc: Global,
    imsi: Imsi,
    registration: Registration,
    switch_off: bool,
) -> Result<Saying, AllocError>
    ensures { IfOk result (λ s. s ≡ detach_saying imsi registration switch_off) }
{
    let identity = identity_by(imsi, registration.guti);
    match registration.context {
        Some(context) => {
            let request = detach_request(alloc, identity, switch_off, context.ksi() % 8)?;
            let header = SecurityHeader::IntegrityProtected;
            protected_saying(alloc, registration, context, header, &request)
        }
        None => Ok(Saying {
            octets: Some(detach_request(alloc, identity, switch_off, NO_KEY_SET)?),
            registration,
        }),
    }
}
