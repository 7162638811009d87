//! What a phone says under its security context, and what it takes under it.

ghost use Rattle.std.specs.Prelude.{◌≡◌, ◌<◌, ◌^◌, IfOk, option_map};
ghost use Rattle.nas_messages.specs.Protection.{split};
ghost use Rattle.sim_phone.specs.Protecting.{forged_of, leaving, protected_saying, seen_taken, service_octets, silent, with_count_spent, taken_under};

use crate::messages::{Encoded, service_octets};
use crate::registration::{PhoneContext, Registration};
use eps_keys::DirectionBit;
use nas_messages::{Protected, SecurityHeader, join_protected, split_protected};
use nas_security::{Integrity, SecurityFault};
use std::alloc::{AllocError, Global};
use std::marker::Model;

/// What a phone sends, if anything, and what is kept of its registration then.
#[derive(Drop)]
pub struct Saying {
    /// The octets that it sends, if any.
    pub octets: Option<Vec<u8>>,
    /// What is kept of its registration then.
    pub registration: Registration,
}

impl Model for Saying {
    ghost use Rattle.std.specs.Prelude.{option_map};
    ghost use Rattle.sim_phone.specs.Protecting.{Spoken};

    ghost Value = { Spoken };

    ghost view = { λ s. record { octets = option_map (λ o. o.items) s.octets; registration = s.registration } };
}

impl Saying {
    /// Nothing is said.
    pub(crate) fn nothing(registration: Registration) -> Saying
        ensures { result ≡ silent registration }
    {
        Saying {
            octets: None,
            registration,
        }
    }

    /// The same, but the registration has ended.
    pub fn leaving(self) -> Saying
        ensures { result ≡ leaving self }
    {
        let Saying { octets, .. } = self;
        Saying {
            octets,
            registration: Registration::none(),
        }
    }
}

/// A context whose next uplink count is spent.
pub(crate) fn with_count_spent(context: &PhoneContext) -> PhoneContext
    requires { context.now.down_next < 2 ^ 24 }
    ensures { result ≡ with_count_spent context.now }
{
    PhoneContext::new(
        *context.integrity(),
        context.ksi(),
        context.down_next() + 1,
        context.up_last(),
    )
}

/// A message in the protected form under the next count of a context, which is then in use; nothing where no count is left.
#[tactic(auto, unfolding(crate::specs::Protecting::protected_saying, nas_security::specs::Protecting::protected_by))]
pub(crate) fn protected_saying(
    alloc: Global,
    registration: Registration,
    context: PhoneContext,
    header: SecurityHeader,
    message: &[u8],
) -> Result<Saying, AllocError>
    ensures { IfOk result (λ s. s ≡ protected_saying registration context header message.now) }
{
    let mut context = context;
    let octets = match context.protect(alloc, header, message) {
        Ok(octets) => Some(octets),
        Err(SecurityFault::CountSpent) => None,
        Err(_) => return Err(AllocError),
    };
    Ok(Saying {
        octets,
        registration: Registration {
            context: Some(context),
            ..registration
        },
    })
}

/// SERVICE REQUEST under the next count (TS 24.301 clause 8.2.25).
pub(crate) fn service_request(alloc: Global, context: &PhoneContext) -> Encoded
    ensures { IfOk result (λ o. o.items ≡ service_octets context.now) }
{
    let count = context.down_next();
    let second = context.ksi() % 8 * 32 + (count % 32) as u8;
    let mac = context
        .integrity()
        .mac(count, DirectionBit::Downlink, &[0xc7, second]);
    service_octets(alloc, [0xc7, second, mac[2], mac[3]])
}

/// What a context takes, if there is one: the context after it, and the message.
#[tactic(auto, unfolding(crate::specs::Protecting::taken_under))]
pub(crate) fn taken_under<'a>(
    context: Option<PhoneContext>,
    allowed: &[SecurityHeader],
    nas: &'a [u8],
) -> Option<(PhoneContext, &'a [u8])>
    ensures { seen_taken result ≡ taken_under context allowed.now nas.entry.now }
{
    let Some(mut context) = context else {
        return None;
    };
    match context.accept(nas, allowed) {
        Ok((_, message)) => Some((context, message)),
        Err(_) => None,
    }
}

/// The octets of a protected message, with a sequence number that is one higher, and its MAC as it was; nothing of octets in
/// another form. Refused for lack of memory alone.
pub fn forged(alloc: Global, sent: &[u8]) -> Result<Option<Vec<u8>>, AllocError>
    ensures { IfOk result (λ o. option_map (λ v. v.items) o ≡ forged_of (split sent.now)) }
{
    let Some(protected) = split_protected(sent) else {
        return Ok(None);
    };
    let forged = Protected {
        header: protected.header,
        mac: protected.mac,
        sequence: protected.sequence.wrapping_add(1),
        message: protected.message,
    };
    match join_protected(alloc, &forged) {
        Ok(octets) => Ok(Some(octets)),
        Err(_) => Err(AllocError),
    }
}
