//! A security context.

ghost use Rattle.std.specs.Prelude.{◌≡◌, ◌≤◌, ◌+◌, ◌^◌, ◌↔◌, ◌⊎◌, ◌∷◌, option_map, IfOk, IfErr, OnOk, OnErr, IsErrOf};
ghost use Rattle.nas_messages.specs.Protection.{split};
ghost use Rattle.nas_security.specs.Protecting.{protected_by};
ghost use Rattle.nas_security.specs.Accepting.{accepted, is_allowed, last_after, seen_acceptance, seen_parts, short_accepted, short_after};

use crate::counts::{COUNT_LIMIT, estimate};
use crate::fault::SecurityFault;
use crate::integrity::Integrity;
use eps_keys::{DirectionBit, same_octets};
use nas_messages::{Protected, SecurityHeader, codes, join_protected, split_protected};
use std::alloc::{AllocError, Global};
use std::marker::Model;

/// The security context of one phone on the network's side (TS 24.301 clause 4.4.3): the integrity
/// algorithm under its key, the key set identifier, the next downlink count and the last accepted
/// uplink count.
#[derive(Clone, Copy)]
pub struct SecurityContext<I> {
    integrity: I,
    ksi: u8,
    down_next: u32,
    up_last: Option<u32>,
}

impl<I> Model for SecurityContext<I> {
    ghost use Rattle.nas_security.specs.Context.{SecurityContextView};

    ghost Value = { SecurityContextView I };

    ghost view = { λ c. record { integrity = c.integrity; ksi = c.ksi; down_next = c.down_next; up_last = c.up_last } };

    ghost inverse = { λ c. record { integrity = c.integrity; ksi = c.ksi; down_next = c.down_next; up_last = c.up_last } };
}

// The parts of a protected message, and what its MAC is over: the octets from the sixth on
// (TS 24.301 clause 9.5).
fn parts(octets: &[u8]) -> Option<(Protected<&[u8]>, &[u8])>
    ensures { seen_parts result ≡ option_map (λ p. (p, p.sequence ∷ p.message)) (split octets.entry.now) }
{
    let protected = split_protected(octets)?;
    Some((protected, &octets[5..]))
}

fn is_allowed(allowed: &[SecurityHeader], header: SecurityHeader) -> bool
    ensures { result ≡ is_allowed allowed.now header }
{
    allowed.iter().any(|one| one.code() == header.code())
}

impl<I: Integrity> SecurityContext<I> {
    /// A context under an algorithm with its key. A next downlink count beyond 24 bits leaves none to
    /// spend, and such a last accepted uplink count none to accept.
    pub fn new(integrity: I, ksi: u8, down_next: u32, up_last: Option<u32>) -> Self
        ensures { result ≡ record { integrity = integrity; ksi = ksi; down_next = down_next; up_last = up_last } }
    {
        SecurityContext {
            integrity,
            ksi,
            down_next,
            up_last,
        }
    }

    /// The integrity algorithm under its key.
    pub fn integrity(&self) -> &I
        ensures { result.now ≡ self.entry.now.integrity }
    {
        &self.integrity
    }

    /// The key set identifier (TS 24.301 clause 9.9.3.21).
    pub fn ksi(&self) -> u8
        ensures { result ≡ self.now.ksi }
    {
        self.ksi
    }

    /// The next downlink count.
    pub fn down_next(&self) -> u32
        ensures { result ≡ self.now.down_next }
    {
        self.down_next
    }

    /// The last accepted uplink count, if one was accepted.
    pub fn up_last(&self) -> Option<u32>
        ensures { result ≡ self.now.up_last }
    {
        self.up_last
    }

    /// The protected form of a message under the next downlink count, which is spent (TS 24.301 clause 4.4.3.1). Refused as
    /// `CountSpent` exactly from 2^24 on; a refused call spends nothing.
    ///
    /// The count's low 8 bits are the sequence number. `NoMemory` where memory was refused.
    #[tactic(auto, unfolding(crate::specs::Protecting::protected_by))]
    pub fn protect(
        &mut self,
        alloc: Global,
        header: SecurityHeader,
        message: &[u8],
    ) -> Result<Vec<u8>, SecurityFault>
        ensures ok { IfOk result (λ octets.
            octets.items ≡ protected_by (I.mac_of self.old.integrity) self.old.down_next header message.now) }
        ensures spends { OnOk result (self.new ≡ record self.old { down_next = self.old.down_next + 1 }) }
        ensures spent { IsErrOf result SecurityFault.CountSpent ↔ (2 ^ 24 ≤ self.old.down_next) }
        ensures only { IfErr result (λ fault. (fault ≡ SecurityFault.CountSpent) ⊎ (fault ≡ SecurityFault.NoMemory)) }
        ensures err { OnErr result (self.new ≡ self.old) }
    {
        if self.down_next >= COUNT_LIMIT {
            return Err(SecurityFault::CountSpent);
        }
        let form = protected(alloc, &self.integrity, self.down_next, header, message)?;
        self.down_next += 1;
        Ok(form)
    }

    /// The count and the message of octets exactly where `accepted_is_exact` says so (TS 24.301 clause 4.4.3.3); that count is then
    /// the last accepted one. Takes no memory.
    ///
    /// Their header is one of those allowed, the count is the least above the last accepted one with the sequence number as its low
    /// 8 bits, and the MAC is right. Else `WrongHeader`, `CountSpent` where the count would have more than 24 bits, or `BadMac`, in
    /// this order, and nothing changes.
    #[tactic(auto, unfolding(crate::specs::Accepting::accepted))]
    pub fn accept<'a>(
        &mut self,
        octets: &'a [u8],
        allowed: &[SecurityHeader],
    ) -> Result<(u32, &'a [u8]), SecurityFault>
        ensures answer { seen_acceptance result
            ≡ accepted (I.mac_of self.old.integrity) self.old.up_last allowed.now octets.entry.now }
        ensures state { self.new ≡ record self.old { up_last = last_after self.old.up_last (seen_acceptance result) } }
    {
        let Some((protected, authenticated)) = parts(octets) else {
            return Err(SecurityFault::WrongHeader);
        };
        if !is_allowed(allowed, protected.header) {
            return Err(SecurityFault::WrongHeader);
        }
        let Some(count) = estimate(self.up_last, protected.sequence, 256) else {
            return Err(SecurityFault::CountSpent);
        };
        let mac = self
            .integrity
            .mac(count, DirectionBit::Uplink, authenticated);
        if !same_octets(&protected.mac, &mac) {
            return Err(SecurityFault::BadMac);
        }
        self.up_last = Some(count);
        Ok((count, protected.message))
    }

    /// As `accept`, of a SERVICE REQUEST, with the low 5 bits of the count, the last two octets of the MAC, and the key set
    /// identifier (TS 24.301 clause 8.2.25). Takes no memory.
    ///
    /// It is `c7`, the context's key set identifier with these bits, and the MAC's octets over the first two. Else `WrongHeader`,
    /// also for another key set identifier, `CountSpent` or `BadMac`, in this order, and nothing changes.
    #[tactic(auto, unfolding(crate::specs::Accepting::short_accepted))]
    pub fn accept_short(&mut self, octets: &[u8; 4]) -> Result<u32, SecurityFault>
        ensures answer { result ≡ short_accepted (I.mac_of self.old.integrity) self.old.up_last self.old.ksi octets.now }
        ensures state { self.new ≡ record self.old { up_last = short_after self.old.up_last result } }
    {
        if !(octets[0] == codes::SERVICE_REQUEST && octets[1] / 32 == self.ksi) {
            return Err(SecurityFault::WrongHeader);
        }
        let Some(count) = estimate(self.up_last, octets[1] % 32, 32) else {
            return Err(SecurityFault::CountSpent);
        };
        let mac = self
            .integrity
            .mac(count, DirectionBit::Uplink, &octets[..2]);
        if !same_octets(&octets[2..4], &mac[2..4]) {
            return Err(SecurityFault::BadMac);
        }
        self.up_last = Some(count);
        Ok(count)
    }
}

// The protected form under a count, with the MAC of the octets from the sixth on written into it.
#[tactic(auto, unfolding(crate::specs::Protecting::protected_by, nas_messages::specs::Protection::protected_form))]
fn protected<I: Integrity>(
    alloc: Global,
    integrity: &I,
    count: u32,
    header: SecurityHeader,
    message: &[u8],
) -> Result<Vec<u8>, AllocError>
    ensures { IfOk result (λ octets.
        octets.items ≡ protected_by (I.mac_of integrity.now) count header message.now) }
{
    let sequence = (count % 256) as u8;
    let blank = Protected {
        header,
        mac: [0; 4],
        sequence,
        message,
    };
    let Ok(mut form) = join_protected(alloc, &blank) else {
        return Err(AllocError);
    };
    let [a, b, c, d] = integrity.mac(count, DirectionBit::Downlink, &form.as_slice()[5..]);
    form[1] = a;
    form[2] = b;
    form[3] = c;
    form[4] = d;
    Ok(form)
}
