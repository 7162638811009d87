//! The protected form of a message (TS 24.301 clause 9.1).

ghost use Rattle.std.specs.Prelude.{◌≡◌, IfErr, IfOk, IfSome, length};
ghost use Rattle.nas_messages.specs.Protection.{header_code, header_of, protected_form, seen_split, split, unlent};

use nas_elements::{NasFault, codes};
use std::alloc::Global;

// The octets before the message: the security header type with the protocol discriminator, the MAC and the sequence number.
const HEADER_LENGTH: usize = 6;

/// The security header type of a protected message (TS 24.301 clause 9.3.1).
#[derive(Clone, Copy)]
pub enum SecurityHeader {
    /// 1: integrity protected.
    IntegrityProtected,
    /// 2: integrity protected and ciphered.
    IntegrityProtectedCiphered,
    /// 3: integrity protected with a new security context.
    NewContext,
    /// 4: integrity protected and ciphered with a new security context.
    NewContextCiphered,
}

impl SecurityHeader {
    /// The code in the high half of the first octet, 1 to 4.
    pub fn code(self) -> u8
        ensures { result ≡ header_code self }
    {
        match self {
            SecurityHeader::IntegrityProtected => 1,
            SecurityHeader::IntegrityProtectedCiphered => 2,
            SecurityHeader::NewContext => 3,
            SecurityHeader::NewContextCiphered => 4,
        }
    }
}

/// A protected message in its parts. `B` is what holds octets: a slice of the octets that were split, a list in
/// contracts.
#[derive(Clone, Copy)]
pub struct Protected<B> {
    pub header: SecurityHeader,
    /// The message authentication code (TS 24.301 clause 9.5).
    pub mac: [u8; 4],
    /// The sequence number (TS 24.301 clause 9.6).
    pub sequence: u8,
    /// The plain message, which may be empty.
    pub message: B,
}

#[tactic(auto, unfolding(crate::specs::Protection::header_of))]
fn header_of(code: u8) -> Option<SecurityHeader>
    ensures { result ≡ header_of code }
{
    match code {
        1 => Some(SecurityHeader::IntegrityProtected),
        2 => Some(SecurityHeader::IntegrityProtectedCiphered),
        3 => Some(SecurityHeader::NewContext),
        4 => Some(SecurityHeader::NewContextCiphered),
        _ => None,
    }
}

/// The parts of a protected message; `None` below six octets, for another protocol discriminator than 7 and for another
/// security header type than 1 to 4. Takes no memory. The MAC isn't checked.
#[tactic(auto, unfolding(crate::specs::Protection::split))]
pub fn split_protected<'a>(octets: &'a [u8]) -> Option<Protected<&'a [u8]>>
    ensures value { seen_split result ≡ split octets.entry.now }
    ensures form { IfSome result (λ p. (octets.entry.now ≡ protected_form (unlent p)) × (length p.mac ≡ 4)) }
{
    if octets.len() < 6 {
        return None;
    }
    if octets[0] % 16 != codes::EMM_DISCRIMINATOR {
        return None;
    }
    let header = header_of(octets[0] / 16)?;
    Some(Protected {
        header,
        mac: [octets[1], octets[2], octets[3], octets[4]],
        sequence: octets[5],
        message: &octets[6..],
    })
}

/// The octets of a protected message. The one fault is NoMemory.
#[tactic(auto, unfolding(crate::specs::Protection::protected_form))]
pub fn join_protected(alloc: Global, protected: &Protected<&[u8]>) -> Result<Vec<u8>, NasFault>
    ensures ok { IfOk result (λ octets. octets.items ≡ protected_form (unlent protected.now)) }
    ensures memory { IfErr result (λ fault. fault ≡ NasFault.NoMemory) }
{
    let [a, b, c, d] = protected.mac;
    let first = protected.header.code() * 16 + codes::EMM_DISCRIMINATOR;
    let mut octets = Vec::with_capacity(alloc, HEADER_LENGTH + protected.message.len())?;
    octets.extend_from_slice(&[first, a, b, c, d, protected.sequence])?;
    octets.extend_from_slice(protected.message)?;
    Ok(octets)
}
