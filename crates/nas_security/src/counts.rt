//! The estimate of a NAS COUNT from its low bits (TS 24.301 clause 4.4.3.1).

ghost use Rattle.std.specs.Prelude.{◌≡◌, ◌<◌, ◌≤◌, ◌^◌};
ghost use Rattle.nas_security.specs.Counts.{estimate, first_after};
ghost use Rattle.nas_security.specs.Near.{IsNear};

/// The first number that is no count: a NAS COUNT has 24 bits.
pub const COUNT_LIMIT: u32 = 1 << 24;

// The least number from `first` on whose low bits are these, by one addition.
fn near(first: u64, bits: u8, modulus: u32) -> u64
    requires first { first ≤ 2 ^ 32 }
    requires bits { bits < modulus }
    ensures { IsNear first bits modulus result }
{
    let low = first % modulus as u64;
    let bits = bits as u64;
    if low <= bits {
        first + (bits - low)
    } else {
        first + (modulus as u64 - low + bits)
    }
}

fn first_after(last: Option<u32>) -> u64
    ensures value { result ≡ first_after last }
    ensures bound { result ≤ 2 ^ 32 }
{
    match last {
        Some(last) => last as u64 + 1,
        None => 0,
    }
}

/// The least count above the last accepted one whose low bits are these: modulo 2^8 for eight bits.
pub fn estimate(last: Option<u32>, bits: u8, modulus: u32) -> Option<u32>
    requires { bits < modulus }
    ensures { result ≡ estimate last bits modulus }
{
    let count = near(first_after(last), bits, modulus);
    if count < COUNT_LIMIT as u64 {
        Some(count as u32)
    } else {
        None
    }
}
