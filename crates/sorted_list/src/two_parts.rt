//! Keys of two parts.

ghost use Rattle.std.specs.Prelude.{◌≡◌, ◌^◌};
ghost use Rattle.sorted_list.specs.Paired.{paired, paired_short, IsOrder};

/// The key of two parts, of which the first decides ([`pairs_in_order`]).
pub fn paired(high: u64, low: u64) -> u128
    ensures { result ≡ paired high low }
{
    u128::from(high) * 0x1_0000_0000_0000_0000 + u128::from(low)
}

/// The key of two parts of 32 bits, of which the first decides ([`pairs_in_order`]).
pub fn paired_short(high: u32, low: u32) -> u64
    ensures { result ≡ paired_short high low }
{
    u64::from(high) * 0x1_0000_0000 + u64::from(low)
}

/// Keys of two parts are in the order of their first parts, and those of one first part in that of their second; no two are equal.
pub fn pairs_in_order()
    ensures long { IsOrder (2 ^ 64) paired }
    ensures short { IsOrder (2 ^ 32) paired_short }
{}
