//! The associations that a station holds.

ghost use Rattle.std.specs.Prelude.{◌≡◌, IfOk, OnOk, OnErr, option_map};
ghost use Rattle.enb_sim.specs.Delivering.{holds_pair, is_pair, pair_of, pair_with, with_pair, without_pair};

use s1ap_elements::{EnbUeId, MmeUeId, UeIdPair};
use std::alloc::{AllocError, Global};

/// The association with these numbers.
pub(crate) fn pair_with(mme_ue_id: MmeUeId, enb_ue_id: EnbUeId) -> UeIdPair
    ensures { result ≡ pair_with mme_ue_id enb_ue_id }
{
    UeIdPair {
        mme_ue_id,
        enb_ue_id,
    }
}

fn is_pair(one: &UeIdPair, other: &UeIdPair) -> bool
    ensures { result ≡ is_pair one.now other.now }
{
    one.mme_ue_id.get() == other.mme_ue_id.get() && one.enb_ue_id.get() == other.enb_ue_id.get()
}

/// Whether an association is among them: it's mostly one of the newest, so they are looked at from the last.
pub(crate) fn holds_pair(pairs: &[UeIdPair], pair: &UeIdPair) -> bool
    ensures { result ≡ holds_pair pair.now pairs.now }
{
    pairs.iter().rev().any(|one| is_pair(one, pair))
}

/// Adds an association that isn't among them yet, or leaves them as they are.
pub(crate) fn hold_pair(pairs: &mut Vec<UeIdPair>, pair: &UeIdPair) -> Result<(), AllocError>
    ensures ok { OnOk result (pairs.new.items ≡ with_pair pair.now pairs.old.items) }
    ensures err { OnErr result (pairs.new.items ≡ pairs.old.items) }
{
    if holds_pair(pairs, pair) {
        return Ok(());
    }
    pairs.push(*pair)?;
    Ok(())
}

/// The association with this number of the MME.
pub(crate) fn pair_of(pairs: &[UeIdPair], mme_ue_id: MmeUeId) -> Option<UeIdPair>
    ensures { result ≡ pair_of mme_ue_id pairs.now }
{
    pairs
        .iter()
        .copied()
        .find(|pair| pair.mme_ue_id.get() == mme_ue_id.get())
}

/// Those but one.
pub(crate) fn drop_pair(pairs: &mut Vec<UeIdPair>, pair: &UeIdPair)
    ensures { pairs.new.items ≡ without_pair pair.now pairs.old.items }
{
    pairs.retain(|one| !is_pair(one, pair));
}
