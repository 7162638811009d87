//! Which associations a list in a RESET means (TS 36.413 clause 8.7.1.2.2).

ghost use Rattle.std.specs.Prelude.{◌≡◌};
ghost use Rattle.mme_types.specs.Listed.{agrees, is_listed, matches};

use identity_slots::AssociationId;
use s1ap_pdus::elements::{AssociationToReset, EnbUeId, ListedAssociation, MmeUeId};

fn agrees_with_mme_ue_id(given: Option<MmeUeId>, mme_ue_id: AssociationId) -> bool
    ensures { result ≡ agrees given mme_ue_id }
{
    match given {
        Some(given) => given.get() == u64::from(mme_ue_id.get()),
        None => true,
    }
}

fn agrees_with_enb_ue_id(given: Option<EnbUeId>, enb_ue_id: EnbUeId) -> bool
    ensures { result ≡ agrees given enb_ue_id }
{
    match given {
        Some(given) => given == enb_ue_id,
        None => true,
    }
}

fn matches(mme_ue_id: AssociationId, enb_ue_id: EnbUeId, item: &ListedAssociation) -> bool
    ensures { result ≡ matches mme_ue_id enb_ue_id item.now }
{
    let gives_an_id = item.mme_ue_id.is_some() || item.enb_ue_id.is_some();
    gives_an_id
        && agrees_with_mme_ue_id(item.mme_ue_id, mme_ue_id)
        && agrees_with_enb_ue_id(item.enb_ue_id, enb_ue_id)
}

/// Whether some item of a list in a RESET matches the association with these ids: it gives an id at least, and each that it
/// gives is the association's (TS 36.413 clause 8.7.1.2.2).
pub fn is_listed(mme_ue_id: AssociationId, enb_ue_id: EnbUeId, items: &[AssociationToReset]) -> bool
    ensures { result ≡ is_listed mme_ue_id enb_ue_id items.now }
{
    items
        .iter()
        .any(|item| matches(mme_ue_id, enb_ue_id, &item.value))
}
