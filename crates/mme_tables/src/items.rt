//! The items of a RESET of a part, as the associations are asked for them.

ghost use Rattle.std.specs.Prelude.{◌≡◌, IfOk, map};
ghost use Rattle.mme_tables.specs.Items.{listed_item};

use association_table::Listed;
use s1ap_elements::{AssociationToReset, EnbUeId, MmeUeId};
use std::alloc::{AllocError, Global};

fn mme_ue_id_of(id: Option<MmeUeId>) -> Option<u32>
    ensures { result ≡ id }
{
    match id {
        Some(id) => Some(id.get() as u32),
        None => None,
    }
}

fn enb_ue_id_of(id: Option<EnbUeId>) -> Option<u32>
    ensures { result ≡ id }
{
    match id {
        Some(id) => Some(id.get() as u32),
        None => None,
    }
}

fn listed_item(item: &AssociationToReset) -> Listed
    ensures { result ≡ listed_item item.now }
{
    Listed {
        id: mme_ue_id_of(item.value.mme_ue_id),
        enb_ue_id: enb_ue_id_of(item.value.enb_ue_id),
    }
}

/// The ids that each item gives.
pub(crate) fn listed_items(
    alloc: Global,
    items: &[AssociationToReset],
) -> Result<Vec<Listed>, AllocError>
    ensures { IfOk result (λ listed. listed.items ≡ map listed_item items.now) }
{
    items.iter().map(|item| listed_item(item)).collect(alloc)
}
