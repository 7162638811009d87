//! The associations of a station that a list means, gathered by look-ups before any of them is closed.

ghost use Rattle.std.specs.Prelude.{◌≡◌, ◌≤◌, ◌^◌, OnOk, IfOk, Some, None, ◌==◌, ◌&&◌};
ghost use Rattle.std.specs.List.{list_any};
ghost use Rattle.association_table.specs.declared.association.Listed.{Listed};
ghost use Rattle.association_table.specs.Listing.{agrees, listed_at};
ghost use Rattle.association_table.specs.Gathering.{is_matched, is_numbered, gives_alone, put_once, Gathers, GathersNext};

use crate::association::{Association, Listed};
use crate::table::{Associations, association_id};
use sorted_list::SortedList;
use std::alloc::{AllocError, Global};

/// Whether an id that is given is the association's.
fn agrees(given: Option<u32>, id: u32) -> bool
    ensures { result ≡ agrees given id }
{
    match given {
        Some(given) => id == given,
        None => true,
    }
}

/// Whether an association is of a station, and has the eNB UE id that may be given.
fn belongs(association: Association, station: u8, enb_ue_id: Option<u32>) -> bool
    ensures { result ≡ (association.station == station && agrees enb_ue_id association.enb_ue_id) }
{
    association.station == station && agrees(enb_ue_id, association.enb_ue_id)
}

/// Puts an association among those that were gathered, once.
fn gather(
    association: Association,
    gathered: &mut SortedList<Association>,
) -> Result<(), AllocError>
    ensures { OnOk result (gathered.new.items ≡ put_once association gathered.old.items) }
{
    if gathered.find(u128::from(association.id)).is_none() {
        gathered.insert(association)?;
    }
    Ok(())
}

/// Gathers the association with an id, if it is the station's and has the eNB UE id that is given.
fn gather_id(
    associations: &Associations,
    station: u8,
    id: u32,
    enb_ue_id: Option<u32>,
    gathered: &mut SortedList<Association>,
) -> Result<(), AllocError>
    ensures { OnOk result
        (Gathers (is_matched station
        (record { id = Some id; enb_ue_id = enb_ue_id })) associations.now.entries gathered.old.items gathered.new.items) }
{
    let Some(association) = associations.find(id) else {
        return Ok(());
    };
    if belongs(association, station, enb_ue_id) {
        gather(association, gathered)?;
    }
    Ok(())
}

/// Gathers the associations of a station with an eNB UE id.
fn gather_number(
    associations: &Associations,
    station: u8,
    enb_ue_id: u32,
    gathered: &mut SortedList<Association>,
) -> Result<(), AllocError>
    ensures { OnOk result (Gathers (is_numbered station enb_ue_id) associations.now.entries gathered.old.items gathered.new.items) }
{
    let mut least = 0;
    while let Some(association) = associations.first_numbered(station, enb_ue_id, least) {
        gather(association, gathered)?;
        least = u64::from(association_id(association)) + 1;
    }
    Ok(())
}

/// Whether an item gives this eNB UE id alone.
fn gives_alone(item: Listed, enb_ue_id: u32) -> bool
    ensures { result ≡ gives_alone enb_ue_id item }
{
    item.id.is_none() && item.enb_ue_id.is_some() && agrees(item.enb_ue_id, enb_ue_id)
}

/// Whether one of these items gives this eNB UE id alone: then its associations were gathered.
fn is_given_alone(enb_ue_id: u32, items: &[Listed]) -> bool
    ensures { result ≡ list_any (gives_alone enb_ue_id) items.now }
{
    items.iter().any(|item| gives_alone(*item, enb_ue_id))
}

/// Gathers the associations of a station with an eNB UE id, unless one of the items before gives it alone.
fn gather_unnamed(
    associations: &Associations,
    station: u8,
    before: &[Listed],
    enb_ue_id: u32,
    gathered: &mut SortedList<Association>,
) -> Result<(), AllocError>
    ensures { OnOk result
        (GathersNext station before.now
        (record { id = None; enb_ue_id = Some enb_ue_id }) associations.now.entries gathered.old.items gathered.new.items) }
{
    if is_given_alone(enb_ue_id, before) {
        return Ok(());
    }
    gather_number(associations, station, enb_ue_id, gathered)
}

/// Gathers what an item means, where what those before it mean was gathered.
fn gather_item(
    associations: &Associations,
    station: u8,
    before: &[Listed],
    item: Listed,
    gathered: &mut SortedList<Association>,
) -> Result<(), AllocError>
    ensures { OnOk result (GathersNext station before.now item associations.now.entries gathered.old.items gathered.new.items) }
{
    if let Some(id) = item.id {
        return gather_id(associations, station, id, item.enb_ue_id, gathered);
    }
    match item.enb_ue_id {
        Some(enb_ue_id) => gather_unnamed(associations, station, before, enb_ue_id, gathered),
        None => Ok(()),
    }
}

/// The associations of a station that some item matches: for an item with an id one look-up by it, for one with an eNB UE id
/// alone one for each association that has it, once for all items that give it alone.
pub(crate) fn gathered(
    alloc: Global,
    associations: &Associations,
    station: u8,
    items: &[Listed],
) -> Result<SortedList<Association>, AllocError>
    ensures { IfOk result (λ gathered. gathered.items ≡ listed_at station items.now associations.now.entries) }
{
    let mut gathered = SortedList::new(alloc);
    for place in 0..items.len() {
        let before = &items[..place];
        gather_item(associations, station, before, items[place], &mut gathered)?;
    }
    Ok(gathered)
}
