//! What a RESET makes of a station (TS 36.413 clause 8.7.1).

ghost use Rattle.std.specs.Prelude.{◌≡◌, List, IfOk, Ok, Err};
ghost use Rattle.s1ap_pdus.specs.Pdus.{lists};
ghost use Rattle.mme_types.specs.declared.stations.StationState.{StationState};
ghost use Rattle.mme_routing.specs.Outcome.{begins_anew, not_compatible};
ghost use Rattle.mme_routing.specs.Resets.{ends_listed, part_acknowledge, reset, set_back, whole_acknowledge};
ghost use Rattle.mme_routing.specs.Seen.{destination_of, seen_outcome};

use crate::destination::Destination;
use crate::outcome::{Outcome, not_compatible};
use mme_types::{StationNumber, StationState};
use per_bits::Items;
use s1ap_elements::{AssociationsToReset, Listed, ResetType};
use s1ap_pdus::{Pdu, ResetAcknowledge, S1apPdu};
use std::alloc::{AllocError, Global};
use stranger_machine::{Notice, sent_to};

// The items of a RESET as they are acknowledged: each, in order, those too that mean no association.
fn part_acknowledge<'a>(
    alloc: Global,
    items: &AssociationsToReset,
) -> Result<S1apPdu<'a>, AllocError>
    ensures { IfOk result (λ m. lists m ≡ part_acknowledge items.now) }
{
    let listed = items.as_slice();
    let mut values = Vec::with_capacity(alloc, items.len())?;
    for item in listed {
        values.push(Listed { value: item.value })?;
    }
    let associations = Items::try_new(values);
    Ok(Pdu::ResetAcknowledge(ResetAcknowledge { associations }))
}

fn whole_acknowledge<'a>() -> S1apPdu<'a>
    ensures { lists result ≡ whole_acknowledge }
{
    Pdu::ResetAcknowledge(ResetAcknowledge { associations: None })
}

fn ends_listed<'a>(
    alloc: Global,
    station: StationNumber,
    items: AssociationsToReset,
) -> Result<Outcome<'a>, AllocError>
    ensures { IfOk result (λ h. (stations : List StationState) → seen_outcome stations h ≡ ends_listed station items) }
{
    let acknowledge = part_acknowledge(alloc, &items)?;
    let sent = sent_to(alloc, station, acknowledge)?;
    Ok(Outcome {
        state: None,
        sent,
        destination: Destination::Everyone(Notice::Listed(station, items)),
    })
}

fn set_back<'a>(
    alloc: Global,
    station: StationNumber,
    reset_type: ResetType,
) -> Result<Outcome<'a>, AllocError>
    ensures { IfOk result (λ h. (stations : List StationState) → seen_outcome stations h ≡ set_back station reset_type) }
{
    match reset_type {
        ResetType::All(_) => {
            let sent = sent_to(alloc, station, whole_acknowledge())?;
            Ok(Outcome::begins_anew(station, None, sent))
        }
        ResetType::Part(items) => ends_listed(alloc, station, items),
    }
}

/// What a RESET makes of a station: where it is set up, its associations end, all or those of the list, and RESET ACKNOWLEDGE has
/// the items of the list; where it isn't, the message isn't compatible (TS 36.413 clause 8.7.1). Refused where memory is.
pub fn reset<'a>(
    alloc: Global,
    station: StationNumber,
    state: &StationState,
    reset_type: ResetType,
) -> Result<Outcome<'a>, AllocError>
    ensures { IfOk result (λ h. (stations : List StationState) → seen_outcome stations h ≡ reset station state.now reset_type) }
{
    match state {
        StationState::Ready(_) => set_back(alloc, station, reset_type),
        StationState::Up | StationState::Down => not_compatible(alloc, station),
    }
}
