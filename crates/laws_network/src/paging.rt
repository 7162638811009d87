//! A phone is paged only where it is, over every run of the MME, and by what its tracking area changes. Each law is the contract of
//! a function that does nothing.

ghost use Rattle.laws_network.specs.Areas.{AreasComeSo};
ghost use Rattle.laws_network.specs.Paged.{AllWhoListen, PagedWhereTheyAre};

use crate::answers::what_stations_tell_is_in_range;
use crate::stations::everybody_is_placed;
use laws_mme::work_is_bounded;
use laws_subscriber::unproved_leaves;
use s1ap_pdus::what_is_encoded;

/// Over every run each PAGING for a subscriber, the first time and each time again, goes to a station that is set up and broadcasts
/// the tracking area that it names, which is the phone's, under the phone's M-TMSI; no two go to one station (TS 36.413 clause 8.5,
/// TS 24.301 clause 5.6.2).
pub fn phones_are_paged_where_they_are()
    ensures { PagedWhereTheyAre }
{
    what_is_encoded();
    everybody_is_placed();
    work_is_bounded();
    what_stations_tell_is_in_range();
}

/// Where data waits for a phone that may be paged, all stations that are set up and broadcast its tracking area are asked, and are
/// those that PAGING goes to again.
pub fn all_who_listen_are_asked()
    ensures { AllWhoListen }
{}

/// The tracking area of a registered phone stays at a step, or is the one that the station names with an ATTACH REQUEST in the
/// phone's name or with a message that carries the phone's MAC (TS 24.301 clauses 5.5.1.2.4, 5.5.3.2.4).
pub fn tracking_areas_come_so()
    ensures { AreasComeSo }
{
    unproved_leaves();
}
