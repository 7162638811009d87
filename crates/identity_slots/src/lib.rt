//! What is provisioned of each subscriber, by slot, and the ids that are made of slots: association ids (TS 36.413 clause
//! 9.2.3.3) and M-TMSIs (TS 23.003 clause 2.4).
#![tactic(auto)]

mod history;
mod ids;
mod laws;
mod profile;
mod provision;
mod station;
mod vectors;

pub use ids::{AssociationId, COUNTERS, Slot, Tmsi, number_in, station_in};
pub use laws::{imsis_apart, octets_apart};
pub use profile::{GivenKasme, Profile, Vector, Xres};
pub use provision::{Provision, ProvisionFault};
pub use station::StationNumber;
pub use vectors::{GivenVectors, KeptVectors, Vectors};
