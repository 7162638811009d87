//! No two phones of an MME share an association's id: laws of strangers and subscribers at each event; and the list of their
//! associations, in which each id stands once. No code: definitions, and laws of them.
#![tactic(auto)]

mod laws;

pub use laws::{
    associations_are_a_map, ids_are_made, ids_stay_apart, no_two_share_an_id, octets_go_made,
    strangers_have_made_ids,
};
