//! Lists in the order of a key, kept in chunks, so that a look-up, an insertion and a removal cost about the same in a short
//! list and in a long one, at any key.
//!
//! A caller that must not fail halfway makes room by `reserve` first, and then inserts by `insert_reserved`, which takes no
//! memory. Apart from `reserve`, `insert`, `items` and `copy` no call takes any. Neighbours that fit into one chunk are joined
//! where something is taken out, so a list that shrinks in any order gives its memory back.
//!
//! A list made by `SortedList::steady` holds chunks enough for all that it has and has room for, however they are spread: there
//! is room for another where an element is taken out, so what is moved from one key to another needs no reserve.
//!
//! `specs/Ordered.antt` has the words in which contracts of tables speak of lists in the order of a number of each element, its
//! key; `specs/Laws.antt` and `specs/Indexed.antt` say what is true of them.
#![tactic(auto)]

mod adding;
mod chunk;
mod copying;
mod finding;
mod keyed;
mod list;
mod search;
mod taking;
mod two_parts;

pub use keyed::Keyed;
pub use list::SortedList;
pub use two_parts::{paired, paired_short, pairs_in_order};
