//! Aligned packed encoding rules (X.691, 11/2008): values as bits, read exactly where they are spelled.
#![tactic(auto)]

mod bit_string;
mod choice;
mod element;
mod enumerated;
mod field;
mod items;
mod kept;
mod laws;
mod name;
mod octets;
mod open;
mod protocol_ie;
mod sequence;
mod skips;
mod strings;
mod whole;
mod wrapped;

pub use bit_string::BitString;
pub use choice::{take_choice, write_choice};
pub use element::Element;
pub use enumerated::take_name;
pub use field::BitField;
pub use items::Items;
pub use laws::{one_value, read_exactly, what_is_written, what_is_written_is_read, writes_exactly};
pub use name::Enumerated;
pub use octets::Octets;
pub use open::{
    count_after, put_length, read_complete, read_open, take_length, take_open, take_small_number,
    write_complete, write_counted, write_open,
};
pub use per_streams::{
    BitReader, BitWriter, PerError, PerFault, Whole, offset_of, put_number, put_root,
};
pub use protocol_ie::{LAST_CRITICALITY, put_element, take_id, take_marked};
pub use sequence::{
    put_flags, put_three_flags, read_pair, read_three, read_two, skip_later, take_flags,
    take_three_flags,
};
pub use skips::{skip_additions, skip_extensions};
pub use strings::{OctetString, SizedString, put_aligned, put_open};
pub use wrapped::{Closed, put_optional, read_optional};
