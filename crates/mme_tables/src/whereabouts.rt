//! Where a phone is.

ghost use Rattle.std.specs.Prelude.{◌≡◌, ◌↔◌, true};

use mme_types::Connection;

/// Where a slot's phone is: its connection, if it has one, and whether a paging for it is to be sent again.
#[derive(Clone, Copy)]
pub struct Whereabouts {
    pub connection: Option<Connection>,
    pub is_paged: bool,
}

// Whether it is the same connection, or none is either.
fn is_same_connection(old: &Option<Connection>, new: &Option<Connection>) -> bool
    ensures { (result ≡ true) ↔ (old.now ≡ new.now) }
{
    match old {
        Some(old) => match new {
            Some(new) => {
                old.id == new.id && old.station == new.station && old.enb_ue_id == new.enb_ue_id
            }
            None => false,
        },
        None => new.is_none(),
    }
}

/// Whether a phone stays where it was.
pub(crate) fn is_same(old: &Whereabouts, new: &Whereabouts) -> bool
    ensures { (result ≡ true) ↔ (old.now ≡ new.now) }
{
    old.is_paged == new.is_paged && is_same_connection(&old.connection, &new.connection)
}
