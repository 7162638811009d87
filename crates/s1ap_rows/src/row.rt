//! Rows as types: a table of rows is a type, and what was read of them a value of it.

ghost use Rattle.std.specs.Prelude.{◌≡◌, OnErr, option_map};
ghost use Rattle.s1ap_rows.specs.Criticalities.{criticality_named};
ghost use Rattle.s1ap_rows.specs.Rows.{ie, end, needed, optional, unkept, Presence};
ghost use Rattle.s1ap_rows.specs.Reading.{put_at};
ghost use Rattle.s1ap_rows.specs.Answers.{Reads};

use crate::criticality::Criticality;
use crate::engine::{count_some, fill, pass, put_element, put_some};
use crate::fault::S1apFault;
use crate::message::{Message, Written};
use per_bits::{BitReader, BitWriter, Element, PerError};
use std::alloc::Global;

/// A row whose element must stand: its id, the number of its criticality, and the element.
#[derive(Drop)]
pub struct Needed<const ID: u16, const CRITICALITY: u8, T> {
    value: Option<T>,
}

/// A row whose element may stand.
#[derive(Drop)]
pub struct Optional<const ID: u16, const CRITICALITY: u8, T> {
    value: Option<T>,
}

/// A row whose element may stand, and is not kept.
#[derive(Drop)]
pub struct Unkept<const ID: u16, const CRITICALITY: u8, T> {
    value: Option<T>,
}

/// No more rows.
#[derive(Drop)]
pub struct End;

/// A row, and the rows after it.
#[derive(Drop)]
pub struct Row<A, R> {
    first: A,
    others: R,
}

/// A table of one row.
pub type OneRow<A> = Row<A, End>;

/// A table of two rows.
pub type TwoRows<A, B> = Row<A, OneRow<B>>;

/// A table of three rows.
pub type ThreeRows<A, B, C> = Row<A, TwoRows<B, C>>;

/// A table of four rows.
pub type FourRows<A, B, C, D> = Row<A, ThreeRows<B, C, D>>;

/// A table of five rows.
pub type FiveRows<A, B, C, D, E> = Row<A, FourRows<B, C, D, E>>;

/// A table of six rows.
pub type SixRows<A, B, C, D, E, F> = Row<A, FiveRows<B, C, D, E, F>>;

// An element of this row or of those after it, whatever its criticality and presence; refused, they are as they were.
fn put_row<'a, const ID: u16, T: Element<'a>, R: Message<'a>>(
    alloc: Global,
    id: u16,
    value: &mut Option<T>,
    others: &mut R,
    reader: &mut BitReader<'a>,
) -> Result<(), S1apFault>
    ensures reads { (c : Criticality) (p : Presence) → Reads result ((option_map T.view value.new, R.slots others.new), reader.new)
        (put_at (ie ID c p T.format R.rows) id (option_map T.view value.old, R.slots others.old) reader.old) }
    ensures element { OnErr result (option_map T.view value.new ≡ option_map T.view value.old) }
    ensures others { OnErr result (R.slots others.new ≡ R.slots others.old) }
{
    if id == ID {
        fill(alloc, id, value, reader)
    } else {
        others.put(alloc, id, reader)
    }
}

impl<'a> Message<'a> for End {
    type Elements = ();

    ghost rows = { end };

    ghost slots = { λ m. tt };

    ghost view = { λ v. tt };

    fn none() -> Self {
        End
    }

    fn put(
        &mut self,
        _alloc: Global,
        id: u16,
        reader: &mut BitReader<'a>,
    ) -> Result<(), S1apFault> {
        pass(id, reader)
    }

    fn elements(self) -> Result<(), S1apFault> {
        Ok(())
    }
}

impl<'a, const ID: u16, const CRITICALITY: u8, T: Element<'a> + 'a, R: Message<'a>> Message<'a>
    for Row<Needed<ID, CRITICALITY, T>, R> {
    type Elements = (T, R::Elements);

    ghost rows = { ie ID (criticality_named CRITICALITY) needed T.format R.rows };

    ghost slots = { λ m. (option_map T.view m.first.value, R.slots m.others) };

    ghost view = { λ v. (T.view v.0, R.view v.1) };

    fn none() -> Self {
        let first = Needed { value: None };
        let others = R::none();
        Row { first, others }
    }

    fn put(&mut self, alloc: Global, id: u16, reader: &mut BitReader<'a>) -> Result<(), S1apFault> {
        put_row::<ID, T, R>(alloc, id, &mut self.first.value, &mut self.others, reader)
    }

    fn elements(self) -> Result<(T, R::Elements), S1apFault> {
        let Row { first, others } = self;
        match first.value {
            Some(value) => Ok((value, others.elements()?)),
            None => Err(S1apFault::MissingElement(ID)),
        }
    }
}

impl<'a, const ID: u16, const CRITICALITY: u8, T: Element<'a> + 'a, R: Message<'a>> Message<'a>
    for Row<Optional<ID, CRITICALITY, T>, R> {
    type Elements = (Option<T>, R::Elements);

    ghost rows = { ie ID (criticality_named CRITICALITY) optional T.format R.rows };

    ghost slots = { λ m. (option_map T.view m.first.value, R.slots m.others) };

    ghost view = { λ v. (option_map T.view v.0, R.view v.1) };

    fn none() -> Self {
        let first = Optional { value: None };
        let others = R::none();
        Row { first, others }
    }

    fn put(&mut self, alloc: Global, id: u16, reader: &mut BitReader<'a>) -> Result<(), S1apFault> {
        put_row::<ID, T, R>(alloc, id, &mut self.first.value, &mut self.others, reader)
    }

    fn elements(self) -> Result<(Option<T>, R::Elements), S1apFault> {
        let Row { first, others } = self;
        let others = others.elements()?;
        Ok((first.value, others))
    }
}

impl<'a, const ID: u16, const CRITICALITY: u8, T: Element<'a> + 'a, R: Message<'a>> Message<'a>
    for Row<Unkept<ID, CRITICALITY, T>, R> {
    type Elements = R::Elements;

    ghost rows = { ie ID (criticality_named CRITICALITY) unkept T.format R.rows };

    ghost slots = { λ m. (option_map T.view m.first.value, R.slots m.others) };

    ghost view = { λ v. R.view v };

    fn none() -> Self {
        let first = Unkept { value: None };
        let others = R::none();
        Row { first, others }
    }

    fn put(&mut self, alloc: Global, id: u16, reader: &mut BitReader<'a>) -> Result<(), S1apFault> {
        put_row::<ID, T, R>(alloc, id, &mut self.first.value, &mut self.others, reader)
    }

    fn elements(self) -> Result<R::Elements, S1apFault> {
        self.others.elements()
    }
}

impl<'a> Written<'a> for End {
    type Lent = ();

    ghost rows = { end };

    ghost lent = { λ v. tt };

    fn count(_elements: &(), before: u64) -> u64 {
        before
    }

    fn write(_alloc: Global, _elements: &(), _writer: &mut BitWriter) -> Result<(), PerError> {
        Ok(())
    }
}

impl<'a, const ID: u16, const CRITICALITY: u8, T: Element<'a> + 'a, R: Written<'a>> Written<'a>
    for Row<Needed<ID, CRITICALITY, T>, R> {
    type Lent = (&'a T, R::Lent);

    ghost rows = { ie ID (criticality_named CRITICALITY) needed T.format R.rows };

    ghost lent = { λ v. (T.view v.0.now, R.lent v.1) };

    fn count(elements: &(&'a T, R::Lent), before: u64) -> u64 {
        R::count(&elements.1, before + 1)
    }

    fn write(
        alloc: Global,
        elements: &(&'a T, R::Lent),
        writer: &mut BitWriter,
    ) -> Result<(), PerError> {
        let criticality = Criticality::named(CRITICALITY);
        put_element::<T>(alloc, ID, criticality, elements.0, writer)?;
        R::write(alloc, &elements.1, writer)
    }
}

impl<'a, const ID: u16, const CRITICALITY: u8, T: Element<'a> + 'a, R: Written<'a>> Written<'a>
    for Row<Optional<ID, CRITICALITY, T>, R> {
    type Lent = (&'a Option<T>, R::Lent);

    ghost rows = { ie ID (criticality_named CRITICALITY) optional T.format R.rows };

    ghost lent = { λ v. (option_map T.view v.0.now, R.lent v.1) };

    fn count(elements: &(&'a Option<T>, R::Lent), before: u64) -> u64 {
        R::count(&elements.1, before + count_some::<T>(elements.0))
    }

    fn write(
        alloc: Global,
        elements: &(&'a Option<T>, R::Lent),
        writer: &mut BitWriter,
    ) -> Result<(), PerError> {
        let criticality = Criticality::named(CRITICALITY);
        put_some::<T>(alloc, ID, criticality, elements.0, writer)?;
        R::write(alloc, &elements.1, writer)
    }
}

impl<'a, const ID: u16, const CRITICALITY: u8, T: Element<'a> + 'a, R: Written<'a>> Written<'a>
    for Row<Unkept<ID, CRITICALITY, T>, R> {
    type Lent = R::Lent;

    ghost rows = { ie ID (criticality_named CRITICALITY) unkept T.format R.rows };

    ghost lent = { λ v. R.lent v };

    fn count(elements: &R::Lent, before: u64) -> u64 {
        R::count(elements, before)
    }

    fn write(alloc: Global, elements: &R::Lent, writer: &mut BitWriter) -> Result<(), PerError> {
        R::write(alloc, elements, writer)
    }
}
