//! Lists of elements.

ghost use Rattle.std.specs.Prelude.{◌≡◌, ◌≤◌, ◌-◌, ◌↔◌, ◌∷◌, [], List, map, length, IsSome, IfSome, IfOk, IsTrue, slice_get, option_copied};
ghost use Rattle.per_streams.specs.Bits.{Place, Gives};
ghost use Rattle.per_bits.specs.Formats.{Format, Value, items};
ghost use Rattle.per_bits.specs.Reading.{read_at};
ghost use Rattle.per_streams.specs.Reading.{number_at};
ghost use Rattle.per_streams.specs.Each.{times};
ghost use Rattle.per_bits.specs.Writing.{write_at, write_each};
ghost use Rattle.per_streams.specs.Writing.{Wrote, write_number};

use crate::element::Element;
use per_streams::{BitReader, BitWriter, PerError, offset_of, put_number};
use std::alloc::{AllocError, Global};
use std::marker::Model;

fn read_times<'a, T: Element<'a>>(
    alloc: Global,
    count: usize,
    reader: &mut BitReader<'a>,
) -> Result<Vec<T>, PerError>
    ensures { Gives (λ v. map T.view v.items) result reader.new (times (read_at T.format) count reader.old) }
{
    let mut values = Vec::new(alloc);
    for _ in 0..count {
        let value = T::read(alloc, reader)?;
        values.push(value)?;
    }
    Ok(values)
}

fn write_all<'a, T: Element<'a>>(
    alloc: Global,
    values: &[T],
    writer: &mut BitWriter,
) -> Result<(), PerError>
    ensures { Wrote result writer.new (write_each (write_at T.format) (map T.view values.now) writer.old) }
{
    for value in values {
        value.write(alloc, writer)?;
    }
    Ok(())
}

/// From `MIN` to `MAX` values, MAX below 65536 (X.691 clause 20); a contract sees their list.
#[derive(Drop)]
pub struct Items<T: Drop, const MIN: usize, const MAX: usize> {
    values: Vec<T>,
}

impl<T: Drop, const MIN: usize, const MAX: usize> Model for Items<T, MIN, MAX> {
    ghost Value = { List T };

    ghost view = { λ v. v.values.items };

    ghost invariant = { λ v. (MIN ≤ length v.values.items) × (length v.values.items - MIN ≤ MAX - MIN) };
}

impl<T: Drop, const MIN: usize, const MAX: usize> Items<T, MIN, MAX> {
    /// These values, where there are from `MIN` to `MAX`.
    pub fn try_new(values: Vec<T>) -> Option<Self>
        ensures some { IsSome result ↔ ((MIN ≤ length values.items) × (length values.items ≤ MAX)) }
        ensures value { IfSome result (λ v. v ≡ values.items) }
    {
        if values.len() < MIN || values.len() > MAX {
            return None;
        }
        Some(Items { values })
    }

    /// How many values there are.
    pub fn len(&self) -> usize
        ensures value { result ≡ length self.now }
        ensures low { MIN ≤ result }
        ensures high { MIN ≤ MAX → result ≤ MAX }
    {
        self.values.len()
    }

    /// Whether there is none.
    pub fn is_empty(&self) -> bool
        ensures { IsTrue result ↔ (length self.now ≡ 0) }
    {
        self.values.len() == 0
    }

    /// The value at a place, counted from 0, where there is one.
    pub fn get(&self, i: usize) -> Option<&T>
        ensures { option_copied result ≡ slice_get self.now i }
    {
        self.values.get(i)
    }

    /// The values.
    pub fn as_slice(&self) -> &[T]
        ensures { result.now ≡ self.now }
    {
        self.values.as_slice()
    }
}

impl<T: Drop, const MAX: usize> Items<T, 1, MAX> {
    /// A list of one value.
    pub fn only(alloc: Global, value: T) -> Result<Self, AllocError>
        requires { 1 ≤ MAX }
        ensures { IfOk result (λ items. items ≡ value ∷ []) }
    {
        let mut values = Vec::new(alloc);
        values.push(value)?;
        Ok(Items { values })
    }
}

impl<'a, T: Element<'a>, const MIN: usize, const MAX: usize> Element<'a> for Items<T, MIN, MAX> {
    ghost format = { items MIN MAX T.format };

    ghost view = { λ v. map T.view v };

    #[tactic(auto, unfolding(per_streams::specs::Reading::number_at))]
    fn read(alloc: Global, reader: &mut BitReader<'a>) -> Result<Self, PerError> {
        let more = offset_of(MAX.saturating_sub(MIN) as u64, reader)?;
        let values = read_times::<T>(alloc, MIN + more as usize, reader)?;
        Ok(Items { values })
    }

    fn write(&self, alloc: Global, writer: &mut BitWriter) -> Result<(), PerError> {
        put_number(MIN as u64, MAX as u64, self.values.len() as u64, writer)?;
        write_all::<T>(alloc, &self.values, writer)
    }
}
