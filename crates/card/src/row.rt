// Rows of one kind in a table of numbers, one behind the other.
ghost use Rattle.std.specs.Prelude.{◌≡◌, ◌<◌, ℕ, List, length};
ghost use Rattle.std.specs.Iterator.{YieldsFirst, item_count};
ghost use Rattle.card.specs.RowList.{rows_in};

use std::marker::{Model, PhantomData};

// A row of a table, which is made of so many numbers.
pub trait Row {
    const FIELDS: usize;

    ghost FIELDS: { ℕ };

    ghost made: { List ℕ → Self };

    // Two wrong ones that this rules out: one that takes a place of kind in for one of kind out, and one that mixes up the fields.
    fn of(numbers: &[u16]) -> Self
        requires { length numbers.now ≡ FIELDS }
        ensures { result ≡ made numbers.now };

    ghost some: { 0 < FIELDS };
}

// The rows that numbers spell, one at a time; what is too short for one more is none. Two wrong ones that this rules out: one that gives every
// second row, and one whose rows begin a number later each.
#[derive(Drop)]
pub struct RowsOf<'a, R: Row> {
    numbers: &'a [u16],
    kind: PhantomData<R>,
}

impl<'a, R: Row> Model for RowsOf<'a, R> {
    ghost Value = { List R };

    ghost view = { λ rows. rows_in R.FIELDS R.made rows.numbers.now };
}

impl<'a, R: Row> RowsOf<'a, R> {
    pub(crate) fn new(numbers: &'a [u16]) -> RowsOf<'a, R>
        ensures { result ≡ rows_in R.FIELDS R.made numbers.now }
    {
        RowsOf {
            numbers,
            kind: PhantomData,
        }
    }
}

impl<'a, R: Row> Iterator for RowsOf<'a, R> {
    type Item = R;

    ghost next_gives = { YieldsFirst (λ rows. rows) };

    ghost remaining = { item_count (λ rows. rows) };

    #[inline(always)]
    fn next(&mut self) -> Option<R> {
        let (row, rest) = self.numbers.split_at_checked(R::FIELDS)?;
        self.numbers = rest;
        Some(R::of(row))
    }
}
