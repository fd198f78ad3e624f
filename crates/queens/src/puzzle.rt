// What a queens puzzle holds.
ghost use Rattle.std.specs.Prelude.{◌≡◌, true};
ghost use Rattle.queens.specs.Queens.{queens_makeable};

use puzzles::Given;

// The smallest board, and the largest.
pub(crate) const SMALLEST: usize = 1;

pub(crate) const LARGEST: usize = 12;

/// Queens on a square board of 1 to 12 rows: a place is a board row, a value is a column.
/// An answer has one queen in each row and column, at most one on each diagonal, and every given.
#[derive(Clone, Copy)]
pub struct Queens<'a> {
    pub(crate) size: u8,
    pub(crate) givens: &'a [Given],
    ghost made: { queens_makeable size givens.now ≡ true },
}
