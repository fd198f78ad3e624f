// What a Latin square holds.
ghost use Rattle.std.specs.Prelude.{◌≡◌, true};
ghost use Rattle.latin.specs.Latin.{latin_makeable};

use puzzles::Given;

// The smallest square, and the largest.
pub(crate) const SMALLEST: usize = 1;

pub(crate) const LARGEST: usize = 9;

/// A Latin square of 1 to 9 symbols: a place is board row × size + column, a value is a symbol.
/// An answer has each symbol once in each row and column, and every given.
#[derive(Clone, Copy)]
pub struct Latin<'a> {
    pub(crate) size: u8,
    pub(crate) givens: &'a [Given],
    ghost made: { latin_makeable size givens.now ≡ true },
}
