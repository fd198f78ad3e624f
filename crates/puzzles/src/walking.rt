// Walking over the rows of a puzzle.
ghost use Rattle.std.specs.Prelude.{◌≡◌, ◌<◌, ◌^◌, ℕ, List, drop, length};
ghost use Rattle.std.specs.Iterator.{YieldsFirst, item_count};
ghost use Rattle.puzzles.specs.Boards.{rows as board_rows};

use crate::boards::Puzzle;
use rows::Row;
use std::marker::Model;
use std::ops::Range;

/// The rows of a puzzle in order, which callers see as the list of those that are left.
#[derive(Drop)]
pub struct RowsOf<'a, P: Puzzle> {
    puzzle: &'a P,
    indices: Range<u32>,
}

impl<'a, P: Puzzle> Model for RowsOf<'a, P> {
    ghost Value = { List (List ℕ) };

    ghost view = { λ r. drop r.indices.start (board_rows (P.Puzzle.board r.puzzle.now)) };

    ghost invariant = { λ r. r.indices.end ≡ length (board_rows (P.Puzzle.board r.puzzle.now)) };
}

impl<'a, P: Puzzle> Iterator for RowsOf<'a, P> {
    type Item = Row;

    ghost next_gives = { YieldsFirst (λ rows. rows) };

    ghost remaining = { item_count (λ rows. rows) };

    fn next(&mut self) -> Option<Row> {
        let index = self.indices.next()?;
        self.puzzle.row(index)
    }
}

/// All rows of a puzzle.
pub fn rows_of<P: Puzzle>(puzzle: &P) -> RowsOf<'_, P>
    ensures all { result ≡ board_rows (P.Puzzle.board puzzle.now) }
    ensures few { length (board_rows (P.Puzzle.board puzzle.now)) < 2 ^ 32 }
{
    RowsOf {
        puzzle,
        indices: 0..puzzle.rows(),
    }
}
