// What every puzzle gives: its size, places, variables and rows, and whether bytes are an answer.
ghost use Rattle.std.specs.Prelude.{◌≡◌, length};
ghost use Rattle.puzzles.specs.Boards.{Board, Faithful, Lined, rows as board_rows, vars as board_vars};
ghost use Rattle.std.specs.List.{slice_get};

use rows::Row;

/// A puzzle has a size and places; an answer is one byte for each place, from 0 to size - 1.
/// Its rows are of kind 1. Board variable (place, value) has number place × size + value, and slacks follow in the order of their rows.
pub trait Puzzle {
    /// What the puzzle is.
    ghost board: { Self → Board };

    /// How many values there are: a value is a number from 0 to size - 1.
    fn size(&self) -> u8
        ensures { result ≡ (board self.now).size };

    /// How many places an answer has.
    fn places(&self) -> usize
        ensures { result ≡ (board self.now).places };

    /// How many variables the rows are over: those of the board, then the slacks.
    fn vars(&self) -> u32
        ensures { result ≡ board_vars (board self.now) };

    /// How many rows there are.
    fn rows(&self) -> u32
        ensures { result ≡ length (board_rows (board self.now)) };

    /// The row of an index from 0 on; none past the last.
    fn row(&self, index: u32) -> Option<Row>
        ensures { result ≡ slice_get (board_rows (board self.now)) index };

    /// Whether bytes are an answer.
    fn is_answer(&self, answer: &[u8]) -> bool
        ensures { result ≡ (board self.now).answer answer.now };

    /// What a puzzle shows of its own: its answers are the lists of values that meet its lines. From that it follows, once for
    /// all puzzles, that answers and solutions match one to one.
    ghost lined: { (p : Self) → Lined (board p) };
}

/// The law of every puzzle: its answers and the solutions of its rows match one to one, by `encode` and `decode`.
/// Nothing is run: a call brings the law into the caller's proof.
pub fn faithful<P: Puzzle>(puzzle: &P)
    ensures { Faithful (P.Puzzle.board puzzle.now) }
{
    let _ = puzzle;
}
