// The queens puzzle as a puzzle: its rows, and which fillings are answers.
ghost use Rattle.std.specs.Prelude.{◌≡◌, ◌+◌, ◌-◌, ◌*◌, ◌<◌, ◌≤◌, Some};
ghost use Rattle.puzzles.specs.Lines.{row_of};
ghost use Rattle.queens.specs.Made.{queens_of};
ghost use Rattle.queens.specs.laws.QueensLined.{queens-lined};
ghost use Rattle.queens.specs.Queens.{falling, largest, rising};

use crate::puzzle::Queens;
use crate::standing::all_apart;
use puzzles::Puzzle;
use puzzles::checks::{all_below, each_once};
use puzzles::filling::{run, run_and};
use puzzles::givens::{all_given, given_row};
use rows::Row;

// The side of a board, by which its diagonals are counted and written down.
#[derive(Clone, Copy)]
struct Side {
    n: u32,
    ghost small: { n ≤ largest },
}

impl Side {
    // How many diagonals of one way have two cells or more.
    fn diagonals(self) -> u32
        ensures { result ≡ 2 * self.n - 3 }
    {
        (2 * self.n).saturating_sub(3)
    }

    // The row of falling diagonal i, on which column - row is i + 2 - n, with its slack.
    fn falling_row(self, i: u32) -> Option<Row>
        requires { i < 2 * self.n - 3 }
        ensures { result ≡ Some (row_of self.n (self.n * self.n + i) (falling self.n (i + 2))) }
    {
        let n = self.n;
        let d = i + 2;
        let (start, count) = if d >= n {
            (d - n, 2 * n - d)
        } else {
            ((n - d) * n, d)
        };
        run_and(start, n + 1, count, n * n + i)
    }

    // The row of rising diagonal i, on which row + column is i + 1, with its slack.
    fn rising_row(self, i: u32) -> Option<Row>
        requires { i < 2 * self.n - 3 }
        ensures { result ≡ Some (row_of self.n (self.n * self.n + (2 * self.n - 3) + i) (rising self.n (i + 1))) }
    {
        let n = self.n;
        let d = i + 1;
        let (start, count) = if d < n {
            (d, d + 1)
        } else {
            ((d - n + 1) * n + n - 1, 2 * n - 1 - d)
        };
        run_and(start, n - 1, count, n * n + self.diagonals() + i)
    }
}

impl<'a> Queens<'a> {
    // The side of its board.
    fn side(&self) -> Side
        ensures { result.n ≡ self.now.size }
    {
        Side {
            n: u32::from(self.size),
        }
    }
}

impl<'a> Puzzle for Queens<'a> {
    ghost board = { queens_of };

    ghost lined = { λ q. queens-lined q.size q.givens.now q.made };

    fn size(&self) -> u8 {
        self.size
    }

    fn places(&self) -> usize {
        usize::from(self.size)
    }

    fn vars(&self) -> u32 {
        let n = self.size as u32;
        n * n + 2 * self.side().diagonals()
    }

    fn rows(&self) -> u32 {
        let n = self.size as u32;
        2 * n + 2 * self.side().diagonals() + self.givens.len() as u32
    }

    fn row(&self, index: u32) -> Option<Row> {
        let n = self.size as u32;
        let side = self.side();
        let ways = side.diagonals();
        if index < n {
            return run(index * n, 1, n);
        }
        if index < 2 * n {
            return run(index - n, n, n);
        }
        let i = index - 2 * n;
        if i < ways {
            return side.falling_row(i);
        }
        if i < 2 * ways {
            return side.rising_row(i - ways);
        }
        given_row(self.givens, self.size, i - 2 * ways)
    }

    #[tactic(auto, using(crate::proofs::Checked::queens_checked))]
    fn is_answer(&self, answer: &[u8]) -> bool {
        let n = self.size as usize;
        answer.len() == n
            && all_below(n, answer)
            && each_once(n, answer)
            && all_apart(answer)
            && all_given(self.givens, answer)
    }
}
