// A Latin square as a puzzle: its rows, and which fillings are answers.
ghost use Rattle.latin.specs.Made.{latin_of};
ghost use Rattle.latin.specs.laws.LatinLined.{latin-lined};

use crate::puzzle::Latin;
use crate::standing::is_square;
use puzzles::Puzzle;
use puzzles::filling::run;
use puzzles::givens::{all_given, given_row};
use rows::Row;

impl<'a> Puzzle for Latin<'a> {
    ghost board = { latin_of };

    ghost lined = { λ l. latin-lined l.size l.givens.now l.made };

    fn size(&self) -> u8 {
        self.size
    }

    fn places(&self) -> usize {
        let size = usize::from(self.size);
        size * size
    }

    fn vars(&self) -> u32 {
        let n = self.size as u32;
        n * n * n
    }

    fn rows(&self) -> u32 {
        let n = self.size as u32;
        3 * n * n + self.givens.len() as u32
    }

    fn row(&self, index: u32) -> Option<Row> {
        let n = self.size as u32;
        let cells = n * n;
        if index < cells {
            return run(index * n, 1, n);
        }
        if index < 2 * cells {
            let i = index - cells;
            return run(i / n * cells + i % n, n, n);
        }
        if index < 3 * cells {
            return run(index - 2 * cells, cells, n);
        }
        given_row(self.givens, self.size, index - 3 * cells)
    }

    fn is_answer(&self, answer: &[u8]) -> bool {
        let n = usize::from(self.size);
        answer.len() == n * n && is_square(n, answer) && all_given(self.givens, answer)
    }
}
