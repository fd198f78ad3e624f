// A Hamiltonian cycle puzzle as a puzzle: its rows, and which fillings are answers.
ghost use Rattle.std.specs.Prelude.{◌≡◌, ◌+◌, ◌*◌, ◌/◌, ◌%◌};
ghost use Rattle.std.specs.List.{slice_get};
ghost use Rattle.std.specs.Option.{option_map};
ghost use Rattle.cycles.specs.Cycles.{all_gaps, gap_line};
ghost use Rattle.cycles.specs.Made.{cycles_of};
ghost use Rattle.puzzles.specs.Lines.{row_of};
ghost use Rattle.cycles.specs.laws.CyclesLined.{cycles-lined};

use crate::puzzle::Cycles;
use crate::standing::is_cycle;
use puzzles::Puzzle;
use puzzles::filling::{run, with_variable};
use rows::Row;

impl<'a> Cycles<'a> {
    // The row of slack j, of gap j / n at position j % n; none past the last.
    fn gap_row(&self, j: u32) -> Option<Row>
        ensures { let n = self.now.size in result ≡ option_map (λ x. row_of n (n * n + j) (gap_line n x (j % n))) (slice_get (all_gaps n self.now.arcs.now) (j / n)) }
    {
        let n = self.size as u32;
        let gap = self.gaps.get(j / n)?;
        let position = j % n;
        let following = (position + 1) % n;
        let first = run(position * n + gap.from as u32, 1, 1)?;
        let both = with_variable(first, following * n + gap.to as u32)?;
        with_variable(both, n * n + j)
    }
}

impl<'a> Puzzle for Cycles<'a> {
    ghost board = { cycles_of };

    ghost lined = { λ c. cycles-lined c.size c.arcs.now c.made };

    fn size(&self) -> u8 {
        self.size
    }

    fn places(&self) -> usize {
        usize::from(self.size)
    }

    fn vars(&self) -> u32 {
        let n = self.size as u32;
        n * n + n * self.gaps.count()
    }

    fn rows(&self) -> u32 {
        let n = self.size as u32;
        2 * n + 1 + n * self.gaps.count()
    }

    fn row(&self, index: u32) -> Option<Row> {
        let n = self.size as u32;
        if index < n {
            return run(index * n, 1, n);
        }
        if index < 2 * n {
            return run(index - n, n, n);
        }
        if index == 2 * n {
            return run(0, 1, 1);
        }
        self.gap_row(index - 2 * n - 1)
    }

    fn is_answer(&self, answer: &[u8]) -> bool {
        answer.len() == self.size as usize && is_cycle(&self.linked, answer)
    }
}
