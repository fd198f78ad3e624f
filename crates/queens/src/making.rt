// Making a queens puzzle.
ghost use Rattle.std.specs.Prelude.{◌≡◌, []};
ghost use Rattle.puzzles.specs.Givens.{fits};
ghost use Rattle.puzzles.specs.Making.{Makes, setup};
ghost use Rattle.queens.specs.Queens.{largest, smallest};
ghost use Rattle.queens.specs.Made.{queens_setup};
ghost use Rattle.rows.specs.Firsts.{First, first_failing};

use crate::puzzle::{LARGEST, Queens, SMALLEST};
use puzzles::Given;
use puzzles::givens::first_outside;
use puzzles::making::{check_entries, check_limits};
use rows::Fault;

impl<'a> Queens<'a> {
    /// The smallest board, with no givens.
    pub fn new() -> Queens<'a>
        ensures { queens_setup result ≡ setup smallest [] }
    {
        Queens {
            size: SMALLEST as u8,
            givens: &[],
        }
    }

    /// Sets the size and the givens, which are lent, or refuses and leaves the puzzle as it was:
    /// stop 1 for a size that is not 1 to 12, stop 2 for more than 256 givens, stop 4 for the first given off the board.
    #[tactic(auto, using(puzzles::proofs::Chains::firsts))]
    pub fn make(&mut self, size: usize, givens: &'a [Given]) -> Result<(), Fault>
        ensures makes { Makes smallest largest (fits size size) (queens_setup self.old) (queens_setup self.new) size givens.now result }
        ensures first { First (fits size size) givens.now (first_failing (fits size size) 0 givens.now) }
    {
        check_limits(SMALLEST, LARGEST, size, givens.len())?;
        check_entries(first_outside(size, size, givens))?;
        *self = Queens {
            size: size as u8,
            givens,
        };
        Ok(())
    }
}
