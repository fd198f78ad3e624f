// Making a Latin square.
ghost use Rattle.std.specs.Prelude.{◌≡◌, ◌*◌, []};
ghost use Rattle.puzzles.specs.Givens.{fits};
ghost use Rattle.latin.specs.Latin.{largest, smallest};
ghost use Rattle.latin.specs.Made.{latin_setup};
ghost use Rattle.puzzles.specs.Making.{Makes, setup};
ghost use Rattle.rows.specs.Firsts.{First, first_failing};

use crate::puzzle::{LARGEST, Latin, SMALLEST};
use puzzles::Given;
use puzzles::givens::first_outside;
use puzzles::making::{check_entries, check_limits};
use rows::Fault;

impl<'a> Latin<'a> {
    /// The smallest square, with no givens.
    pub fn new() -> Latin<'a>
        ensures { latin_setup result ≡ setup smallest [] }
    {
        Latin {
            size: SMALLEST as u8,
            givens: &[],
        }
    }

    /// Sets the size and the givens, which are lent, or refuses and leaves the puzzle as it was:
    /// stop 1 for a size that is not 1 to 9, stop 2 for more than 256 givens, stop 4 for the first given off the board.
    #[tactic(auto, using(puzzles::proofs::Chains::firsts))]
    pub fn make(&mut self, size: usize, givens: &'a [Given]) -> Result<(), Fault>
        ensures makes { Makes smallest largest (fits size (size * size)) (latin_setup self.old) (latin_setup self.new) size givens.now result }
        ensures first { First (fits size (size * size)) givens.now (first_failing (fits size (size * size)) 0 givens.now) }
    {
        check_limits(SMALLEST, LARGEST, size, givens.len())?;
        check_entries(first_outside(size, size * size, givens))?;
        *self = Latin {
            size: size as u8,
            givens,
        };
        Ok(())
    }
}
