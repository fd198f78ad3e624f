// Making a Hamiltonian cycle puzzle.
ghost use Rattle.std.specs.Prelude.{◌≡◌, []};
ghost use Rattle.cycles.specs.Arcs.{joins};
ghost use Rattle.cycles.specs.Cycles.{largest, smallest};
ghost use Rattle.cycles.specs.Made.{cycles_setup};
ghost use Rattle.puzzles.specs.Making.{Makes, setup};
ghost use Rattle.rows.specs.Firsts.{First, first_failing};

use crate::arcs::Arc;
use crate::checking::first_outside;
use crate::gaps::Gaps;
use crate::links::table_of_arcs;
use crate::puzzle::{Cycles, LARGEST, SMALLEST};
use puzzles::making::{check_entries, check_limits};
use rows::Fault;

impl<'a> Cycles<'a> {
    /// The fewest vertices, with no arcs.
    pub fn new() -> Cycles<'a>
        ensures { cycles_setup result ≡ setup smallest [] }
    {
        let linked = table_of_arcs(SMALLEST, &[]);
        Cycles {
            size: SMALLEST as u8,
            arcs: &[],
            linked,
            gaps: Gaps::of(SMALLEST, &linked),
        }
    }

    /// Sets the number of vertices and the arcs, which are lent, or refuses and leaves the puzzle as it was:
    /// stop 1 for a size that is not 3 to 10, stop 2 for more than 256 arcs, stop 4 for the first arc that does not join vertices.
    #[tactic(auto, using(puzzles::proofs::Chains::firsts))]
    pub fn make(&mut self, size: usize, arcs: &'a [Arc]) -> Result<(), Fault>
        ensures makes { Makes smallest largest (joins size) (cycles_setup self.old) (cycles_setup self.new) size arcs.now result }
        ensures first { First (joins size) arcs.now (first_failing (joins size) 0 arcs.now) }
    {
        check_limits(SMALLEST, LARGEST, size, arcs.len())?;
        check_entries(first_outside(size, arcs))?;
        let linked = table_of_arcs(size, arcs);
        *self = Cycles {
            size: size as u8,
            arcs,
            linked,
            gaps: Gaps::of(size, &linked),
        };
        Ok(())
    }
}
