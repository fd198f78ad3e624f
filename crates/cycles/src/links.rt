// Arcs as a table, in which one look says whether there is one.
ghost use Rattle.std.specs.Prelude.{◌<◌, ◌≤◌, All};
ghost use Rattle.cycles.specs.Arcs.{Tells};
ghost use Rattle.cycles.specs.Cycles.{largest};

use crate::arcs::Arc;
use crate::puzzle::LARGEST;

// As many as there are pairs of vertices.
pub(crate) const PAIRS: usize = LARGEST * LARGEST;

// The table of arcs between so many vertices.
pub(crate) fn table_of_arcs(size: usize, arcs: &[Arc]) -> [bool; PAIRS]
    requires few { size ≤ largest }
    requires between { All (λ x. (x.from < size) × (x.to < size)) arcs.now }
    ensures { Tells size arcs.now result }
{
    let mut table = [false; PAIRS];
    for arc in arcs {
        table[arc.from as usize * size + arc.to as usize] = true;
    }
    table
}
