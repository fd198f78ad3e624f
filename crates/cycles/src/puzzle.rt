// What a Hamiltonian cycle puzzle holds.
ghost use Rattle.std.specs.Prelude.{◌≡◌, true, take};
ghost use Rattle.cycles.specs.Arcs.{Tells};
ghost use Rattle.cycles.specs.Cycles.{all_gaps, cycles_makeable};

use crate::arcs::Arc;
use crate::gaps::Gaps;
use crate::links::PAIRS;

// The fewest vertices, and the most.
pub(crate) const SMALLEST: usize = 3;

pub(crate) const LARGEST: usize = 10;

/// A Hamiltonian cycle through 3 to 10 vertices: a place is a position on the cycle, a value is a vertex.
/// An answer has each vertex once, vertex 0 first, and an arc from each to the following, and from the last to the first.
// What is asked of the arcs again and again stands beside them.
#[derive(Clone, Copy)]
pub struct Cycles<'a> {
    pub(crate) size: u8,
    pub(crate) arcs: &'a [Arc],
    pub(crate) linked: [bool; PAIRS],
    pub(crate) gaps: Gaps,
    ghost made: { cycles_makeable size arcs.now ≡ true },
    ghost told: { Tells size arcs.now linked },
    ghost listed: { take gaps.len gaps.pairs ≡ all_gaps size arcs.now },
}
