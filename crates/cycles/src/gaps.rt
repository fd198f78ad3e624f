// The pairs of vertices without an arc, which are found once, when a puzzle is made.
ghost use Rattle.std.specs.Prelude.{◌≡◌, ◌*◌, ◌≤◌, ◌==◌, ◌&&◌, not, List, length, take};
ghost use Rattle.std.specs.List.{slice_get};
ghost use Rattle.cycles.specs.declared.arcs.Arc.{Arc};
ghost use Rattle.cycles.specs.Arcs.{Tells};
ghost use Rattle.cycles.specs.Cycles.{all_gaps, largest};

use crate::arcs::Arc;
use crate::links::PAIRS;

// A list of such pairs, in memory of its own.
#[derive(Clone, Copy)]
pub(crate) struct Gaps {
    pub(crate) pairs: [Arc; PAIRS],
    pub(crate) len: usize,
    ghost few: { len ≤ largest * largest },
}

// Whether a pair is of two vertices and not linked.
fn is_gap(pair: Arc, linked: bool) -> bool
    ensures { result ≡ (not (pair.from == pair.to) && not linked) }
{
    pair.from != pair.to && !linked
}

impl Gaps {
    // The pairs of so many vertices for which a table has no arc, by the first vertex and then by the second.
    pub(crate) fn of(size: usize, linked: &[bool; PAIRS]) -> Gaps
        requires { size ≤ largest }
        ensures { (arcs : List Arc) → Tells size arcs linked.now → take result.len result.pairs ≡ all_gaps size arcs }
    {
        let mut pairs = [Arc { from: 0, to: 0 }; PAIRS];
        let mut len = 0;
        for i in 0..size * size {
            let pair = Arc {
                from: (i / size) as u8,
                to: (i % size) as u8,
            };
            if is_gap(pair, linked[i]) {
                pairs[len] = pair;
                len += 1;
            }
        }
        Gaps { pairs, len }
    }

    // How many there are.
    pub(crate) fn count(&self) -> u32
        ensures { result ≡ length (take self.now.len self.now.pairs) }
    {
        self.len as u32
    }

    // The pair of an index; none past the last.
    pub(crate) fn get(&self, index: u32) -> Option<Arc>
        ensures { result ≡ slice_get (take self.now.len self.now.pairs) index }
    {
        self.pairs[..self.len].get(index as usize).copied()
    }
}
