// How vertices follow one another.
ghost use Rattle.std.specs.Prelude.{◌≡◌, ◌+◌, ◌*◌, ◌<◌, ◌≤◌, All, List, false, length, slice_index, slice_index_or};
ghost use Rattle.std.specs.List.{list_all, range_with_len};
ghost use Rattle.cycles.specs.declared.arcs.Arc.{Arc};
ghost use Rattle.cycles.specs.Arcs.{Tells};
ghost use Rattle.cycles.specs.Cycles.{following, is_cycle, largest};

use crate::links::PAIRS;
use puzzles::checks::{all_below, each_once};

// Whether there is an arc from the vertex at a position to the following one.
fn goes_on(linked: &[bool; PAIRS], answer: &[u8], position: usize) -> bool
    requires few { length answer.now ≤ largest }
    requires below { All (λ v. v < length answer.now) answer.now }
    requires place { position < length answer.now }
    ensures { let n = length answer.now in result ≡ slice_index_or linked.now (slice_index answer.now position * n + slice_index answer.now (following n position)) false }
{
    let n = answer.len();
    let following = answer[(position + 1) % n] as usize;
    linked[answer[position] as usize * n + following]
}

// Whether there is one from each.
fn all_go_on(linked: &[bool; PAIRS], answer: &[u8]) -> bool
    requires few { length answer.now ≤ largest }
    requires below { All (λ v. v < length answer.now) answer.now }
    ensures { let n = length answer.now in result ≡ list_all (λ p. slice_index_or linked.now (slice_index answer.now p * n + slice_index answer.now (following n p)) false) (range_with_len 0 n) }
{
    (0..answer.len()).all(|position| goes_on(linked, answer, position))
}

// Whether as many vertices as there are positions make a cycle from vertex 0 on, by a table of arcs.
pub(crate) fn is_cycle(linked: &[bool; PAIRS], answer: &[u8]) -> bool
    requires some { 0 < length answer.now }
    requires few { length answer.now ≤ largest }
    ensures { (arcs : List Arc) → Tells (length answer.now) arcs linked.now → result ≡ is_cycle (length answer.now) arcs answer.now }
{
    let n = answer.len();
    all_below(n, answer) && each_once(n, answer) && answer[0] == 0 && all_go_on(linked, answer)
}
