// A verdict after any calls.
ghost use Rattle.std.specs.Prelude.{◌≡◌, MatchResult};
ghost use Rattle.std.specs.Vec.{vec_items};
ghost use Rattle.solver.specs.Calls.{Kept};
ghost use Rattle.solver.specs.Meaning.{Meaning};
ghost use Rattle.verdict.specs.Verdicts.{Decides};
ghost use Rattle.history.specs.Promises.{Replayed};

use crate::calls::{Answer, Call};
use crate::replaying::replay;
use puzzles::Puzzle;
use rows::Fault;
use solver::Solver;
use std::alloc::{AllocError, Global};
use verdict::{Verdict, verdict};

// Performs calls upon a solver, whatever they are and whatever state it is in, and then asks it whether a puzzle has an answer that
// is not known. The verdict is what it is without them, and no more than one solution more than answers are known is drawn for it.
pub fn verdict_after<P: Puzzle, S: Solver>(
    alloc: Global,
    calls: &[Call<'_>],
    puzzle: &P,
    known: &[u8],
    solver: &mut S,
    answer: &mut [u8],
) -> Result<(Vec<Answer>, Result<Verdict, Fault>), AllocError>
    ensures kept { Kept (S.Solver.means solver.old) (S.Solver.means solver.new) }
    ensures asks { MatchResult result (λ r. (m : Meaning) × Replayed (S.Solver.sound solver.old) calls.now (vec_items r.0) (S.Solver.means solver.old) m × Decides (P.Puzzle.board puzzle.now) known.now answer.old answer.new m (S.Solver.means solver.new) r.1) (λ _. answer.new ≡ answer.old) }
    ensures still { S.Solver.sound solver.old → S.Solver.sound solver.new }
{
    let answers = replay(alloc, solver, calls)?;
    let verdict = verdict(puzzle, known, solver, answer);
    Ok((answers, verdict))
}
