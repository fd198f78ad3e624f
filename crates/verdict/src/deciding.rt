// The question: is there another answer than the known ones?
ghost use Rattle.std.specs.Prelude.{◌≡◌, true, is_ok};
ghost use Rattle.solver.specs.Calls.{Kept};
ghost use Rattle.verdict.specs.Answers.{Enumerates, answers};
ghost use Rattle.verdict.specs.Verdicts.{Decides};

use crate::known::{check_known, is_known};
use crate::reading::read_answer;
use crate::starting::start;
use crate::words::Verdict;
use puzzles::Puzzle;
use rows::Fault;
use solver::{Drawn, Solver};

// Whether a puzzle has an answer that is not among the known, which stand one after another.
// Another is written to the first bytes of `answer`; the rest, and all of it where there is none, stays as it is.
// Stop 13 where `answer` has no room for one, 3 where the known bytes are no whole answers; then for each known answer 5 where it
// is none of the puzzle's, and 6 where it is equal to an earlier one; then 7 and 8 as for a count. A refusal alters nothing.
pub fn verdict<P: Puzzle, S: Solver>(
    puzzle: &P,
    known: &[u8],
    solver: &mut S,
    answer: &mut [u8],
) -> Result<Verdict, Fault>
    ensures kept { Kept (S.Solver.means solver.old) (S.Solver.means solver.new) }
    ensures decides { Decides (P.Puzzle.board puzzle.now) known.now answer.old answer.new (S.Solver.means solver.old) (S.Solver.means solver.new) result }
    ensures sound { is_ok result ≡ true → S.Solver.sound solver.new }
    ensures still { S.Solver.sound solver.old → S.Solver.sound solver.new }
    ensures enumerates { Enumerates (P.Puzzle.board puzzle.now) (answers (P.Puzzle.board puzzle.now)) }
{
    check_known(puzzle, known, answer.len())?;
    start(puzzle, solver)?;
    let mut draws = 0;
    loop {
        let drawn = solver.next()?;
        draws += 1;
        if let Drawn::Exhausted = drawn {
            return Ok(Verdict::None { draws });
        }
        if !is_known(puzzle, known, solver) {
            read_answer(puzzle, solver, answer);
            return Ok(Verdict::Another { draws });
        }
    }
}
