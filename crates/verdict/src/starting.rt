// Handing a puzzle to a solver. That nothing else of the solver changes joins two moments, so each call promises it.
ghost use Rattle.std.specs.Prelude.{◌≡◌, true, is_ok};
ghost use Rattle.rows.specs.Bills.{bill_of};
ghost use Rattle.rows.specs.declared.kinds.Kind.TheVariants.{Cover};
ghost use Rattle.solver.specs.Calls.{Kept, Opened};
ghost use Rattle.puzzles.specs.Boards.{rows as board_rows, vars as board_vars};
ghost use Rattle.verdict.specs.Counting.{Started, Starts};

use puzzles::{Puzzle, bill, rows_of};
use rows::{Fault, Kind, Stop};
use solver::Solver;

// Opens a solver for a puzzle and posts the puzzle's rows.
// Stop 7 where the solver is not of kind 1, then what open answers.
pub(crate) fn start<P: Puzzle, S: Solver>(puzzle: &P, solver: &mut S) -> Result<(), Fault>
    ensures kept { Kept (S.Solver.means solver.old) (S.Solver.means solver.new) }
    ensures starts { Starts (P.Puzzle.board puzzle.now) (S.Solver.means solver.old) (S.Solver.means solver.new) result }
    ensures sound { is_ok result ≡ true → S.Solver.sound solver.new }
    ensures still { S.Solver.sound solver.old → S.Solver.sound solver.new }
{
    let Kind::Cover = solver.kind() else {
        return Err(Fault::here(Stop::Joint));
    };
    solver.open(puzzle.vars(), &bill(puzzle))?;
    post_rows(puzzle, solver)
}

// Posts every row of a puzzle to a solver that was just opened for it. None is refused.
fn post_rows<P: Puzzle, S: Solver>(puzzle: &P, solver: &mut S) -> Result<(), Fault>
    requires kind { (S.Solver.means solver.old).kind ≡ Cover }
    requires opened { Opened (S.Solver.means solver.old) (board_vars (P.Puzzle.board puzzle.now)) (bill_of (board_rows (P.Puzzle.board puzzle.now))) }
    requires sound { S.Solver.sound solver.old }
    ensures kept { Kept (S.Solver.means solver.old) (S.Solver.means solver.new) }
    ensures taken { is_ok result ≡ true }
    ensures started { Started (P.Puzzle.board puzzle.now) (S.Solver.means solver.new) }
    ensures sound { S.Solver.sound solver.new }
{
    for row in rows_of(puzzle) {
        solver.post(row.literals())?;
    }
    Ok(())
}
