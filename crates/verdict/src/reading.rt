// Reading an answer off the current solution of a solver, value by value, so that nothing has to be stored.
ghost use Rattle.std.specs.Prelude.{◌≡◌, ℕ, ◌+◌, ◌*◌, ◌^◌, ◌<◌, ◌≤◌, true, false, Bool, List, ◌++◌, length, drop, Some, nat_eq, slice_index_or};
ghost use Rattle.std.specs.Str.{bytes_eq};
ghost use Rattle.rows.specs.Literals.{within};
ghost use Rattle.puzzles.specs.Boards.{decode, solution, vars as board_vars};

use puzzles::Puzzle;
use solver::Solver;

// Whether the current solution is that of an answer.
pub(crate) fn is_current<P: Puzzle, S: Solver>(puzzle: &P, answer: &[u8], solver: &S) -> bool
    requires answer { (P.Puzzle.board puzzle.now).answer answer.now ≡ true }
    requires narrow { board_vars (P.Puzzle.board puzzle.now) ≤ within }
    ensures { (xs : List Bool) → (S.Solver.means solver.now).current ≡ Some xs → solution (P.Puzzle.board puzzle.now) xs ≡ true → result ≡ bytes_eq (decode (P.Puzzle.board puzzle.now) xs) answer.now }
{
    let size = puzzle.size() as usize;
    for (place, value) in answer.iter().enumerate() {
        if !is_true(solver, place * size + *value as usize) {
            return false;
        }
    }
    true
}

// Writes the answer of the current solution to the first bytes.
pub(crate) fn read_answer<P: Puzzle, S: Solver>(puzzle: &P, solver: &S, answer: &mut [u8])
    requires room { (P.Puzzle.board puzzle.now).places ≤ length answer.old }
    requires narrow { board_vars (P.Puzzle.board puzzle.now) ≤ within }
    ensures { (xs : List Bool) → (S.Solver.means solver.now).current ≡ Some xs → solution (P.Puzzle.board puzzle.now) xs ≡ true → answer.new ≡ decode (P.Puzzle.board puzzle.now) xs ++ drop (P.Puzzle.board puzzle.now).places answer.old }
{
    let size = puzzle.size();
    let places = puzzle.places();
    for (place, value) in answer[..places].iter_mut().enumerate() {
        *value = read_value(size, place, solver);
    }
}

// The value at a place: the first of which the variable is true in the current solution.
fn read_value<S: Solver>(size: u8, place: usize, solver: &S) -> u8
    requires narrow { place * size + size ≤ within }
    ensures { (xs : List Bool) (v : ℕ) → (S.Solver.means solver.now).current ≡ Some xs → v < size → ((w : ℕ) → w < size → slice_index_or xs (place * size + w) false ≡ nat_eq v w) → result ≡ v }
{
    let start = place * size as usize;
    (0..size)
        .find(|value| is_true(solver, start + *value as usize))
        .unwrap_or(0)
}

// Whether a variable is true in the current solution.
fn is_true<S: Solver>(solver: &S, variable: usize) -> bool
    requires { variable < 2 ^ 32 }
    ensures { (xs : List Bool) → (S.Solver.means solver.now).current ≡ Some xs → result ≡ slice_index_or xs variable false }
{
    solver.value(variable as u32) == Some(true)
}
