// The known answers: whether they are answers, each once, and whether what a solver drew is among them.
ghost use Rattle.std.specs.Prelude.{◌≡◌, ◌*◌, ◌/◌, ◌<◌, ◌≤◌, true, Bool, List, [], length, take, drop, Some};
ghost use Rattle.std.specs.List.{All};
ghost use Rattle.rows.specs.Literals.{within};
ghost use Rattle.rows.specs.Stops.{Unless};
ghost use Rattle.puzzles.specs.Boards.{decode, solution, vars as board_vars};
ghost use Rattle.verdict.specs.Verdicts.{among, answers_stop, known_answers, known_stop};

use crate::reading::is_current;
use puzzles::Puzzle;
use rows::{Fault, Stop};
use solver::Solver;

// Stop 13 where so much room is too little for an answer, 3 where the bytes are no whole answers, then at the first answer that is
// none of the puzzle's 5, or 6 where it is equal to an earlier one.
pub(crate) fn check_known<P: Puzzle>(puzzle: &P, known: &[u8], room: usize) -> Result<(), Fault>
    ensures { Unless (known_stop (P.Puzzle.board puzzle.now) known.now room) (Unit {0}) (Unit {0}) result }
{
    let places = puzzle.places();
    if room < places {
        return Err(Fault::here(Stop::Small(places as u64)));
    }
    if !known.len().is_multiple_of(places) {
        return Err(Fault::here(Stop::Length(known.len() as u64)));
    }
    check_answers(puzzle, known)
}

// Stop 5 at the first answer that is none of the puzzle's, or 6 where it is equal to an earlier one.
fn check_answers<P: Puzzle>(puzzle: &P, known: &[u8]) -> Result<(), Fault>
    ensures { Unless (answers_stop (P.Puzzle.board puzzle.now) [] (known_answers (P.Puzzle.board puzzle.now).places known.now)) (Unit {0}) (Unit {0}) result }
{
    let places = puzzle.places();
    for index in 0..count_answers(known, places) {
        let answer = answer_at(known, places, index);
        if !puzzle.is_answer(answer) {
            return Err(Fault::here(Stop::Wrong(index as u64)));
        }
        if is_among(answer, known, index) {
            return Err(Fault::here(Stop::Twice(index as u64)));
        }
    }
    Ok(())
}

// Whether the current solution is that of a known answer.
pub(crate) fn is_known<P: Puzzle, S: Solver>(puzzle: &P, known: &[u8], solver: &S) -> bool
    requires known { All (λ a. (P.Puzzle.board puzzle.now).answer a ≡ true) (known_answers (P.Puzzle.board puzzle.now).places known.now) }
    requires narrow { board_vars (P.Puzzle.board puzzle.now) ≤ within }
    ensures { (xs : List Bool) → (S.Solver.means solver.now).current ≡ Some xs → solution (P.Puzzle.board puzzle.now) xs ≡ true → result ≡ among (decode (P.Puzzle.board puzzle.now) xs) (known_answers (P.Puzzle.board puzzle.now).places known.now) }
{
    let places = puzzle.places();
    for index in 0..count_answers(known, places) {
        if is_current(puzzle, answer_at(known, places, index), solver) {
            return true;
        }
    }
    false
}

// Whether an answer is one of the first known ones.
fn is_among(answer: &[u8], known: &[u8], count: usize) -> bool
    requires { count ≤ length known.now / length answer.now }
    ensures { result ≡ among answer.now (take count (known_answers (length answer.now) known.now)) }
{
    let places = answer.len();
    (0..count).any(|index| answer == answer_at(known, places, index))
}

// How many answers stand one after another.
fn count_answers(known: &[u8], places: usize) -> usize
    ensures { result ≡ length known.now / places }
{
    known.len().checked_div(places).unwrap_or(0)
}

// The answer of an index.
fn answer_at(known: &[u8], places: usize, index: usize) -> &[u8]
    requires { index < length known.now / places }
    ensures { result.now ≡ take places (drop (index * places) known.now) }
{
    &known[index * places..][..places]
}
