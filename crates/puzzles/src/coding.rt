// Answers as truth values, and truth values as answers. Puzzle, bytes and truth values come from three owners, so they stay
// three parameters.
ghost use Rattle.std.specs.Prelude.{◌≡◌, ℕ, ◌*◌, ◌/◌, ◌<◌, ◌≤◌, not, List, [], ◌∷◌, ◌++◌, length, drop, ◌==◌, slice_set};
ghost use Rattle.puzzles.specs.Boards.{encode as encoding, vars as board_vars};
ghost use Rattle.puzzles.specs.Calls.{Decodes, Encodes, Fills, fill_stop};
ghost use Rattle.puzzles.specs.Lines.{board_values, values_of};
ghost use Rattle.rows.specs.Stops.{Unless};
ghost use Rattle.rows.specs.Truth.{trues, truths, valuation};
ghost use Rattle.std.specs.List.{prefix_len, All};

use crate::boards::Puzzle;
use crate::calls::first_false;
use crate::walking::rows_of;
use rows::{Fault, Literal, Stop, count_true, variable};

/// The truth values of a filled board, right or wrong, into the first of `values`; the rest stays as it is.
/// A byte of the size or more makes no variable of its place true; a slack is true where no cell of its row is.
/// Stop 13 where there is no room for all variables, stop 3 where there is not a byte for each place.
pub fn fill<P: Puzzle>(puzzle: &P, answer: &[u8], values: &mut [bool]) -> Result<(), Fault>
    ensures { Fills (P.Puzzle.board puzzle.now) answer.now values.old values.new result }
{
    check_fill(puzzle, answer.len(), values.len())?;
    fill_all(puzzle, answer, values);
    Ok(())
}

/// The truth values of an answer, by which every row is true. Stops 13 and 3 as for any filled board, then stop 5, place 0,
/// where the bytes are no answer.
pub fn encode<P: Puzzle>(puzzle: &P, answer: &[u8], values: &mut [bool]) -> Result<(), Fault>
    ensures { Encodes (P.Puzzle.board puzzle.now) answer.now values.old values.new result }
{
    check_fill(puzzle, answer.len(), values.len())?;
    if !puzzle.is_answer(answer) {
        return Err(Fault::here(Stop::Wrong(0)));
    }
    fill_all(puzzle, answer, values);
    Ok(())
}

/// The answer that truth values stand for, into the first bytes of `answer`; the rest stays as it is.
/// Stop 13 where there is no room for all places, stop 3 where there is not a value for each variable, stop 5, place 0,
/// where a row is not true.
pub fn decode<P: Puzzle>(puzzle: &P, values: &[bool], answer: &mut [u8]) -> Result<(), Fault>
    ensures { Decodes (P.Puzzle.board puzzle.now) values.now answer.old answer.new result }
{
    let places = puzzle.places();
    if answer.len() < places {
        return Err(Fault::here(Stop::Small(places as u64)));
    }
    if first_false(puzzle, values)?.is_some() {
        return Err(Fault::here(Stop::Wrong(0)));
    }
    read_all(puzzle, values, answer);
    Ok(())
}

// The stops of filling so many truth values from so many bytes.
fn check_fill<P: Puzzle>(puzzle: &P, bytes: usize, room: usize) -> Result<(), Fault>
    ensures { Unless (fill_stop (P.Puzzle.board puzzle.now) bytes room) (Unit {0}) (Unit {0}) result }
{
    let vars = puzzle.vars();
    if room < vars as usize {
        return Err(Fault::here(Stop::Small(vars as u64)));
    }
    if bytes != puzzle.places() {
        return Err(Fault::here(Stop::Length(bytes as u64)));
    }
    Ok(())
}

// Fills the board variables, then the slacks row by row.
fn fill_all<P: Puzzle>(puzzle: &P, answer: &[u8], values: &mut [bool])
    requires whole { length answer.now ≡ (P.Puzzle.board puzzle.now).places }
    requires room { board_vars (P.Puzzle.board puzzle.now) ≤ length values.old }
    ensures { values.new ≡ encoding (P.Puzzle.board puzzle.now) answer.now ++ drop (board_vars (P.Puzzle.board puzzle.now)) values.old }
{
    let size = puzzle.size() as usize;
    fill_cells(size, answer, values);
    let cells = answer.len() * size;
    for row in rows_of(puzzle) {
        fill_slack(cells, row.literals(), values);
    }
}

// Board variable i is true where the byte at place i / size is i % size.
fn fill_cells(size: usize, answer: &[u8], values: &mut [bool])
    requires { length answer.now * size ≤ length values.old }
    ensures { values.new ≡ board_values size (length answer.now) answer.now ++ drop (length answer.now * size) values.old }
{
    let cells = answer.len() * size;
    for (i, value) in values[..cells].iter_mut().enumerate() {
        *value = answer[i / size] as usize == i % size;
    }
}

// Where a row ends in a slack, which is no board variable, the slack is true if no other position is.
fn fill_slack(cells: usize, row: &[Literal], values: &mut [bool])
    ensures plain { All (λ l. l / 2 < cells) row.now → values.new ≡ values.old }
    ensures slack { (others : List ℕ) (s : ℕ) → row.now ≡ others ++ (2 * s) ∷ [] → cells ≤ s → s < length values.old → All (λ l. l / 2 < cells) others → values.new ≡ slice_set values.old s (trues (truths (valuation values.old) others) == 0) }
{
    let Some((last, others)) = row.split_last() else {
        return;
    };
    let slack = variable(*last) as usize;
    if slack >= cells && slack < values.len() {
        let trues = count_true(values, others).unwrap_or(0);
        values[slack] = trues == 0;
    }
}

// Reads the value of each place.
fn read_all<P: Puzzle>(puzzle: &P, values: &[bool], answer: &mut [u8])
    requires whole { length values.now ≡ board_vars (P.Puzzle.board puzzle.now) }
    requires room { (P.Puzzle.board puzzle.now).places ≤ length answer.old }
    ensures { answer.new ≡ values_of (P.Puzzle.board puzzle.now).size (P.Puzzle.board puzzle.now).places values.now ++ drop (P.Puzzle.board puzzle.now).places answer.old }
{
    let size = puzzle.size() as usize;
    let places = puzzle.places();
    for (place, value) in answer[..places].iter_mut().enumerate() {
        let start = place * size;
        *value = first_true(&values[start..start + size]) as u8;
    }
}

// The index of the first true value, or how many values there are where none is true.
fn first_true(values: &[bool]) -> usize
    ensures { result ≡ prefix_len not values.now }
{
    values.iter().take_while(|value| !**value).count()
}
