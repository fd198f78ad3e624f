// Rows that are filled from the front, variable by variable.
ghost use Rattle.std.specs.Prelude.{◌≡◌, ◌*◌, ◌<◌, [], ◌∷◌, ◌++◌, length, true};
ghost use Rattle.puzzles.specs.Filling.{extended, run_fits, run_of, run_row};
ghost use Rattle.std.specs.Option.{option_and_then};
ghost use Rattle.rows.specs.Kinds.{longest};
ghost use Rattle.rows.specs.Literals.{within};

use rows::{LONGEST, Literal, Row, VARIABLES, positive};

/// A row with one variable more: at its end the literal that says that the variable is true. None where the row has as many literals
/// as a row may have, or the variable's number is too large for a literal.
pub fn with_variable(row: Row, variable: u32) -> Option<Row>
    ensures { result ≡ extended row variable }
{
    let mut longer = row;
    if longer.push(positive(variable)?) {
        Some(longer)
    } else {
        None
    }
}

// Whether a run makes a row: the last of its variables is the largest.
fn makes_row(start: u32, step: u32, count: u32) -> bool
    ensures { result ≡ run_fits start step count }
{
    count as usize <= LONGEST
        && (count == 0
            || u64::from(start) + u64::from(count - 1) * u64::from(step) < u64::from(VARIABLES))
}

// One variable more in a row that has room for it: in place, since a row that is handed over and back is copied each time.
fn push_variable(row: &mut Row, variable: u32)
    requires room { length row.old < longest }
    requires small { variable < within }
    ensures { row.new ≡ row.old ++ (2 * variable) ∷ [] }
{
    let _ = row.push((2 * variable) as Literal);
}

// Fills a row with a run that makes one.
fn fill_run(row: &mut Row, start: u32, step: u32, count: u32)
    requires empty { row.old ≡ [] }
    requires fits { run_fits start step count ≡ true }
    ensures { row.new ≡ run_of start step count }
{
    for k in 0..count {
        push_variable(row, start + k * step);
    }
}

/// The row of `count` variables from `start` on, each `step` after the one before. None where they are more than the longest row has
/// literals, or where one has a number too large for a literal.
// not inlined: a caller that merges it with other rows would copy each, which takes longer than filling it
#[inline(never)]
pub fn run(start: u32, step: u32, count: u32) -> Option<Row>
    ensures { result ≡ run_row start step count }
{
    if !makes_row(start, step, count) {
        return None;
    }
    let mut row = Row::new();
    fill_run(&mut row, start, step, count);
    Some(row)
}

/// Such a row with one variable more at its end, as the slack of a line. None where there is no such row, or where it has no room for
/// that variable, or the variable's number is too large for a literal.
// not inlined either
#[inline(never)]
pub fn run_and(start: u32, step: u32, count: u32, last: u32) -> Option<Row>
    ensures { result ≡ option_and_then (λ row. extended row last) (run_row start step count) }
{
    // tested first, so that the row is given as it was filled and no part of it is copied twice
    if !makes_row(start, step, count) || last >= VARIABLES || count as usize >= LONGEST {
        return None;
    }
    let mut row = Row::new();
    fill_run(&mut row, start, step, count);
    push_variable(&mut row, last);
    Some(row)
}
