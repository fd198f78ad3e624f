// Givens: values that every answer has at a place, their checks and their rows.
ghost use Rattle.std.specs.Prelude.{◌≡◌, ◌+◌, ◌*◌, ◌&&◌, ◌==◌, length, nat_lt, not, position, slice_index};
ghost use Rattle.std.specs.List.{slice_get};
ghost use Rattle.std.specs.Option.{option_and_then};
ghost use Rattle.puzzles.specs.Filling.{run_row};
ghost use Rattle.puzzles.specs.Givens.{all_given, fits};

use crate::filling::run;
use rows::Row;

/// A value that every answer has at a place, both numbers from 0 on.
#[derive(Clone, Copy, PartialEq, Eq, Debug)]
pub struct Given {
    pub place: u8,
    pub value: u8,
}

/// The index of the first given that is not on a board of so many values and places.
pub fn first_outside(size: usize, places: usize, givens: &[Given]) -> Option<usize>
    ensures { result ≡ position (λ g. not (fits size places g)) givens.now }
{
    givens.iter().position(|given| given.place as usize >= places || given.value as usize >= size)
}

// Whether a given stands in an answer.
fn stands(given: Given, answer: &[u8]) -> bool
    ensures { result ≡ (nat_lt given.place (length answer.now) && slice_index answer.now given.place == given.value) }
{
    answer.get(usize::from(given.place)) == Some(&given.value)
}

/// Whether every given stands in an answer. A given whose place the answer does not have does not.
pub fn all_given(givens: &[Given], answer: &[u8]) -> bool
    ensures { result ≡ all_given givens.now answer.now }
{
    givens.iter().all(|given| stands(*given, answer))
}

/// The row of the given of an index, its one variable, on a board of so many values. None past the last.
pub fn given_row(givens: &[Given], size: u8, index: u32) -> Option<Row>
    ensures { result ≡ option_and_then (λ g. run_row (g.place * size + g.value) 1 1) (slice_get givens.now index) }
{
    let given = givens.get(index as usize)?;
    run(given.place as u32 * size as u32 + given.value as u32, 1, 1)
}
