// How symbols stand in rows and columns.
ghost use Rattle.std.specs.Prelude.{◌≡◌, ℕ, ◌+◌, ◌*◌, ◌<◌, ◌==◌, count_by, length, slice_index};
ghost use Rattle.std.specs.List.{list_all, range_with_len};
ghost use Rattle.latin.specs.Latin.{is_square, row_symbols};

use puzzles::checks::{all_below, each_once};

// Whether each symbol stands once in a row.
fn once_in_row(size: usize, answer: &[u8], row: usize) -> bool
    requires on_board { row < size }
    requires square { length answer.now ≡ size * size }
    ensures { result ≡ list_all (λ s. count_by (λ x. x == s) (row_symbols size answer.now row) == 1) (range_with_len 0 size) }
{
    let start = row * size;
    each_once(size, &answer[start..start + size])
}

// Whether each symbol stands once in each row.
fn once_in_rows(size: usize, answer: &[u8]) -> bool
    requires { length answer.now ≡ size * size }
    ensures { result ≡ list_all (λ r. list_all (λ s. count_by (λ x. x == s) (row_symbols size answer.now r) == 1) (range_with_len 0 size)) (range_with_len 0 size) }
{
    (0..size).all(|row| once_in_row(size, answer, row))
}

// How often a symbol stands in a column.
fn count_in_column(size: usize, answer: &[u8], column: usize, symbol: usize) -> usize
    requires { (r : ℕ) → r < size → r * size + column < length answer.now }
    ensures { result ≡ count_by (λ r. slice_index answer.now (r * size + column) == symbol) (range_with_len 0 size) }
{
    (0..size)
        .filter(|row| answer[*row * size + column] as usize == symbol)
        .count()
}

// Whether each symbol stands once in a column.
fn once_in_column(size: usize, answer: &[u8], column: usize) -> bool
    requires on_board { column < size }
    requires square { length answer.now ≡ size * size }
    ensures { result ≡ list_all (λ s. count_by (λ r. slice_index answer.now (r * size + column) == s) (range_with_len 0 size) == 1) (range_with_len 0 size) }
{
    (0..size).all(|symbol| count_in_column(size, answer, column, symbol) == 1)
}

// Whether each symbol stands once in each column.
fn once_in_columns(size: usize, answer: &[u8]) -> bool
    requires { length answer.now ≡ size * size }
    ensures { result ≡ list_all (λ c. list_all (λ s. count_by (λ r. slice_index answer.now (r * size + c) == s) (range_with_len 0 size) == 1) (range_with_len 0 size)) (range_with_len 0 size) }
{
    (0..size).all(|column| once_in_column(size, answer, column))
}

// Whether each place has a symbol, and each symbol stands once in each row and each column.
#[tactic(auto, using(crate::proofs::Checked::square_checked))]
pub(crate) fn is_square(size: usize, answer: &[u8]) -> bool
    requires { length answer.now ≡ size * size }
    ensures { result ≡ is_square size answer.now }
{
    all_below(size, answer) && once_in_rows(size, answer) && once_in_columns(size, answer)
}
