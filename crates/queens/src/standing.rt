// How queens stand to one another.
ghost use Rattle.std.specs.Prelude.{◌≡◌, ◌<◌, not, length};
ghost use Rattle.std.specs.List.{list_all, range_with_len};
ghost use Rattle.queens.specs.Queens.{aligned};

// Whether the queens of rows i and j stand on one diagonal. By their indices, since the question is about those rows.
fn are_aligned(answer: &[u8], i: usize, j: usize) -> bool
    requires first { i < length answer.now }
    requires second { j < length answer.now }
    ensures { result ≡ aligned answer.now i j }
{
    let one = answer[i] as usize;
    let other = answer[j] as usize;
    one + j == other + i || one + i == other + j
}

// Whether the queen of row j stands on no diagonal with one of an earlier row.
fn is_apart(answer: &[u8], j: usize) -> bool
    requires { j < length answer.now }
    ensures { result ≡ list_all (λ i. not (aligned answer.now i j)) (range_with_len 0 j) }
{
    (0..j).all(|i| !are_aligned(answer, i, j))
}

// Whether no two queens stand on one diagonal.
pub(crate) fn all_apart(answer: &[u8]) -> bool
    ensures { result ≡ list_all (λ j. list_all (λ i. not (aligned answer.now i j)) (range_with_len 0 j)) (range_with_len 0 (length answer.now)) }
{
    (0..answer.len()).all(|j| is_apart(answer, j))
}
