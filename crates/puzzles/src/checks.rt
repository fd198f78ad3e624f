// Checks on the values of a filled board that puzzles share.
ghost use Rattle.std.specs.Prelude.{◌≡◌, ◌==◌, count_by, nat_lt};
ghost use Rattle.std.specs.List.{list_all, range_with_len};

/// Whether every value is below the size.
pub fn all_below(size: usize, answer: &[u8]) -> bool
    ensures { result ≡ list_all (λ x. nat_lt x size) answer.now }
{
    answer.iter().all(|value| (*value as usize) < size)
}

// How often a value stands in a list.
fn count_value(value: usize, answer: &[u8]) -> usize
    ensures { result ≡ count_by (λ x. x == value) answer.now }
{
    // a sum and no filter, whose branch makes a question about an answer take half as long again, or more
    answer
        .iter()
        .map(|x| usize::from(*x as usize == value))
        .sum()
}

/// Whether each value below the size stands once in a list.
pub fn each_once(size: usize, answer: &[u8]) -> bool
    ensures { result ≡ list_all (λ v. count_by (λ x. x == v) answer.now == 1) (range_with_len 0 size) }
{
    (0..size).all(|value| count_value(value, answer) == 1)
}
