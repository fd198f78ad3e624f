// The judge of a row: how many of its positions are true, and whether that makes the row true.
ghost use Rattle.std.specs.Prelude.{◌≡◌, ◌/◌, length, nat_lt};
ghost use Rattle.rows.specs.Firsts.{First};
ghost use Rattle.rows.specs.Judging.{counted, judged, truth_in};
ghost use Rattle.rows.specs.Truth.{first_wide};

use crate::kinds::Kind;
use crate::literals::{Literal, variable};
use crate::stops::{Fault, Stop};

// The truth of a literal; none where the values do not reach its variable.
#[tactic(auto, unfolding(crate::specs::Literals::truth_of))]
fn truth(values: &[bool], literal: Literal) -> Option<bool>
    ensures { result ≡ truth_in values.now literal }
{
    let value = *values.get(variable(literal) as usize)?;
    Some(if literal % 2 == 0 { value } else { !value })
}

// How many positions of a row are true, a repeated literal at each of its positions.
// Stop 10 where the values do not reach a literal's variable, with the first such position.
pub fn count_true(values: &[bool], row: &[Literal]) -> Result<usize, Fault>
    ensures value { result ≡ counted values.now row.now }
    ensures first { First (λ l. nat_lt (l / 2) (length values.now)) row.now (first_wide (length values.now) 0 row.now) }
{
    // a loop with the index, as the rules count at positions: it counts and stops at one, which no chain says more plainly
    let mut trues: usize = 0;
    for (i, literal) in row.iter().enumerate() {
        let Some(holds) = truth(values, *literal) else {
            return Err(Fault::here(Stop::Literal(i as u64)));
        };
        if holds {
            trues += 1;
        }
    }
    Ok(trues)
}

// Whether a row of a kind is true. Stop 9 where the kind has no row of this length, then stop 10.
pub fn judge(kind: Kind, values: &[bool], row: &[Literal]) -> Result<bool, Fault>
    ensures { result ≡ judged kind values.now row.now }
{
    if !kind.has_length(row.len()) {
        return Err(Fault::here(Stop::Row(row.len() as u64)));
    }
    let trues = count_true(values, row)?;
    Ok(kind.is_met_by(trues))
}
