// Pairs: a row of which exactly one position is true becomes the row itself, at least one, and for each two positions, not both.
ghost use Rattle.std.specs.Prelude.{◌≡◌};
ghost use Rattle.solver.specs.Calls.{Kept};
ghost use Rattle.reductions.specs.Joints.{Passes};
ghost use Rattle.reductions.specs.Translations.{not_with, pairs};
ghost use Rattle.reductions.specs.laws.PairsExact;

use crate::translating::Translation;
use rows::{Bill, Fault, Kind, Literal, negated};
use solver::Solver;

// Covers upon clauses.
#[derive(Clone, Copy, Default)]
pub struct Pairs;

impl Translation for Pairs {
    ghost rule = { λ _. pairs };

    ghost exact = { λ _. PairsExact.pairs-is-exact };

    fn above(&self) -> Kind {
        Kind::Cover
    }

    fn below(&self) -> Kind {
        Kind::Clauses
    }

    fn helpers(&self, _len: usize) -> usize {
        0
    }

    fn cost(&self, len: usize) -> Bill {
        let mut bill = Bill::empty();
        if Kind::Cover.has_length(len) {
            bill.counts[len] = 1;
            bill.counts[2] += (len * len.saturating_sub(1) / 2) as u32;
        }
        bill
    }

    fn translate<S: Solver>(
        &self,
        row: &[Literal],
        _helper: u32,
        below: &mut S,
    ) -> Result<(), Fault> {
        below.post(row)?;
        for (position, literal) in row.iter().enumerate() {
            post_not_with(*literal, &row[position + 1..], below)?;
        }
        Ok(())
    }
}

// Posts for each of others that it and a literal are not both true.
fn post_not_with<S: Solver>(
    literal: Literal,
    others: &[Literal],
    below: &mut S,
) -> Result<(), Fault>
    ensures kept { Kept (S.Solver.means below.old) (S.Solver.means below.new) }
    ensures passes { S.Solver.sound below.old → Passes (S.Solver.means below.old) (S.Solver.means below.new) (not_with literal others.now) result }
    ensures still { S.Solver.sound below.old → S.Solver.sound below.new }
{
    for other in others {
        below.post(&[negated(literal), negated(*other)])?;
    }
    Ok(())
}
