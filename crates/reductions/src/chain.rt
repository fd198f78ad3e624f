// The chain: a row of more than three literals becomes rows of two and three, with a helper for each literal past the third.
ghost use Rattle.std.specs.Prelude.{◌≡◌};
ghost use Rattle.solver.specs.Calls.{Kept};
ghost use Rattle.reductions.specs.Joints.{Passes};
ghost use Rattle.reductions.specs.Translations.{chain, either};
ghost use Rattle.reductions.specs.laws.ChainExact;

use crate::translating::{Translation, helper_literal};
use rows::{Bill, Fault, Kind, Literal, negated};
use solver::Solver;

// Clauses upon short clauses.
#[derive(Clone, Copy, Default)]
pub struct Chain;

impl Translation for Chain {
    ghost rule = { λ _. chain };

    ghost exact = { λ _. ChainExact.chain-is-exact };

    fn above(&self) -> Kind {
        Kind::Clauses
    }

    fn below(&self) -> Kind {
        Kind::Short
    }

    fn helpers(&self, len: usize) -> usize {
        len.saturating_sub(3)
    }

    fn cost(&self, len: usize) -> Bill {
        let mut bill = Bill::empty();
        if len <= 3 {
            bill.counts[len] = 1;
        } else if Kind::Clauses.has_length(len) {
            let links = len as u32 - 3;
            bill.counts[2] = 2 * links;
            bill.counts[3] = links + 1;
        }
        bill
    }

    fn translate<S: Solver>(
        &self,
        row: &[Literal],
        helper: u32,
        below: &mut S,
    ) -> Result<(), Fault> {
        if row.len() <= 3 {
            return below.post(row);
        }
        let mut first = row[0];
        let mut next = helper;
        for literal in &row[1..row.len() - 2] {
            let link = helper_literal(next)?;
            post_either(link, first, *literal, below)?;
            first = link;
            next = next.saturating_add(1);
        }
        below.post(&[first, row[row.len() - 2], row[row.len() - 1]])
    }
}

// Posts that one literal is true exactly when one of two others is.
fn post_either<S: Solver>(link: Literal, p: Literal, q: Literal, below: &mut S) -> Result<(), Fault>
    ensures kept { Kept (S.Solver.means below.old) (S.Solver.means below.new) }
    ensures passes { S.Solver.sound below.old → Passes (S.Solver.means below.old) (S.Solver.means below.new) (either link p q) result }
    ensures still { S.Solver.sound below.old → S.Solver.sound below.new }
{
    below.post(&[negated(link), p, q])?;
    below.post(&[link, negated(p)])?;
    below.post(&[link, negated(q)])
}
