// Triples: a short clause becomes rows of three of which exactly one position is true, with a helper or five.
ghost use Rattle.std.specs.Prelude.{◌≡◌, ◌+◌, ◌*◌, [], ◌∷◌};
ghost use Rattle.rows.specs.Literals.{opposite};
ghost use Rattle.solver.specs.Calls.{Kept};
ghost use Rattle.reductions.specs.Joints.{Passes};
ghost use Rattle.reductions.specs.Translations.{gadget, triples};
ghost use Rattle.reductions.specs.laws.TriplesExact;

use crate::translating::{Translation, helper_literal};
use rows::{Bill, Fault, Kind, Literal, negated};
use solver::Solver;

// Short clauses upon triples.
#[derive(Clone, Copy, Default)]
pub struct Triples;

impl Translation for Triples {
    ghost rule = { λ _. triples };

    ghost exact = { λ _. TriplesExact.triples-is-exact };

    fn above(&self) -> Kind {
        Kind::Short
    }

    fn below(&self) -> Kind {
        Kind::Triples
    }

    fn helpers(&self, len: usize) -> usize {
        match len {
            0..=2 => 1,
            3 => 5,
            _ => 0,
        }
    }

    fn cost(&self, len: usize) -> Bill {
        let mut bill = Bill::empty();
        if Kind::Short.has_length(len) {
            bill.counts[3] = if len == 3 { 4 } else { 1 };
        }
        bill
    }

    fn translate<S: Solver>(
        &self,
        row: &[Literal],
        helper: u32,
        below: &mut S,
    ) -> Result<(), Fault> {
        match row {
            [] => post_never(helper, below),
            [p] => post_pair(*p, *p, helper, below),
            [p, q] => post_pair(*p, *q, helper, below),
            [p, q, r] => post_gadget(*p, *q, *r, helper, below),
            // no row of the kind is longer
            _ => Ok(()),
        }
    }
}

// Posts the one row that forbids two literals together but for its helper, which says whether both are true.
fn post_pair<S: Solver>(p: Literal, q: Literal, helper: u32, below: &mut S) -> Result<(), Fault>
    ensures kept { Kept (S.Solver.means below.old) (S.Solver.means below.new) }
    ensures passes { S.Solver.sound below.old → Passes (S.Solver.means below.old) (S.Solver.means below.new) ((opposite p ∷ opposite q ∷ 2 * helper ∷ []) ∷ []) result }
    ensures still { S.Solver.sound below.old → S.Solver.sound below.new }
{
    let e = helper_literal(helper)?;
    below.post(&[negated(p), negated(q), e])
}

// Posts the row of no literals: the same helper at each position, so that it is never true.
fn post_never<S: Solver>(helper: u32, below: &mut S) -> Result<(), Fault>
    ensures kept { Kept (S.Solver.means below.old) (S.Solver.means below.new) }
    ensures passes { S.Solver.sound below.old → Passes (S.Solver.means below.old) (S.Solver.means below.new) ((2 * helper ∷ 2 * helper ∷ 2 * helper ∷ []) ∷ []) result }
    ensures still { S.Solver.sound below.old → S.Solver.sound below.new }
{
    let e = helper_literal(helper)?;
    below.post(&[e, e, e])
}

// Posts the gadget of three literals, whose helpers a to e are numbered from one on.
fn post_gadget<S: Solver>(
    p: Literal,
    q: Literal,
    r: Literal,
    helper: u32,
    below: &mut S,
) -> Result<(), Fault>
    ensures kept { Kept (S.Solver.means below.old) (S.Solver.means below.new) }
    ensures passes { S.Solver.sound below.old → Passes (S.Solver.means below.old) (S.Solver.means below.new) (gadget p q r (2 * helper) (2 * (helper + 1)) (2 * (helper + 2)) (2 * (helper + 3)) (2 * (helper + 4))) result }
    ensures still { S.Solver.sound below.old → S.Solver.sound below.new }
{
    // where the last helper has a literal, so have the four before it
    let e = helper_literal(helper.saturating_add(4))?;
    let (a, b, c, d) = (e - 8, e - 6, e - 4, e - 2);
    below.post(&[negated(p), a, b])?;
    below.post(&[q, b, c])?;
    below.post(&[negated(r), c, d])?;
    below.post(&[a, c, e])
}
