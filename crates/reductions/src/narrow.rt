// Narrow: rows pass unchanged to the kind that wants as many true positions and has more lengths.
ghost use Rattle.std.specs.Prelude.{◌≡◌};
ghost use Rattle.rows.specs.Stops.{Unless};
ghost use Rattle.reductions.specs.Translations.{narrow, narrow_kind, narrow_stop};
ghost use Rattle.reductions.specs.laws.NarrowExact;

use crate::translating::Translation;
use rows::{Bill, Fault, Kind, Literal, Stop};
use solver::Solver;

// Short clauses upon clauses, or triples upon covers.
#[derive(Clone, Copy)]
pub struct Narrow {
    kind: Kind,
}

impl Narrow {
    // The check before making: stop 14 for a number that is neither of a kind that has a wider one. A plain number, since one that is
    // not offered has to be refusable.
    pub fn check_kind(kind: u64) -> Result<(), Fault>
        ensures { Unless (narrow_stop kind) (Unit {0}) (Unit {0}) result }
    {
        match kind {
            3 | 4 => Ok(()),
            _ => Err(Fault::here(Stop::Make(kind))),
        }
    }

    // Narrow of the kind of this number; of short clauses where it is not offered, since making is never refused.
    pub fn new(kind: u64) -> Narrow
        ensures { result.kind ≡ narrow_kind kind }
    {
        Narrow {
            kind: if kind == 4 {
                Kind::Triples
            } else {
                Kind::Short
            },
        }
    }
}

impl Translation for Narrow {
    ghost rule = { λ s. narrow s.kind };

    ghost exact = { λ s. NarrowExact.narrow-is-exact s.kind };

    fn above(&self) -> Kind {
        self.kind
    }

    fn below(&self) -> Kind {
        match self.kind {
            Kind::Cover | Kind::Triples => Kind::Cover,
            Kind::Clauses | Kind::Short => Kind::Clauses,
        }
    }

    fn helpers(&self, _len: usize) -> usize {
        0
    }

    fn cost(&self, len: usize) -> Bill {
        let mut bill = Bill::empty();
        if self.kind.has_length(len) {
            bill.counts[len] = 1;
        }
        bill
    }

    fn translate<S: Solver>(
        &self,
        row: &[Literal],
        _helper: u32,
        below: &mut S,
    ) -> Result<(), Fault> {
        below.post(row)
    }
}
