// The one joint: any translation upon any solver of the kind that it gives rows of.
ghost use Rattle.std.specs.Prelude.{◌≡◌, ◌⊎◌, true, is_ok, replicate};
ghost use Rattle.rows.specs.Kinds.{lengths};
ghost use Rattle.solver.specs.Calls.{Draws, Fixed, Kept, Posts};
ghost use Rattle.solver.specs.Laws.{Fresh, Ready};
ghost use Rattle.reductions.specs.Joints.{Carried, Refuses, Upheld, draw_refused, meaning};
ghost use Rattle.reductions.specs.laws.Joining;

use crate::lowering::lower;
use crate::translating::Translation;
use rows::{Bill, Fault, Kind, Literal, Lower, Stop};
use solver::{Drawn, Solver, check_ready, check_row};

// A solver of the kind above, made of a translation and a solver of the kind below. Its variables are the first of those below;
// helpers follow in the order of posting.
#[derive(Drop)]
pub struct Reduced<T: Translation, S: Solver> {
    rule: T,
    below: S,
    vars: u32,
    // the number of the next helper
    helper: u32,
    owed: Bill,
}

impl<T: Translation, S: Solver> Reduced<T, S> {
    // A reduction set upon a solver. Never refused: whether the kind below fits is asked by open. Upon a newly made solver it is newly
    // made itself; upon one in use it passes up that solver's faults until an open is accepted.
    pub fn new(rule: T, below: S) -> Reduced<T, S>
        ensures rule { result.rule ≡ rule }
        ensures below { result.below ≡ below }
        ensures vars { result.vars ≡ 0 }
        ensures owed { result.owed.counts ≡ replicate lengths 0 }
        ensures fresh { S.sound below → Fresh (S.means below) → Upheld T.rule S.means S.sound result × Fresh (meaning T.rule S.means result) }
    {
        Reduced {
            rule,
            below,
            vars: 0,
            helper: 0,
            owed: Bill::empty(),
        }
    }

    // The solver below.
    pub fn below(&self) -> &S
        ensures value { result.now ≡ self.now.below }
    {
        &self.below
    }

    // Gives the solver below back.
    pub fn into_below(self) -> S
        ensures { result ≡ self.below }
    {
        let Reduced { below, .. } = self;
        below
    }
}

impl<T: Translation, S: Solver> Solver for Reduced<T, S> {
    ghost means = { meaning T.rule S.means };

    ghost sound = { Upheld T.rule S.means S.sound };

    ghost lawful = { λ s p. Joining.lawful (T.rule s.rule) s.vars s.helper s.owed.counts (S.means s.below) (S.lawful s.below p.0) p.1 };

    ghost limited = { λ s. Joining.limited (T.rule s.rule) s.vars s.owed.counts (S.means s.below) (S.limited s.below) };

    fn kind(&self) -> Kind {
        self.rule.above()
    }

    fn open(&mut self, vars: u32, bill: &Bill) -> Result<(), Fault> {
        if self.below.kind() != self.rule.below() {
            return Err(Fault::here(Stop::Joint));
        }
        let (vars_below, bill_below) = lower(&self.rule, vars, bill)?;
        self.below.open(vars_below, &bill_below).map_err(Lower)?;
        self.vars = vars;
        self.helper = vars;
        self.owed = *bill;
        Ok(())
    }

    fn post(&mut self, row: &[Literal]) -> Result<(), Fault>
        ensures kept { Kept (meaning T.rule S.means self.old) (meaning T.rule S.means self.new) }
        ensures posts { Upheld T.rule S.means S.sound self.old ⊎ Ready (meaning T.rule S.means self.old) → Posts (meaning T.rule S.means self.old) (meaning T.rule S.means self.new) row.now result }
        ensures still { Upheld T.rule S.means S.sound self.old → Upheld T.rule S.means S.sound self.new }
        ensures carried { Upheld T.rule S.means S.sound self.old → is_ok result ≡ true → Carried (T.rule self.old.rule) row.now self.old.helper self.new.helper (S.means self.old.below) (S.means self.new.below) }
    {
        check_row(self.rule.above(), self.vars, &self.owed, row)?;
        self.rule
            .translate(row, self.helper, &mut self.below)
            .map_err(Lower)?;
        self.owed.counts[row.len()] -= 1;
        self.helper = self
            .helper
            .saturating_add(self.rule.helpers(row.len()) as u32);
        Ok(())
    }

    fn next(&mut self) -> Result<Drawn, Fault>
        ensures fixed { Fixed (meaning T.rule S.means self.old) (meaning T.rule S.means self.new) }
        ensures draws { Upheld T.rule S.means S.sound self.old → Draws (meaning T.rule S.means self.old) (meaning T.rule S.means self.new) result }
        ensures still { Upheld T.rule S.means S.sound self.old → Upheld T.rule S.means S.sound self.new }
        ensures refused { S.sound self.old.below → Refuses (draw_refused self.old.owed.counts (S.means self.old.below)) result }
    {
        check_ready(&self.owed)?;
        Ok(self.below.next().map_err(Lower)?)
    }

    fn value(&self, variable: u32) -> Option<bool> {
        if variable < self.vars {
            self.below.value(variable)
        } else {
            None
        }
    }

    fn rewind(&mut self) {
        self.below.rewind();
    }
}
