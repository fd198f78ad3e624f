// The trait of translations: what a reduction does with one row.
ghost use Rattle.std.specs.Prelude.{◌≡◌, ◌*◌, ◌<◌, ◌≤◌, MatchResult};
ghost use Rattle.rows.specs.declared.stops.Stop.TheVariants.{Big};
ghost use Rattle.rows.specs.Literals.{within};
ghost use Rattle.rows.specs.Stops.{here};
ghost use Rattle.solver.specs.Calls.{Kept};
ghost use Rattle.reductions.specs.Bills.{cost};
ghost use Rattle.reductions.specs.Joints.{Passes};
ghost use Rattle.reductions.specs.Rules.{Exact, Rule};

use rows::{Bill, Fault, Kind, Literal, Stop, positive};
use solver::Solver;

// A translation turns a row of one kind into rows of another, and gives it helpers: variables of its own below.
pub trait Translation: Copy {
    // What it does with a row.
    ghost rule: { Self → Rule };

    // The kind of the rows that it takes.
    fn above(&self) -> Kind
        ensures { result ≡ (rule self.now).above };

    // The kind of the rows that it gives.
    fn below(&self) -> Kind
        ensures { result ≡ (rule self.now).below };

    // How many helpers a row of so many literals gets.
    fn helpers(&self, len: usize) -> usize
        ensures { result ≡ (rule self.now).helpers len };

    // The bill of the rows that one row of so many literals becomes; no rows at a length that the kind above lacks.
    fn cost(&self, len: usize) -> Bill
        ensures { result.counts ≡ cost (rule self.now) len };

    // Posts to the solver below the rows that a row becomes, its helpers numbered from one on.
    fn translate<S: Solver>(&self, row: &[Literal], helper: u32, below: &mut S) -> Result<(), Fault>
        ensures kept { Kept (S.Solver.means below.old) (S.Solver.means below.new) }
        ensures passes { S.Solver.sound below.old → Passes (S.Solver.means below.old) (S.Solver.means below.new) ((rule self.now).rows row.now helper) result }
        ensures still { S.Solver.sound below.old → S.Solver.sound below.new };

    ghost exact: { (t : Self) → Exact (rule t) };
}

// The literal that a helper is true. Stop 8 where its number is too large for a literal, which no sound solver below lets happen.
pub(crate) fn helper_literal(helper: u32) -> Result<Literal, Fault>
    ensures { MatchResult result (λ literal. (helper < within) × (literal ≡ 2 * helper)) (λ fault. (within ≤ helper) × (fault ≡ here Big)) }
{
    positive(helper).ok_or(Fault::here(Stop::Big))
}
