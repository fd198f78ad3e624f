// Making a dpll, and what it needs.
ghost use Rattle.std.specs.Prelude.{◌≡◌, ◌+◌, ◌*◌, vec_len};
ghost use Rattle.rows.specs.Stops.{Unless};
ghost use Rattle.solver.specs.Laws.{Fresh};
ghost use Rattle.search.specs.Clausal.{clause_kind, clause_stop, splits};
ghost use Rattle.search.specs.Room.{open_stop, space};

use crate::dpll::Dpll;
use crate::drawing::Drawing;
use crate::outcomes::Effort;
use crate::store::room;
use rows::{Bill, Fault, Kind, Stop};

// A search with levels has two numbers for each variable.
const SLOTS_AND_LEVELS: u32 = 2;

impl Dpll {
    /// The check before making: stop 14 for a number that is neither of the kinds of clauses, with the number as its place.
    // a plain number, since one that is not offered has to be refusable
    pub fn check_kind(kind: u64) -> Result<(), Fault>
        ensures { Unless (clause_stop kind) (Unit {0}) (Unit {0}) result }
    {
        match kind {
            2 | 3 => Ok(()),
            _ => Err(Fault::here(Stop::Make(kind))),
        }
    }

    /// A new dpll of the kind of this number, or of kind 2 where it is not offered, since making is never refused. It has no
    /// variables and no rows.
    pub fn new(kind: u64, work: Vec<u16>) -> Dpll
        ensures kind { (splits result).kind ≡ clause_kind kind }
        ensures takes { (splits result).stop ≡ open_stop 2 (clause_kind kind) (vec_len work) }
        ensures fresh { Fresh (splits result) }
    {
        let offered = if kind == 3 {
            Kind::Short
        } else {
            Kind::Clauses
        };
        Dpll {
            drawing: Drawing::new(offered, SLOTS_AND_LEVELS, work),
        }
    }

    /// The smallest workspace, in two-byte numbers, with which so many variables and a bill within the limits are taken.
    pub fn room(vars: u32, bill: &Bill) -> u64
        ensures { result ≡ 2 * vars + space 0 bill.now.counts }
    {
        room(SLOTS_AND_LEVELS, vars, bill)
    }

    /// Gives the workspace back, as long as it was; what it holds is of no use to anyone.
    pub fn into_workspace(self) -> Vec<u16>
        ensures { result ≡ self.drawing.search.store.work }
    {
        let Dpll { drawing, .. } = self;
        drawing.into_workspace()
    }

    /// How much it has worked since it was made. The numbers are for measurements, and no promise rests on them.
    pub fn effort(&self) -> Effort
        ensures { result ≡ self.now.drawing.search.effort }
    {
        self.drawing.search.effort
    }
}
