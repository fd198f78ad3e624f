// Making a backtracker, and what it needs.
ghost use Rattle.std.specs.Prelude.{◌≡◌, ◌+◌, vec_len};
ghost use Rattle.rows.specs.Stops.{Unless};
ghost use Rattle.solver.specs.Laws.{Fresh};
ghost use Rattle.search.specs.Backtracking.{backtracks};
ghost use Rattle.rows.specs.Kinds.{made_kind};
ghost use Rattle.search.specs.Kinds.{kind_stop};
ghost use Rattle.search.specs.Room.{open_stop, space};

use crate::backtracker::Backtracker;
use crate::drawing::Drawing;
use crate::outcomes::Effort;
use crate::store::room;
use rows::{Bill, Fault, Kind, Stop};

// A search without levels has one number for each variable.
const SLOTS: u32 = 1;

impl Backtracker {
    /// The check before making: stop 14 where no kind has this number, with the number as its place. All four kinds are offered.
    // a plain number, since one that is no kind has to be refusable
    pub fn check_kind(kind: u64) -> Result<(), Fault>
        ensures { Unless (kind_stop kind) (Unit {0}) (Unit {0}) result }
    {
        Kind::try_from(kind)?;
        Ok(())
    }

    /// A new backtracker of the kind of this number, or of kind 1 where no kind has it, since making is never refused. It has no
    /// variables and no rows.
    pub fn new(kind: u64, work: Vec<u16>) -> Backtracker
        ensures kind { (backtracks result).kind ≡ made_kind kind }
        ensures takes { (backtracks result).stop ≡ open_stop 1 (made_kind kind) (vec_len work) }
        ensures fresh { Fresh (backtracks result) }
    {
        let offered = Kind::try_from(kind).unwrap_or(Kind::Cover);
        Backtracker {
            drawing: Drawing::new(offered, SLOTS, work),
        }
    }

    /// The smallest workspace, in two-byte numbers, with which so many variables and a bill within the limits are taken.
    pub fn room(vars: u32, bill: &Bill) -> u64
        ensures { result ≡ vars + space 0 bill.now.counts }
    {
        room(SLOTS, vars, bill)
    }

    /// Gives the workspace back, as long as it was; what it holds is of no use to anyone.
    pub fn into_workspace(self) -> Vec<u16>
        ensures { result ≡ self.drawing.search.store.work }
    {
        let Backtracker { drawing, .. } = self;
        drawing.into_workspace()
    }

    /// How much it has worked since it was made. The numbers are for measurements, and no promise rests on them.
    pub fn effort(&self) -> Effort
        ensures { result ≡ self.now.drawing.search.effort }
    {
        self.drawing.search.effort
    }
}
