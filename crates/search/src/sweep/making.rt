// Making a sweep, and what it needs.
ghost use Rattle.std.specs.Prelude.{◌≡◌, ◌+◌, vec_len};
ghost use Rattle.rows.specs.Kinds.{made_kind};
ghost use Rattle.rows.specs.Stops.{Unless};
ghost use Rattle.solver.specs.Laws.{Fresh};
ghost use Rattle.search.specs.Kinds.{kind_stop};
ghost use Rattle.search.specs.Room.{space};
ghost use Rattle.search.specs.SweepMeaning.{sweeps};
ghost use Rattle.search.specs.Sweeping.{sweep_stop};

use crate::outcomes::Effort;
use crate::posture::Posture;
use crate::store::{Store, room};
use crate::sweep::Sweep;
use crate::sweep::counting::Assignment;
use rows::{Bill, Fault, Kind};

// The rules give a sweep room for one number a variable, though it keeps its assignment beside the workspace.
const EACH: u32 = 1;

impl Sweep {
    /// The check before making: stop 14 where no kind has this number, with the number as its place. All four kinds are offered.
    // a plain number, since one that is no kind has to be refusable
    pub fn check_kind(kind: u64) -> Result<(), Fault>
        ensures { Unless (kind_stop kind) (Unit {0}) (Unit {0}) result }
    {
        Kind::try_from(kind)?;
        Ok(())
    }

    /// A new sweep of the kind of this number, or of kind 1 where no kind has it, since making is never refused. It has no variables
    /// and no rows.
    pub fn new(kind: u64, work: Vec<u16>) -> Sweep
        ensures kind { (sweeps result).kind ≡ made_kind kind }
        ensures takes { (sweeps result).stop ≡ sweep_stop (made_kind kind) (vec_len work) }
        ensures fresh { Fresh (sweeps result) }
    {
        let offered = Kind::try_from(kind).unwrap_or(Kind::Cover);
        Sweep {
            store: Store::new(offered, EACH, work),
            posture: Posture::Before,
            assignment: Assignment::first(0),
            effort: Effort::default(),
        }
    }

    /// The smallest workspace, in two-byte numbers, with which so many variables, up to 20, and a bill within the limits are taken.
    pub fn room(vars: u32, bill: &Bill) -> u64
        ensures { result ≡ vars + space 0 bill.now.counts }
    {
        room(EACH, vars, bill)
    }

    /// Gives the workspace back, as long as it was; what it holds is of no use to anyone.
    pub fn into_workspace(self) -> Vec<u16>
        ensures { result ≡ self.store.work }
    {
        let Sweep { store, .. } = self;
        store.into_workspace()
    }

    /// How much it has worked since it was made: its nodes are the assignments that it judged. The number is for measurements, and
    /// no promise rests on it.
    pub fn effort(&self) -> Effort
        ensures { result ≡ self.now.effort }
    {
        self.effort
    }
}
