// Making a truth table.
ghost use Rattle.std.specs.Prelude.{◌≡◌, vec_len};
ghost use Rattle.solver.specs.Laws.{Fresh};
ghost use Rattle.rows.specs.Kinds.{made_kind};
ghost use Rattle.tables.specs.Limits.{table_stop};
ghost use Rattle.tables.specs.Tables.{meaning};

use crate::table::TruthTable;
use rows::{Bill, Kind};

impl TruthTable {
    // A new table of the kind of this number, or of kind 1 where no kind has it: a plain number, since making is never refused.
    // The cells are its only memory, and what stands in them is forgotten. It takes up to 20 variables, where each list of their
    // values has a cell.
    pub fn new(kind: u64, cells: Vec<bool>) -> TruthTable
        ensures kind { (meaning result).kind ≡ made_kind kind }
        ensures takes { (meaning result).stop ≡ table_stop (made_kind kind) (vec_len cells) }
        ensures fresh { Fresh (meaning result) }
    {
        let mut struck = cells;
        struck.as_mut_slice().fill(false);
        TruthTable {
            kind: Kind::try_from(kind).unwrap_or(Kind::Cover),
            struck,
            vars: 0,
            owed: Bill::empty(),
            passed: 0,
            current: None,
        }
    }

    // Gives the cells back, as many as there were; what stands in them is of no use to anyone.
    pub fn into_cells(self) -> Vec<bool>
        ensures { result ≡ self.struck }
    {
        let TruthTable { struck, .. } = self;
        struck
    }
}
