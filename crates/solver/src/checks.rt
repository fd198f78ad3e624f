// The checks that solvers share: whether a row may be posted, and whether a solution may be drawn.
ghost use Rattle.std.specs.Prelude.{◌≡◌};
ghost use Rattle.rows.specs.Stops.{Unless};
ghost use Rattle.rows.specs.Truth.{first_wide};
ghost use Rattle.solver.specs.Stops.{draw_stop, post_stop};

use rows::{Bill, Fault, Kind, Literal, Stop, variable};

// Whether a solver of a kind, with so many variables and still owed these rows, takes a row.
// Stop 9 where the kind has no row of this length, 10 at the first literal of a variable that there is not, 11 where no
// row of this length is owed.
pub fn check_row(kind: Kind, vars: u32, owed: &Bill, row: &[Literal]) -> Result<(), Fault>
    ensures { Unless (post_stop kind vars owed.now.counts row.now) (Unit {0}) (Unit {0}) result }
{
    let len = row.len();
    if !kind.has_length(len) {
        return Err(Fault::here(Stop::Row(len as u64)));
    }
    if let Some(position) = first_wide(vars, row) {
        return Err(Fault::here(Stop::Literal(position as u64)));
    }
    if owed.counts[len] == 0 {
        return Err(Fault::here(Stop::Bill(len as u64)));
    }
    Ok(())
}

// Whether a solver that is still owed these rows may draw: stop 12, with the shortest owed length, where any is owed.
pub fn check_ready(owed: &Bill) -> Result<(), Fault>
    ensures { Unless (draw_stop owed.now.counts) (Unit {0}) (Unit {0}) result }
{
    match owed.shortest() {
        Some(len) => Err(Fault::here(Stop::Owed(len as u64))),
        None => Ok(()),
    }
}

// The position of the first literal whose variable is not among so many.
fn first_wide(vars: u32, row: &[Literal]) -> Option<usize>
    ensures { result ≡ first_wide vars 0 row.now }
{
    row.iter().position(|literal| variable(*literal) >= vars)
}
