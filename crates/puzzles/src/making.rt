// What making a puzzle asks, whatever the puzzle is.
ghost use Rattle.puzzles.specs.Making.{entry_stop, limits_stop};
ghost use Rattle.rows.specs.Stops.{Unless};

use rows::{Fault, Stop};

/// How many entries a puzzle has at most: givens, or arcs.
pub const ENTRIES: usize = 256;

/// That a size is in range, and then that there are not too many entries: stop 1, whose place is the size, and then stop 2, whose
/// place is their number.
pub fn check_limits(least: usize, largest: usize, size: usize, entries: usize) -> Result<(), Fault>
    ensures { Unless (limits_stop least largest size entries) (Unit {0}) (Unit {0}) result }
{
    if size < least || size > largest {
        return Err(Fault::here(Stop::Size(size as u64)));
    }
    if entries > ENTRIES {
        return Err(Fault::here(Stop::Count(entries as u64)));
    }
    Ok(())
}

/// That no entry is out of range, by the index of the first that is: stop 4, whose place is that index.
pub fn check_entries(outside: Option<usize>) -> Result<(), Fault>
    ensures { Unless (entry_stop outside) (Unit {0}) (Unit {0}) result }
{
    match outside {
        Some(index) => Err(Fault::here(Stop::Entry(index as u64))),
        None => Ok(()),
    }
}
