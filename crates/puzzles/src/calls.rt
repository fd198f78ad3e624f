// The calls that are written once for every puzzle.
ghost use Rattle.std.specs.Prelude.{◌≡◌};
ghost use Rattle.puzzles.specs.Boards.{rows as board_rows};
ghost use Rattle.puzzles.specs.Calls.{failing};
ghost use Rattle.rows.specs.Bills.{bill_of};
ghost use Rattle.rows.specs.Firsts.{First};
ghost use Rattle.rows.specs.Truth.{first_false, holds, valuation};
ghost use Rattle.rows.specs.declared.kinds.Kind.TheVariants.{Cover};

use crate::boards::Puzzle;
use crate::walking::rows_of;
use rows::{Bill, Fault, Kind, Stop, judge};

/// The bill of a puzzle: how many of its rows have each length.
pub fn bill<P: Puzzle>(puzzle: &P) -> Bill
    ensures { result.counts ≡ bill_of (board_rows (P.Puzzle.board puzzle.now)) }
{
    let mut bill = Bill::empty();
    for row in rows_of(puzzle) {
        bill.counts[row.literals().len()] += 1;
    }
    bill
}

/// The index of the first row that is not true, or none where all are.
/// Stop 3 where there is not a value for each variable.
#[tactic(auto, using(crate::proofs::Chains::firsts))]
pub fn first_false<P: Puzzle>(puzzle: &P, values: &[bool]) -> Result<Option<u32>, Fault>
    ensures value { result ≡ failing (P.Puzzle.board puzzle.now) values.now }
    ensures first { First (holds Cover (valuation values.now)) (board_rows (P.Puzzle.board puzzle.now)) (first_false Cover (valuation values.now) 0 (board_rows (P.Puzzle.board puzzle.now))) }
{
    if values.len() != puzzle.vars() as usize {
        return Err(Fault::here(Stop::Length(values.len() as u64)));
    }
    // a loop, since `?` leaves it
    for (i, row) in rows_of(puzzle).enumerate() {
        if !judge(Kind::Cover, values, row.literals())? {
            return Ok(Some(i as u32));
        }
    }
    Ok(None)
}
