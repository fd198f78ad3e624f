// Examples worked out by hand.
use crate::TruthTable;
use rows::{Bill, Fault, Kind, Literal, Stop};
use solver::{Drawn, Solver};
use std::test::Fail;

const CLAUSES: u64 = 2;

const SHORT: u64 = 3;

// A bill of so many rows of one length.
fn rows_of(len: usize, count: u32) -> Bill {
    let mut bill = Bill::empty();
    if len < bill.counts.len() {
        bill.counts[len] = count;
    }
    bill
}

// The first two values of the next solution; none where no solution is left. Through the trait alone.
fn draw<S: Solver>(solver: &mut S) -> Result<Option<[Option<bool>; 2]>, Fault> {
    match solver.next()? {
        Drawn::Found => Ok(Some([solver.value(0), solver.value(1)])),
        Drawn::Exhausted => Ok(None),
    }
}

#[test]
fn new_tables_draw_the_empty_list(rt: HostRuntime) -> Result<(), Fail> {
    for (kind, made) in [(0, Kind::Cover), (3, Kind::Short), (5, Kind::Cover)] {
        for len in [0usize, 4] {
            let mut table = TruthTable::new(kind, vec![in rt.alloc(); true; len]?);
            assert_eq!(rt; table.kind(), made);
            assert_eq!(rt; draw(&mut table), Ok(Some([None, None])));
            assert_eq!(rt; draw(&mut table), Ok(None));
            assert_eq!(rt; draw(&mut table), Ok(None));
            assert_eq!(rt; table.into_cells().len(), len);
        }
    }
    Ok(())
}

// One row over two variables, by kind: the row, and its solutions in the order of their numbers.
#[test]
fn rows_of_each_kind(rt: HostRuntime) -> Result<(), Fail> {
    let cases: [(u64, &[Literal], &[[bool; 2]]); 8] = [
        // exactly one of the two
        (1, &[0, 2], &[[true, false], [false, true]]),
        // variable 0 would be true at two positions
        (1, &[0, 0, 2], &[[false, true]]),
        // an empty row is not true
        (1, &[], &[]),
        (2, &[0, 2], &[[true, false], [false, true], [true, true]]),
        // not 0, or 1
        (3, &[1, 2], &[[false, false], [false, true], [true, true]]),
        (3, &[3], &[[false, false], [true, false]]),
        // one of 1 and not 1 is true, so that 0 is not
        (4, &[0, 2, 3], &[[false, false], [false, true]]),
        (4, &[1, 1, 1], &[]),
    ];
    for (kind, row, solutions) in cases {
        let mut table = TruthTable::new(kind, vec![in rt.alloc(); false; 4]?);
        table.open(2, &rows_of(row.len(), 1))?;
        table.post(row)?;
        for [first, second] in solutions {
            assert_eq!(rt; draw(&mut table), Ok(Some([Some(*first), Some(*second)])));
            assert_eq!(rt; table.value(2), None);
        }
        assert_eq!(rt; draw(&mut table), Ok(None));
        assert_eq!(rt; table.value(0), None);
    }
    Ok(())
}

#[test]
fn every_row_counts_and_rewinding_draws_again(rt: HostRuntime) -> Result<(), Fail> {
    let mut table = TruthTable::new(CLAUSES, vec![in rt.alloc(); false; 8]?);
    table.open(2, &rows_of(2, 2))?;
    // 0 or 1; not 0, or 1
    table.post(&[0, 2])?;
    table.post(&[1, 2])?;
    for _ in 0..2 {
        assert_eq!(rt; draw(&mut table), Ok(Some([Some(false), Some(true)])));
        table.rewind();
        assert_eq!(rt; table.value(0), None);
        assert_eq!(rt; draw(&mut table), Ok(Some([Some(false), Some(true)])));
        assert_eq!(rt; draw(&mut table), Ok(Some([Some(true), Some(true)])));
        assert_eq!(rt; draw(&mut table), Ok(None));
        table.rewind();
    }
    // an open forgets the rows
    table.open(1, &Bill::empty())?;
    assert_eq!(rt; draw(&mut table), Ok(Some([Some(false), None])));
    assert_eq!(rt; draw(&mut table), Ok(Some([Some(true), None])));
    assert_eq!(rt; draw(&mut table), Ok(None));
    Ok(())
}

#[test]
fn what_is_refused(rt: HostRuntime) -> Result<(), Fail> {
    let big = Err(Fault::here(Stop::Big));
    let mut table = TruthTable::new(SHORT, vec![in rt.alloc(); false; 8]?);
    table.open(3, &rows_of(2, 1))?;
    assert_eq!(rt; table.open(4, &Bill::empty()), big);
    assert_eq!(rt; table.open(1, &rows_of(4, 1)), big);
    assert_eq!(rt; table.open(1, &rows_of(3, 65_536)), big);
    // none of these opened it
    assert_eq!(rt; draw(&mut table), Err(Fault::here(Stop::Owed(2))));
    assert_eq!(rt; table.post(&[0, 1, 2, 3]), Err(Fault::here(Stop::Row(4))));
    assert_eq!(rt; table.post(&[0, 6]), Err(Fault::here(Stop::Literal(1))));
    assert_eq!(rt; table.post(&[0]), Err(Fault::here(Stop::Bill(1))));
    table.post(&[0, 5])?;
    assert_eq!(rt; table.post(&[0, 5]), Err(Fault::here(Stop::Bill(2))));
    assert_eq!(rt; draw(&mut table), Ok(Some([Some(false), Some(false)])));
    Ok(())
}

#[test]
fn twenty_variables_are_the_most(rt: HostRuntime) -> Result<(), Fail> {
    let mut table = TruthTable::new(CLAUSES, vec![in rt.alloc(); false; 2_097_152]?);
    let big = Err(Fault::here(Stop::Big));
    assert_eq!(rt; table.open(21, &Bill::empty()), big);
    assert_eq!(rt; table.open(u32::MAX, &Bill::empty()), big);
    table.open(20, &rows_of(1, 1))?;
    // variable 19
    table.post(&[38])?;
    assert_eq!(rt; draw(&mut table), Ok(Some([Some(false), Some(false)])));
    assert_eq!(rt; table.value(19), Some(true));
    assert_eq!(rt; table.value(20), None);
    assert_eq!(rt; draw(&mut table), Ok(Some([Some(true), Some(false)])));
    Ok(())
}
