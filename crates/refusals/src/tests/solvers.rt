// Which kinds are offered, how much room is enough, and reductions upon a solver in use.
use super::{refused, rows_of};
use reductions::{Narrow, Pairs, Reduced};
use rows::{Bill, Fault, Kind, Lower, Stop};
use search::{Backtracker, Dpll, Sweep};
use solver::{Drawn, Solver};
use std::process::Abort;
use std::test::Fail;

const CLAUSES: u64 = 2;

#[test]
fn kinds_that_are_not_offered(rt: HostRuntime) -> Result<(), Fail> {
    for kind in [0, 1, 4, 5] {
        refused(&rt, Dpll::check_kind(kind), Stop::Make(kind));
        let solver = Dpll::new(kind, vec![in rt.alloc(); 0u16; 7]?);
        assert_eq!(rt; solver.kind(), Kind::Clauses);
        assert_eq!(rt; solver.into_workspace().len(), 7);
    }
    for kind in [0, 1, 2, 5] {
        refused(&rt, Narrow::check_kind(kind), Stop::Make(kind));
    }
    Ok(())
}

// That six rows of two over four variables are taken by the one and refused by the other.
fn takes_with_more_room<S: Solver>(rt: &impl Abort, enough: &mut S, short: &mut S) {
    let bill = rows_of(2, 6);
    assert_eq!(rt; enough.open(4, &bill), Ok(()));
    assert_eq!(rt; enough.next(), Err(Fault::here(Stop::Owed(2))));
    refused(rt, short.open(4, &bill), Stop::Big);
    assert_eq!(rt; short.next(), Ok(Drawn::Found));
}

#[test]
fn room_to_the_number(rt: HostRuntime) -> Result<(), Fail> {
    let mut enough = Backtracker::new(CLAUSES, vec![in rt.alloc(); 0u16; 4 + 18]?);
    let mut short = Backtracker::new(CLAUSES, vec![in rt.alloc(); 0u16; 3 + 18]?);
    takes_with_more_room(&rt, &mut enough, &mut short);
    let mut enough = Dpll::new(CLAUSES, vec![in rt.alloc(); 0u16; 8 + 18]?);
    let mut short = Dpll::new(CLAUSES, vec![in rt.alloc(); 0u16; 7 + 18]?);
    takes_with_more_room(&rt, &mut enough, &mut short);
    let mut enough = Sweep::new(CLAUSES, vec![in rt.alloc(); 0u16; 4 + 18]?);
    let mut short = Sweep::new(CLAUSES, vec![in rt.alloc(); 0u16; 3 + 18]?);
    takes_with_more_room(&rt, &mut enough, &mut short);
    Ok(())
}

// Of the assignments of twenty variables the last, with variable 19 alone true, is the one solution.
#[test]
fn twenty_variables_are_the_most(rt: HostRuntime) -> Result<(), Fail> {
    let mut sweep = Sweep::new(CLAUSES, vec![in rt.alloc(); 0u16; 100]?);
    refused(&rt, sweep.open(21, &Bill::empty()), Stop::Big);
    sweep.open(20, &rows_of(1, 20))?;
    for variable in 0..19u16 {
        sweep.post(&[2 * variable + 1])?;
    }
    sweep.post(&[38])?;
    assert_eq!(rt; sweep.next(), Ok(Drawn::Found));
    assert_eq!(rt; sweep.value(18), Some(false));
    assert_eq!(rt; sweep.value(19), Some(true));
    assert_eq!(rt; sweep.next(), Ok(Drawn::Exhausted));
    assert_eq!(rt; sweep.effort().nodes, 1_048_576);
    Ok(())
}

// A reduction owes nothing itself before an open of its own, and passes up what the solver below owes.
#[test]
fn upon_a_solver_in_use(rt: HostRuntime) -> Result<(), Fail> {
    let mut foot = Backtracker::new(CLAUSES, vec![in rt.alloc(); 0u16; 100]?);
    foot.open(2, &rows_of(2, 1))?;
    let mut solver = Reduced::new(Pairs, foot);
    assert_eq!(rt;
        solver.next(),
        Err(Fault::from(Lower(Fault::here(Stop::Owed(2)))))
    );
    refused(&rt, solver.post(&[0, 2]), Stop::Literal(0));
    solver.open(2, &rows_of(2, 1))?;
    assert_eq!(rt; solver.next(), Err(Fault::here(Stop::Owed(2))));
    assert_eq!(rt; solver.into_below().kind(), Kind::Clauses);
    Ok(())
}
