// What `make` refuses, by which stop, and that a refusal leaves the puzzle as it was.
use super::refused;
use cycles::{Arc, Cycles};
use latin::Latin;
use puzzles::{Given, Puzzle};
use queens::Queens;
use rows::Stop;
use std::test::Fail;

// Out of range on a board of size 5, and out of range at once on one of size 4.
const OFF_THE_BOARD: [Given; 2] = [Given { place: 4, value: 4 }, Given { place: 5, value: 0 }];

// Out of range on a square of size 3, at its second.
const OFF_THE_SQUARE: [Given; 2] = [Given { place: 8, value: 2 }, Given { place: 0, value: 3 }];

// Out of range among four vertices, at its third.
const OFF_THE_GRAPH: [Arc; 3] = [
    Arc { from: 0, to: 1 },
    Arc { from: 2, to: 3 },
    Arc { from: 0, to: 4 },
];

#[test]
fn queens_stay_as_they_were(rt: HostRuntime) -> Result<(), Fail> {
    let fitting = vec![in rt.alloc(); Given { place: 0, value: 0 }; 257]?;
    let mut queens = Queens::new();
    queens.make(12, &[])?;
    let refusals: [(usize, &[Given], Stop); 6] = [
        (0, fitting.as_slice(), Stop::Size(0)),
        (13, fitting.as_slice(), Stop::Size(13)),
        (usize::MAX, &[], Stop::Size(u64::MAX)),
        (5, fitting.as_slice(), Stop::Count(257)),
        (5, &OFF_THE_BOARD, Stop::Entry(1)),
        (4, &OFF_THE_BOARD, Stop::Entry(0)),
    ];
    for (size, givens, stop) in refusals {
        refused(&rt, queens.make(size, givens), stop);
        assert_eq!(rt; (queens.size(), queens.rows()), (12, 24 + 42));
    }
    Ok(())
}

#[test]
fn squares_stay_as_they_were(rt: HostRuntime) -> Result<(), Fail> {
    let most = vec![in rt.alloc(); Given { place: 0, value: 0 }; 256]?;
    let too_many = vec![in rt.alloc(); Given { place: 0, value: 0 }; 257]?;
    let mut latin = Latin::new();
    latin.make(9, most.as_slice())?;
    let refusals: [(usize, &[Given], Stop); 5] = [
        (0, too_many.as_slice(), Stop::Size(0)),
        (10, too_many.as_slice(), Stop::Size(10)),
        (usize::MAX, &[], Stop::Size(u64::MAX)),
        (9, too_many.as_slice(), Stop::Count(257)),
        (3, &OFF_THE_SQUARE, Stop::Entry(1)),
    ];
    for (size, givens, stop) in refusals {
        refused(&rt, latin.make(size, givens), stop);
        assert_eq!(rt; (latin.size(), latin.rows()), (9, 243 + 256));
    }
    Ok(())
}

#[test]
fn cycles_stay_as_they_were(rt: HostRuntime) -> Result<(), Fail> {
    let fitting = vec![in rt.alloc(); Arc { from: 0, to: 1 }; 257]?;
    let mut cycles = Cycles::new();
    cycles.make(10, &[])?;
    let refusals: [(usize, &[Arc], Stop); 5] = [
        (2, fitting.as_slice(), Stop::Size(2)),
        (11, fitting.as_slice(), Stop::Size(11)),
        (usize::MAX, &[], Stop::Size(u64::MAX)),
        (4, fitting.as_slice(), Stop::Count(257)),
        (4, &OFF_THE_GRAPH, Stop::Entry(2)),
    ];
    for (size, arcs, stop) in refusals {
        refused(&rt, cycles.make(size, arcs), stop);
        assert_eq!(rt; (cycles.size(), cycles.rows()), (10, 21 + 900));
    }
    Ok(())
}
