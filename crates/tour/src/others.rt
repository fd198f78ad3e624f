// The same question about the other two puzzles: a Latin square with givens, and Hamiltonian cycles along the arcs of a ring.
use crate::asking::ask_of;
use crate::counting::straight;
use crate::drawing::Grid;
use crate::introduce;
use crate::stacking::{Level, foot};
use cycles::{Arc, Cycles};
use itertools::Itertools;
use latin::Latin;
use puzzles::{Given, Puzzle, bill};
use reductions::{Pairs, Reduced, lower};

const GIVENS: [Given; 4] = [
    Given { place: 0, value: 0 },
    Given { place: 1, value: 1 },
    Given { place: 6, value: 0 },
    Given {
        place: 12,
        value: 2,
    },
];

// A byte that is no symbol, where none is given.
const BLANK: u8 = u8::MAX;

const SQUARE: [u8; 16] = [0, 1, 2, 3, 1, 3, 0, 2, 3, 2, 1, 0, 2, 0, 3, 1];

const SQUARES: [u8; 80] = [
    0, 1, 2, 3, 1, 3, 0, 2, 3, 2, 1, 0, 2, 0, 3, 1, //
    0, 1, 2, 3, 3, 2, 0, 1, 1, 0, 3, 2, 2, 3, 1, 0, //
    0, 1, 3, 2, 1, 2, 0, 3, 3, 0, 2, 1, 2, 3, 1, 0, //
    0, 1, 3, 2, 3, 2, 0, 1, 1, 0, 2, 3, 2, 3, 1, 0, //
    0, 1, 3, 2, 3, 2, 0, 1, 1, 3, 2, 0, 2, 0, 1, 3,
];

// Vertices 0 to 3 in a ring, one way round and then the other.
const RING: [Arc; 8] = [
    Arc { from: 0, to: 1 },
    Arc { from: 1, to: 2 },
    Arc { from: 2, to: 3 },
    Arc { from: 3, to: 0 },
    Arc { from: 1, to: 0 },
    Arc { from: 2, to: 1 },
    Arc { from: 3, to: 2 },
    Arc { from: 0, to: 3 },
];

const CYCLE: [u8; 4] = [0, 1, 2, 3];

const BOTH_CYCLES: [u8; 8] = [0, 1, 2, 3, 0, 3, 2, 1];

// A square of which one answer is known, and then all.
pub(crate) fn ask_square(rt: &HostRuntime) -> anyhow::Result<()> {
    let mut latin = Latin::new();
    latin.make(4, &GIVENS)?;
    let mut filling = [BLANK; 16];
    for given in &GIVENS {
        if let Some(symbol) = filling.get_mut(usize::from(given.place)) {
            *symbol = given.value;
        }
    }
    let grid = Grid {
        puzzle: &latin,
        filling: &filling,
    };
    println!(rt;
        "\nA Latin square of size 4, each symbol once in each row and column, where these are given:{grid}"
    )?;
    introduce(rt, &latin)?;
    let shown = SQUARE.iter().format(rt.alloc(), " ")?;
    println!(rt; "Has it another answer than {shown}?")?;
    let mut solver = straight(rt, &latin)?;
    ask_of(rt, &latin, &SQUARE, &mut solver)?;
    println!(rt; "And another than all five?")?;
    ask_of(rt, &latin, &SQUARES, &mut solver)
}

// Cycles of which one is known, and then both; straight on a backtracker, and through a reduction.
pub(crate) fn ask_cycle(rt: &HostRuntime) -> anyhow::Result<()> {
    println!(rt;
        "\nA Hamiltonian cycle through the vertices 0 to 3 in a ring, with arcs both ways."
    )?;
    let mut cycles = Cycles::new();
    cycles.make(4, &RING)?;
    introduce(rt, &cycles)?;
    let shown = CYCLE.iter().format(rt.alloc(), " ")?;
    println!(rt; "Is there another than {shown}?")?;
    let mut solver = straight(rt, &cycles)?;
    ask_of(rt, &cycles, &CYCLE, &mut solver)?;
    println!(rt; "And another than both?")?;
    ask_of(rt, &cycles, &BOTH_CYCLES, &mut solver)?;
    println!(rt; "The same through pairs, upon clauses:")?;
    let (vars, bill) = lower(&Pairs, cycles.vars(), &bill(&cycles))?;
    let clauses = foot(rt, 2, &Level { vars, bill })?;
    let mut stack = Reduced::new(Pairs, clauses);
    ask_of(rt, &cycles, &CYCLE, &mut stack)?;
    ask_of(rt, &cycles, &BOTH_CYCLES, &mut stack)
}

// What is refused, and why.
pub(crate) fn refusals(rt: &HostRuntime) -> anyhow::Result<()> {
    let mut latin = Latin::new();
    let givens = [Given { place: 0, value: 0 }, Given { place: 5, value: 4 }];
    if let Err(fault) = latin.make(4, &givens) {
        println!(rt; "A square of size 4 with symbol 4 given is refused: {fault}.")?;
    }
    let mut cycles = Cycles::new();
    if let Err(fault) = cycles.make(2, &[]) {
        println!(rt; "A cycle through two vertices is refused: {fault}.")?;
    }
    Ok(())
}
