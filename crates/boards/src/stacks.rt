// The same count by every fitting stack of reductions, up to four high, upon each final solver that takes the board.
use puzzles::Puzzle;
use reductions::{Chain, Narrow, Pairs, Reduced, Triples};
use rows::{Fault, Stop};
use search::{Backtracker, Dpll, Sweep};
use solver::Solver;
use std::alloc::{AllocError, Global};
use tables::TruthTable;
use verdict::count;

// More than any stack on a board of these sizes needs.
const ROOM: usize = 20_000;

// A cell for each list of seventeen values.
const CELLS: usize = 1 << 17;

// A final solver of the library, with a memory of its own.
trait Foot: Solver + Drop {
    fn make(alloc: Global, kind: u64) -> Result<Self, AllocError>;
}

impl Foot for Backtracker {
    fn make(alloc: Global, kind: u64) -> Result<Backtracker, AllocError> {
        Ok(Backtracker::new(kind, vec![in alloc; 0u16; ROOM]?))
    }
}

impl Foot for Dpll {
    fn make(alloc: Global, kind: u64) -> Result<Dpll, AllocError> {
        Ok(Dpll::new(kind, vec![in alloc; 0u16; ROOM]?))
    }
}

impl Foot for Sweep {
    fn make(alloc: Global, kind: u64) -> Result<Sweep, AllocError> {
        Ok(Sweep::new(kind, vec![in alloc; 0u16; ROOM]?))
    }
}

impl Foot for TruthTable {
    fn make(alloc: Global, kind: u64) -> Result<TruthTable, AllocError> {
        Ok(TruthTable::new(kind, vec![in alloc; false; CELLS]?))
    }
}

// What each stack that takes the board counts.
pub(crate) fn count_by_all<P: Puzzle>(alloc: Global, puzzle: &P) -> anyhow::Result<Vec<u64>> {
    let mut counts = Vec::new(alloc);
    count_on_clauses::<Backtracker, P>(alloc, puzzle, &mut counts)?;
    count_on_others::<Backtracker, P>(alloc, puzzle, &mut counts)?;
    count_on_clauses::<Dpll, P>(alloc, puzzle, &mut counts)?;
    count_on_clauses::<Sweep, P>(alloc, puzzle, &mut counts)?;
    count_on_others::<Sweep, P>(alloc, puzzle, &mut counts)?;
    count_on_clauses::<TruthTable, P>(alloc, puzzle, &mut counts)?;
    count_on_others::<TruthTable, P>(alloc, puzzle, &mut counts)?;
    Ok(counts)
}

// The stacks upon a solver of clauses, long or short, which each final solver offers.
fn count_on_clauses<F: Foot, P: Puzzle>(
    alloc: Global,
    puzzle: &P,
    counts: &mut Vec<u64>,
) -> anyhow::Result<()> {
    let short = Narrow::new(3);
    count_on(puzzle, Reduced::new(Pairs, F::make(alloc, 2)?), counts)?;
    count_on(puzzle, on_chain(F::make(alloc, 3)?), counts)?;
    count_on(
        puzzle,
        on_chain(Reduced::new(short, F::make(alloc, 2)?)),
        counts,
    )?;
    let lower = Reduced::new(short, Reduced::new(Chain, F::make(alloc, 3)?));
    count_on(puzzle, on_chain(lower), counts)
}

// The stacks upon a solver of exactly one, in rows of any length or of three.
fn count_on_others<F: Foot, P: Puzzle>(
    alloc: Global,
    puzzle: &P,
    counts: &mut Vec<u64>,
) -> anyhow::Result<()> {
    count_on(puzzle, F::make(alloc, 1)?, counts)?;
    count_on(
        puzzle,
        on_chain(Reduced::new(Triples, F::make(alloc, 4)?)),
        counts,
    )?;
    let lower = Reduced::new(Triples, Reduced::new(Narrow::new(4), F::make(alloc, 1)?));
    count_on(puzzle, on_chain(lower), counts)
}

// Pairs and chain upon a solver of short clauses.
fn on_chain<S: Solver>(below: S) -> Reduced<Pairs, Reduced<Chain, S>> {
    Reduced::new(Pairs, Reduced::new(Chain, below))
}

// Adds what a solver counts, unless the board is too big for it.
fn count_on<P: Puzzle, S: Solver + Drop>(
    puzzle: &P,
    solver: S,
    counts: &mut Vec<u64>,
) -> anyhow::Result<()> {
    let mut solver = solver;
    if let Some(answers) = count_if_taken(puzzle, &mut solver)? {
        counts.push(answers)?;
    }
    Ok(())
}

fn count_if_taken<P: Puzzle, S: Solver>(puzzle: &P, solver: &mut S) -> Result<Option<u64>, Fault> {
    match count(puzzle, solver, u64::MAX) {
        Ok((answers, _)) => Ok(Some(answers)),
        Err(fault) => match fault.stop() {
            Stop::Big => Ok(None),
            _ => Err(fault),
        },
    }
}
