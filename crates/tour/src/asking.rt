// The question: is there another answer than the known ones?
use crate::counting::straight;
use crate::drawing::{Beside, Draw};
use crate::stacking::{Level, foot};
use itertools::Itertools;
use puzzles::{Puzzle, bill};
use queens::Queens;
use reductions::{Chain, Pairs, Reduced, lower};
use search::Backtracker;
use solver::Solver;
use verdict::{Verdict, verdict};

const KNOWN: [u8; 6] = [1, 3, 5, 0, 2, 4];

const ANSWERS: [u8; 24] = [
    1, 3, 5, 0, 2, 4, 2, 5, 1, 4, 0, 3, 3, 0, 4, 1, 5, 2, 4, 2, 0, 5, 3, 1,
];

const WRONG: [u8; 6] = [1, 3, 5, 0, 4, 2];

// A board of size 6 of which one answer is known, and then all; straight on a backtracker, and through two reductions.
pub(crate) fn ask(rt: &HostRuntime) -> anyhow::Result<()> {
    let mut queens = Queens::new();
    queens.make(6, &[])?;
    let shown = KNOWN.iter().format(rt.alloc(), " ")?;
    println!(rt; "\nHas the board of size 6 another answer than {shown}?")?;
    let mut solver = straight(rt, &queens)?;
    ask_of(rt, &queens, &KNOWN, &mut solver)?;
    println!(rt; "And another than all four?")?;
    ask_of(rt, &queens, &ANSWERS, &mut solver)?;
    println!(rt; "The same through pairs and chain:")?;
    let (vars, clauses) = lower(&Pairs, queens.vars(), &bill(&queens))?;
    let (vars, bill) = lower(&Chain, vars, &clauses)?;
    let short = foot(rt, 3, &Level { vars, bill })?;
    let mut stack = Reduced::new(Pairs, Reduced::new(Chain, short));
    ask_of(rt, &queens, &KNOWN, &mut stack)?;
    ask_of(rt, &queens, &ANSWERS, &mut stack)
}

// One question, and what it is told.
pub(crate) fn ask_of<P: Draw, S: Solver>(
    rt: &HostRuntime,
    puzzle: &P,
    known: &[u8],
    solver: &mut S,
) -> anyhow::Result<()> {
    let mut answer = vec![in rt.alloc(); 0u8; puzzle.places()]?;
    match verdict(puzzle, known, solver, answer.as_mut_slice())? {
        Verdict::Another { draws } => {
            let beside = Beside {
                puzzle,
                left: known,
                right: answer.as_slice(),
            };
            println!(rt;
                "Another was found after {draws} draws. A known one, and the other:{beside}"
            )?;
        }
        Verdict::None { draws } => println!(rt; "None, after {draws} draws.")?,
    }
    Ok(())
}

// What is refused, and why.
pub(crate) fn refusals(rt: &HostRuntime) -> anyhow::Result<()> {
    let mut queens = Queens::new();
    queens.make(6, &[])?;
    let mut solver = Backtracker::new(1, Vec::new(rt.alloc()));
    let mut answer = [0u8; 6];
    if let Err(fault) = verdict(&queens, &WRONG, &mut solver, &mut answer) {
        println!(rt; "To ask for another than the wrong filling is refused: {fault}.")?;
    }
    if let Err(fault) = verdict(&queens, &KNOWN, &mut solver, &mut answer[..5]) {
        println!(rt; "To ask with five bytes for the answer is refused: {fault}.")?;
    }
    Ok(())
}
