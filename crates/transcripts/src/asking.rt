// Questions about puzzles.
use crate::reading::{Posed, Question};
use cycles::Cycles;
use latin::Latin;
use queens::Queens;
use rows::Fault;
use solver::Solver;
use verdict::{Verdict, count, verdict};

// How many answers the puzzle has, up to a limit, and whether none is left; or why it is not made, or not counted.
pub(crate) fn count_posed<S: Solver>(
    question: &Question,
    solver: &mut S,
) -> Result<(u64, bool), Fault> {
    match &question.posed {
        Posed::Queens(givens) => {
            let mut queens = Queens::new();
            queens.make(question.size, givens.as_slice())?;
            count(&queens, solver, question.number)
        }
        Posed::Latin(givens) => {
            let mut latin = Latin::new();
            latin.make(question.size, givens.as_slice())?;
            count(&latin, solver, question.number)
        }
        Posed::Cycles(arcs) => {
            let mut cycles = Cycles::new();
            cycles.make(question.size, arcs.as_slice())?;
            count(&cycles, solver, question.number)
        }
    }
}

// Whether the puzzle has another answer than the known ones; or why it is not made, or not decided.
pub(crate) fn decide_posed<S: Solver>(
    question: &Question,
    solver: &mut S,
    buffer: &mut [u8],
) -> Result<Verdict, Fault> {
    let known = question.known.as_slice();
    match &question.posed {
        Posed::Queens(givens) => {
            let mut queens = Queens::new();
            queens.make(question.size, givens.as_slice())?;
            verdict(&queens, known, solver, buffer)
        }
        Posed::Latin(givens) => {
            let mut latin = Latin::new();
            latin.make(question.size, givens.as_slice())?;
            verdict(&latin, known, solver, buffer)
        }
        Posed::Cycles(arcs) => {
            let mut cycles = Cycles::new();
            cycles.make(question.size, arcs.as_slice())?;
            verdict(&cycles, known, solver, buffer)
        }
    }
}
