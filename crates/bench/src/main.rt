// Counts queens boards and says how much work that was. The first argument says how, `straight` on the backtracker, through
// `pairs` on the backtracker and on dpll, or through a `stack` of pairs, chain and triples, or `asking` for another answer until
// there is none; or `latin` to count Latin squares, straight too. Each further one is a size; sizes alone are counted straight.
#![tactic(auto)]

use anyhow::anyhow;
use latin::Latin;
use puzzles::{Puzzle, bill};
use queens::Queens;
use reductions::{Chain, Pairs, Reduced, Triples, lower};
use search::{Backtracker, Dpll, Effort};
use solver::Solver;
use std::env;
use std::time::Instant;
use verdict::{Verdict, count, verdict};

fn main(rt: HostRuntime) -> anyhow::Result<()> {
    run(&rt)
}

// What is counted, and by which solvers.
#[derive(Clone, Copy)]
enum How {
    Straight,
    Latin,
    Pairs,
    Stack,
    Asking,
}

fn named(word: &str) -> Option<How> {
    match word {
        "straight" => Some(How::Straight),
        "latin" => Some(How::Latin),
        "pairs" => Some(How::Pairs),
        "stack" => Some(How::Stack),
        "asking" => Some(How::Asking),
        _ => None,
    }
}

fn run(rt: &HostRuntime) -> anyhow::Result<()> {
    let mut how = How::Straight;
    for (i, word) in env::args(rt)?.skip(1).enumerate() {
        match named(word.as_str()) {
            Some(said) if i == 0 => how = said,
            _ => measure(rt, how, read_size(word.as_str())?)?,
        }
    }
    Ok(())
}

fn read_size(word: &str) -> anyhow::Result<usize> {
    let Ok(size) = word.parse::<usize>() else {
        return Err(anyhow!(
            "an argument is a size; the first may be `straight`, `pairs`, `stack`, `asking` or `latin`"
        ));
    };
    Ok(size)
}

fn measure(rt: &HostRuntime, how: How, size: usize) -> anyhow::Result<()> {
    match how {
        How::Straight => measure_queens(rt, size),
        How::Latin => measure_latin(rt, size),
        How::Pairs => measure_pairs(rt, size),
        How::Stack => measure_stack(rt, size),
        How::Asking => measure_asking(rt, size),
    }
}

fn measure_queens(rt: &HostRuntime, size: usize) -> anyhow::Result<()> {
    let mut queens = Queens::new();
    queens.make(size, &[])?;
    measure_straight(rt, "queens", &queens)
}

fn measure_latin(rt: &HostRuntime, size: usize) -> anyhow::Result<()> {
    let mut latin = Latin::new();
    latin.make(size, &[])?;
    measure_straight(rt, "latin", &latin)
}

fn measure_straight<P: Puzzle>(rt: &HostRuntime, name: &str, puzzle: &P) -> anyhow::Result<()> {
    let room = Backtracker::room(puzzle.vars(), &bill(puzzle));
    // kind 1, of which the rows of puzzles are
    let mut solver = Backtracker::new(1, vec![in rt.alloc(); 0u16; room as usize]?);
    let (answers, millis) = count_timed(rt, puzzle, &mut solver)?;
    print!(rt; "{name} {}: ", puzzle.size())?;
    report(rt, answers, solver.effort(), millis)
}

// How many answers there are, and in how many milliseconds that was found.
fn count_timed<P: Puzzle, S: Solver>(
    rt: &HostRuntime,
    puzzle: &P,
    solver: &mut S,
) -> anyhow::Result<(u64, u128)> {
    let start = Instant::now(rt)?;
    let (answers, _) = count(puzzle, solver, u64::MAX)?;
    Ok((answers, start.elapsed(rt)?.as_millis()))
}

// The same clauses on either solver of them.
fn measure_pairs(rt: &HostRuntime, size: usize) -> anyhow::Result<()> {
    let mut queens = Queens::new();
    queens.make(size, &[])?;
    let (vars, clauses) = lower(&Pairs, queens.vars(), &bill(&queens))?;
    let room = Backtracker::room(vars, &clauses);
    let foot = Backtracker::new(2, vec![in rt.alloc(); 0u16; room as usize]?);
    let mut solver = Reduced::new(Pairs, foot);
    let (answers, millis) = count_timed(rt, &queens, &mut solver)?;
    print!(rt; "queens {size} on the backtracker: ")?;
    report(rt, answers, solver.below().effort(), millis)?;
    let room = Dpll::room(vars, &clauses);
    let foot = Dpll::new(2, vec![in rt.alloc(); 0u16; room as usize]?);
    let mut solver = Reduced::new(Pairs, foot);
    let (answers, millis) = count_timed(rt, &queens, &mut solver)?;
    print!(rt; "queens {size} on dpll: ")?;
    report(rt, answers, solver.below().effort(), millis)
}

fn measure_stack(rt: &HostRuntime, size: usize) -> anyhow::Result<()> {
    let mut queens = Queens::new();
    queens.make(size, &[])?;
    let (vars, clauses) = lower(&Pairs, queens.vars(), &bill(&queens))?;
    let (vars, short) = lower(&Chain, vars, &clauses)?;
    let (vars, triples) = lower(&Triples, vars, &short)?;
    let room = Backtracker::room(vars, &triples);
    let foot = Backtracker::new(4, vec![in rt.alloc(); 0u16; room as usize]?);
    let mut solver = Reduced::new(Pairs, Reduced::new(Chain, Reduced::new(Triples, foot)));
    let (answers, millis) = count_timed(rt, &queens, &mut solver)?;
    print!(rt; "queens {size}: ")?;
    report(rt, answers, solver.below().below().below().effort(), millis)
}

// Asks for another answer, each time with all that were found so far known, until there is none.
fn measure_asking(rt: &HostRuntime, size: usize) -> anyhow::Result<()> {
    let mut queens = Queens::new();
    queens.make(size, &[])?;
    let room = Backtracker::room(queens.vars(), &bill(&queens));
    let work = vec![in rt.alloc(); 0u16; room as usize]?;
    let mut solver = Backtracker::new(1, work);
    let mut answer = vec![in rt.alloc(); 0u8; size]?;
    let mut known = Vec::new(rt.alloc());
    let start = Instant::now(rt)?;
    for asked in 0..u64::MAX {
        match verdict(
            &queens,
            known.as_slice(),
            &mut solver,
            answer.as_mut_slice(),
        )? {
            Verdict::Another { .. } => known.extend_from_slice(answer.as_slice())?,
            Verdict::None { draws } => {
                let seconds = in_seconds(rt, start.elapsed(rt)?.as_millis())?;
                println!(rt;
                    "queens {size}: {asked} times another, then none after {draws} draws, {seconds}"
                )?;
                break;
            }
        }
    }
    Ok(())
}

fn report(rt: &HostRuntime, answers: u64, effort: Effort, millis: u128) -> anyhow::Result<()> {
    let nodes = effort.nodes;
    let visits = effort.visits;
    let seconds = in_seconds(rt, millis)?;
    println!(rt; "{answers} answers, {nodes} nodes, {visits} row visits, {seconds}")?;
    Ok(())
}

fn in_seconds(rt: &HostRuntime, millis: u128) -> anyhow::Result<String> {
    let seconds = millis / 1000;
    let thousandths = millis % 1000;
    Ok(format!(in rt.alloc(); "{seconds}.{thousandths:03} seconds")?)
}
