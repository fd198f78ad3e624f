// What is shown of a puzzle, whatever it is.
use crate::stacks::count_by_all;
use anyhow::anyhow;
use itertools::Itertools;
use puzzles::{Puzzle, bill, decode, encode, rows_of};
use search::Backtracker;
use solver::Solver;
use std::alloc::Global;
use verdict::{Verdict, count, verdict};

// More than the fillings of any puzzle whose answers are listed.
const TRIES: u32 = 100_000;

// More than the answers of any puzzle that is counted to the last.
pub(crate) const MANY: u64 = 100_000;

// What a puzzle and its entries are called.
#[derive(Clone, Copy)]
pub(crate) struct Names {
    pub(crate) puzzle: &'static str,
    pub(crate) entries: &'static str,
}

// A puzzle's rows and answers, and that each stack which takes it counts as many.
pub(crate) fn show_whole<P: Puzzle>(
    rt: &HostRuntime,
    names: Names,
    entries: usize,
    puzzle: &P,
) -> anyhow::Result<()> {
    show_size(rt, names, entries, puzzle)?;
    show_rows(rt, puzzle)?;
    let answers = show_answers(rt, puzzle)?;
    show_stacks(rt, puzzle, answers)
}

// How many answers a puzzle has, up to a limit.
pub(crate) fn show_counted<P: Puzzle>(
    rt: &HostRuntime,
    names: Names,
    entries: usize,
    puzzle: &P,
    limit: u64,
) -> anyhow::Result<()> {
    show_size(rt, names, entries, puzzle)?;
    let (answers, none_left) = count_straight(rt.alloc(), puzzle, limit)?;
    let left = if none_left {
        "none left"
    } else {
        "more may be left"
    };
    println!(rt; "  {answers} answers counted up to {limit}, {left}")?;
    Ok(())
}

// The name of a puzzle, what it was made of, and what it comes to as rows.
fn show_size<P: Puzzle>(
    rt: &HostRuntime,
    names: Names,
    entries: usize,
    puzzle: &P,
) -> anyhow::Result<()> {
    let name = names.puzzle;
    let called = names.entries;
    let vars = puzzle.vars();
    let rows = puzzle.rows();
    let bill = bill(puzzle);
    let size = puzzle.size();
    println!(rt; "{name} {size}, {entries} {called}: {vars} variables, {rows} rows: {bill}")?;
    Ok(())
}

fn show_rows<P: Puzzle>(rt: &HostRuntime, puzzle: &P) -> anyhow::Result<()> {
    for row in rows_of(puzzle) {
        show_row(rt, row.literals())?;
    }
    if puzzle.row(puzzle.rows()).is_some() {
        return Err(anyhow!("a row too many"));
    }
    Ok(())
}

fn show_row(rt: &HostRuntime, literals: &[u16]) -> anyhow::Result<()> {
    let literals = literals.iter().format(rt.alloc(), " ")?;
    println!(rt; "  row {literals}")?;
    Ok(())
}

// Every filling is tried, so that what is no answer is seen to be none.
fn show_answers<P: Puzzle>(rt: &HostRuntime, puzzle: &P) -> anyhow::Result<u64> {
    let mut filling = vec![in rt.alloc(); 0u8; puzzle.places()]?;
    let mut answers: u64 = 0;
    for _ in 0..TRIES {
        if puzzle.is_answer(filling.as_slice()) {
            answers = answers.saturating_add(1);
            show_answer(rt, puzzle, filling.as_slice())?;
        }
        if !advance(puzzle.size(), filling.as_mut_slice()) {
            break;
        }
    }
    Ok(answers)
}

// Another answer than those known, and after how many draws it was found.
pub(crate) fn show_another<P: Puzzle, S: Solver>(
    rt: &HostRuntime,
    puzzle: &P,
    known: &[u8],
    solver: &mut S,
) -> anyhow::Result<()> {
    let mut answer = vec![in rt.alloc(); 0u8; puzzle.places()]?;
    match verdict(puzzle, known, solver, answer.as_mut_slice())? {
        Verdict::Another { draws } => show_found(rt, answer.as_slice(), draws),
        Verdict::None { .. } => Err(anyhow!("there is another")),
    }
}

fn show_found(rt: &HostRuntime, answer: &[u8], draws: u64) -> anyhow::Result<()> {
    let answer = answer.iter().format(rt.alloc(), " ")?;
    println!(rt; "  another is {answer}, after {draws} draws")?;
    Ok(())
}

// Counts on a backtracker, with no stack.
fn count_straight<P: Puzzle>(alloc: Global, puzzle: &P, limit: u64) -> anyhow::Result<(u64, bool)> {
    let room = Backtracker::room(puzzle.vars(), &bill(puzzle));
    // kind 1, of which the rows of puzzles are
    let mut solver = Backtracker::new(1, vec![in alloc; 0u16; room as usize]?);
    Ok(count(puzzle, &mut solver, limit)?)
}

// How many stacks take the puzzle; an error where one of them counts other than as many answers.
fn show_stacks<P: Puzzle>(rt: &HostRuntime, puzzle: &P, answers: u64) -> anyhow::Result<()> {
    let counts = count_by_all(rt.alloc(), puzzle)?;
    if counts.iter().any(|counted| *counted != answers) {
        return Err(anyhow!("two stacks do not agree"));
    }
    let stacks = counts.len();
    println!(rt; "  {answers} answers counted by each of {stacks} stacks")?;
    Ok(())
}

// The next filling in dictionary order; false past the last.
fn advance(size: u8, filling: &mut [u8]) -> bool {
    for value in filling.iter_mut().rev() {
        if *value < size.saturating_sub(1) {
            *value += 1;
            return true;
        }
        *value = 0;
    }
    false
}

// An answer with its truth values, from which it is read back.
fn show_answer<P: Puzzle>(rt: &HostRuntime, puzzle: &P, answer: &[u8]) -> anyhow::Result<()> {
    let mut values = vec![in rt.alloc(); false; puzzle.vars() as usize]?;
    encode(puzzle, answer, values.as_mut_slice())?;
    let mut back = vec![in rt.alloc(); 0u8; puzzle.places()]?;
    decode(puzzle, values.as_slice(), back.as_mut_slice())?;
    let back = back.iter().format(rt.alloc(), " ")?;
    let values = values.iter().copied().map(u8::from).format(rt.alloc(), "")?;
    println!(rt; "  answer {back} = {values}")?;
    Ok(())
}
