// A first look at the library: a queens board as rows, a right and a wrong filling judged, an answer turned into truth
// values and back, how many answers the boards have, a board through stacks of reductions, and whether it has another answer;
// and whether a Latin square and a graph have.
#![tactic(auto)]

mod asking;
mod counting;
mod drawing;
mod others;
mod stacking;

use anyhow::anyhow;
use counting::count_boards;
use drawing::{Draw, Grid};
use itertools::Itertools;
use puzzles::{Puzzle, bill, decode, encode, fill, first_false};
use queens::Queens;
use rows::count_true;
use stacking::through_stacks;

const RIGHT: [u8; 6] = [1, 3, 5, 0, 2, 4];

const WRONG: [u8; 6] = [1, 3, 5, 0, 4, 2];

fn main(rt: HostRuntime) -> anyhow::Result<()> {
    tour(&rt)
}

fn tour(rt: &HostRuntime) -> anyhow::Result<()> {
    println!(rt;
        "Queens on a board of size 6: one in each row and column, at most one on each diagonal."
    )?;
    let mut queens = Queens::new();
    queens.make(6, &[])?;
    introduce(rt, &queens)?;
    judge_filling(rt, &queens, &RIGHT)?;
    judge_filling(rt, &queens, &WRONG)?;
    there_and_back(rt, &queens, &RIGHT)?;
    count_boards(rt)?;
    through_stacks(rt)?;
    asking::ask(rt)?;
    others::ask_square(rt)?;
    others::ask_cycle(rt)?;
    refusals(rt, &mut queens)?;
    counting::refusals(rt)?;
    asking::refusals(rt)?;
    others::refusals(rt)
}

// What the board comes to as rows; in words of its own, so the like line of the program `boards` is not shared.
fn introduce<P: Puzzle>(rt: &HostRuntime, puzzle: &P) -> anyhow::Result<()> {
    let vars = puzzle.vars();
    let rows = puzzle.rows();
    let bill = bill(puzzle);
    println!(rt; "As rows: {vars} variables, {rows} rows ({bill}).")?;
    Ok(())
}

// A filling drawn, whether it is an answer, and the first row that says no.
fn judge_filling<P: Draw>(rt: &HostRuntime, puzzle: &P, filling: &[u8]) -> anyhow::Result<()> {
    let mut values = vec![in rt.alloc(); false; puzzle.vars() as usize]?;
    fill(puzzle, filling, values.as_mut_slice())?;
    let grid = Grid { puzzle, filling };
    let shown = filling.iter().format(rt.alloc(), " ")?;
    println!(rt; "\nThe filling {shown}:{grid}")?;
    if puzzle.is_answer(filling) {
        println!(rt; "This is an answer.")?;
    } else {
        println!(rt; "This is no answer.")?;
    }
    let Some(index) = first_false(puzzle, values.as_slice())? else {
        println!(rt; "Every row is true.")?;
        return Ok(());
    };
    let Some(row) = puzzle.row(index) else {
        return Err(anyhow!("a row that fails is a row"));
    };
    let trues = count_true(values.as_slice(), row.literals())?;
    println!(rt; "Row {index} is the first that is not true: {trues} of its positions are.")?;
    Ok(())
}

// An answer as truth values, and back.
fn there_and_back<P: Puzzle>(rt: &HostRuntime, puzzle: &P, answer: &[u8]) -> anyhow::Result<()> {
    let mut values = vec![in rt.alloc(); false; puzzle.vars() as usize]?;
    encode(puzzle, answer, values.as_mut_slice())?;
    let shown = answer.iter().format(rt.alloc(), " ")?;
    let trues = values
        .iter()
        .positions(|value| *value)
        .format(rt.alloc(), " ")?;
    println!(rt; "\nThe answer {shown} makes these variables true, and no others: {trues}.")?;
    let mut back = vec![in rt.alloc(); 0u8; puzzle.places()]?;
    decode(puzzle, values.as_slice(), back.as_mut_slice())?;
    let shown = back.iter().format(rt.alloc(), " ")?;
    println!(rt; "They read back as {shown}.")?;
    Ok(())
}

// What is refused, and why.
fn refusals(rt: &HostRuntime, queens: &mut Queens) -> anyhow::Result<()> {
    println!(rt; "")?;
    if let Err(fault) = queens.make(13, &[]) {
        println!(rt; "A board of size 13 is refused: {fault}.")?;
    }
    let mut values = vec![in rt.alloc(); false; queens.vars() as usize]?;
    if let Err(fault) = encode(queens, &WRONG, values.as_mut_slice()) {
        println!(rt; "To encode the wrong filling is refused: {fault}.")?;
    }
    Ok(())
}
