// How many answers boards have, straight on a backtracker.
use puzzles::{Puzzle, bill};
use queens::Queens;
use search::Backtracker;
use verdict::count;

// The kind of the rows of puzzles.
const COVER: u64 = 1;

// The empty boards of sizes 1 to 8, and the largest of them again with limits.
pub(crate) fn count_boards(rt: &HostRuntime) -> anyhow::Result<()> {
    println!(rt; "\nAnswers of the empty boards, counted straight on a backtracker:")?;
    let mut queens = Queens::new();
    for size in 1..9usize {
        queens.make(size, &[])?;
        count_board(rt, &queens)?;
    }
    for limit in [50, 92, 93] {
        count_up_to(rt, &queens, limit)?;
    }
    Ok(())
}

// The smallest workspace in which a backtracker takes a puzzle.
fn room_for<P: Puzzle>(puzzle: &P) -> usize {
    Backtracker::room(puzzle.vars(), &bill(puzzle)) as usize
}

// A backtracker with just that room.
pub(crate) fn straight<P: Puzzle>(rt: &HostRuntime, puzzle: &P) -> anyhow::Result<Backtracker> {
    Ok(Backtracker::new(COVER, vec![in rt.alloc(); 0u16; room_for(puzzle)]?))
}

fn count_board<P: Puzzle>(rt: &HostRuntime, puzzle: &P) -> anyhow::Result<()> {
    let size = puzzle.size();
    let room = room_for(puzzle);
    let mut solver = straight(rt, puzzle)?;
    let (answers, _) = count(puzzle, &mut solver, u64::MAX)?;
    println!(rt; "  size {size}: {answers}, in a workspace of {room} numbers")?;
    Ok(())
}

fn count_up_to<P: Puzzle>(rt: &HostRuntime, puzzle: &P, limit: u64) -> anyhow::Result<()> {
    let size = puzzle.size();
    let mut solver = straight(rt, puzzle)?;
    let (answers, none_left) = count(puzzle, &mut solver, limit)?;
    let left = if none_left {
        "none is left"
    } else {
        "more may be left"
    };
    println!(rt; "Counting those of size {size} up to {limit} gives {answers}, and {left}.")?;
    Ok(())
}

// What is refused, and why.
pub(crate) fn refusals(rt: &HostRuntime) -> anyhow::Result<()> {
    let queens = Queens::new();
    let room = room_for(&queens);
    let mut clauses = Backtracker::new(2, vec![in rt.alloc(); 0u16; room]?);
    if let Err(fault) = count(&queens, &mut clauses, 1) {
        println!(rt; "To count with a solver of clauses is refused: {fault}.")?;
    }
    let mut cramped = Backtracker::new(COVER, vec![in rt.alloc(); 0u16; room.saturating_sub(1)]?);
    if let Err(fault) = count(&queens, &mut cramped, 1) {
        println!(rt; "To count in a workspace that is one number short is refused: {fault}.")?;
    }
    Ok(())
}
