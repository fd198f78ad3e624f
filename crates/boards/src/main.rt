// Tries puzzles whose figures were worked out another way: `reference/queens.py boards` prints what must come out.
#![tactic(auto)]

mod graphs;
mod latin_squares;
mod queens_boards;
mod rings;
mod showing;
mod stacks;

fn main(rt: HostRuntime) -> anyhow::Result<()> {
    try_puzzles(&rt)
}

fn try_puzzles(rt: &HostRuntime) -> anyhow::Result<()> {
    queens_boards::try_boards(rt)?;
    latin_squares::try_squares(rt)?;
    rings::try_graphs(rt)
}
