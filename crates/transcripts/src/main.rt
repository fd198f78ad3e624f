// Plays lists of calls on each final solver and on stacks of reductions over them, one call a line of standard input, and prints what
// each is answered. `reference/solver.py` prints what must come out, from the same lines.
#![tactic(auto)]

mod asking;
mod making;
mod playing;
mod reading;

use making::play_on;
use playing::Player;
use search::Backtracker;

fn main(rt: HostRuntime) -> anyhow::Result<()> {
    play(&rt)
}

// Each line is answered before the next is read. One that makes a solver begins a new part, since its solver has a type of its own.
fn play(rt: &HostRuntime) -> anyhow::Result<()> {
    let mut lines = rt.lines(rt.alloc());
    let idle = Backtracker::new(1, Vec::new(rt.alloc()));
    let mut making = Player::new(idle).play(rt, &mut lines)?;
    for _ in 0..u64::MAX {
        let Some(line) = making else {
            return Ok(());
        };
        making = play_on(rt, line.as_str(), &mut lines)?;
    }
    Ok(())
}
