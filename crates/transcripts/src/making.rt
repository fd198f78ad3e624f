// Making the solver that a part of a transcript is played on.
use crate::playing::Player;
use crate::reading::Input;
use anyhow::anyhow;
use reductions::{Chain, Narrow, Pairs, Reduced, Triples};
use rows::Fault;
use search::{Backtracker, Dpll, Sweep};
use solver::Solver;
use tables::TruthTable;

// make KIND ROOM, a stack and the solver that it stands upon: plays the lines that follow on what is so made, as far as the next line
// that makes a solver, which it gives back.
pub(crate) fn play_on(
    rt: &HostRuntime,
    line: &str,
    lines: &mut Input,
) -> anyhow::Result<Option<String>> {
    let mut words = line.split_whitespace();
    let _ = words.next();
    let kind = read_number(words.next())?;
    let room = read_number(words.next())?;
    print!(rt; "{line}: ")?;
    let (Some(kind), Some(room)) = (kind, room) else {
        return Err(anyhow!("make wants a kind and a size of the workspace"));
    };
    let room = usize::try_from(room)?;
    let stack = words.next().unwrap_or("straight");
    let foot = words.next().unwrap_or("backtracker");
    play_upon(rt, foot, kind, room, stack, lines)
}

fn read_number(word: Option<&str>) -> anyhow::Result<Option<u64>> {
    match word {
        Some(word) => Ok(Some(word.parse::<u64>()?)),
        None => Ok(None),
    }
}

// Makes the solver that a stack stands upon, after the check of its kind.
fn play_upon(
    rt: &HostRuntime,
    foot: &str,
    kind: u64,
    room: usize,
    stack: &str,
    lines: &mut Input,
) -> anyhow::Result<Option<String>> {
    match foot {
        "table" => {
            tell_refusal(rt, Backtracker::check_kind(kind))?;
            let cells = vec![in rt.alloc(); true; room]?;
            play_stack(rt, stack, TruthTable::new(kind, cells), lines)
        }
        "dpll" => {
            tell_refusal(rt, Dpll::check_kind(kind))?;
            play_stack(rt, stack, Dpll::new(kind, workspace(rt, room)?), lines)
        }
        "sweep" => {
            tell_refusal(rt, Sweep::check_kind(kind))?;
            play_stack(rt, stack, Sweep::new(kind, workspace(rt, room)?), lines)
        }
        "backtracker" => {
            tell_refusal(rt, Backtracker::check_kind(kind))?;
            play_more(
                rt,
                stack,
                Backtracker::new(kind, workspace(rt, room)?),
                lines,
            )
        }
        _ => Err(anyhow!("no such solver")),
    }
}

fn workspace(rt: &HostRuntime, room: usize) -> anyhow::Result<Vec<u16>> {
    Ok(vec![in rt.alloc(); 7u16; room]?)
}

fn tell_refusal(rt: &HostRuntime, checked: Result<(), Fault>) -> anyhow::Result<()> {
    if let Err(fault) = checked {
        print!(rt; "{fault}; ")?;
    }
    Ok(())
}

// make KIND ROOM STACK: the reductions of the stack from the top, as pairs/chain, upon a backtracker, or upon the solver that the
// line says at its end, as `table` with so many cells. One arm for each, since each stack is a type of its own.
fn play_stack<S: Solver + Drop>(
    rt: &HostRuntime,
    stack: &str,
    foot: S,
    lines: &mut Input,
) -> anyhow::Result<Option<String>> {
    match stack {
        "straight" => Player::new(foot).begin(rt, lines),
        "pairs" => Player::new(Reduced::new(Pairs, foot)).begin(rt, lines),
        "chain" => Player::new(Reduced::new(Chain, foot)).begin(rt, lines),
        "triples" => Player::new(Reduced::new(Triples, foot)).begin(rt, lines),
        "pairs/chain" => {
            let lower = Reduced::new(Chain, foot);
            Player::new(Reduced::new(Pairs, lower)).begin(rt, lines)
        }
        "pairs/chain/narrow3" => {
            let lower = Reduced::new(Chain, Reduced::new(Narrow::new(3), foot));
            Player::new(Reduced::new(Pairs, lower)).begin(rt, lines)
        }
        _ => Err(anyhow!("no such stack")),
    }
}

// And more of them upon a backtracker.
fn play_more(
    rt: &HostRuntime,
    stack: &str,
    foot: Backtracker,
    lines: &mut Input,
) -> anyhow::Result<Option<String>> {
    let narrow = Narrow::new(4);
    match stack {
        "narrow3" => Player::new(Reduced::new(Narrow::new(3), foot)).begin(rt, lines),
        "narrow4" => Player::new(Reduced::new(narrow, foot)).begin(rt, lines),
        "chain/triples" => {
            let lower = Reduced::new(Triples, foot);
            Player::new(Reduced::new(Chain, lower)).begin(rt, lines)
        }
        "pairs/chain/triples" => {
            let lower = Reduced::new(Chain, Reduced::new(Triples, foot));
            Player::new(Reduced::new(Pairs, lower)).begin(rt, lines)
        }
        "chain/triples/narrow4" => {
            let lower = Reduced::new(Triples, Reduced::new(narrow, foot));
            Player::new(Reduced::new(Chain, lower)).begin(rt, lines)
        }
        "pairs/chain/triples/narrow4" => {
            let lower = Reduced::new(Triples, Reduced::new(narrow, foot));
            Player::new(Reduced::new(Pairs, Reduced::new(Chain, lower))).begin(rt, lines)
        }
        _ => play_stack(rt, stack, foot, lines),
    }
}
