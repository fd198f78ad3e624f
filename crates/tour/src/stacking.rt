// What a board comes to through stacks of reductions, and that each counts the same.
use puzzles::{Puzzle, bill};
use queens::Queens;
use reductions::{Chain, Narrow, Pairs, Reduced, Translation, Triples, lower};
use rows::Bill;
use search::Backtracker;
use solver::Solver;
use verdict::count;

// The variables and the rows at some depth of a stack.
#[derive(Clone, Copy)]
pub(crate) struct Level {
    pub(crate) vars: u32,
    pub(crate) bill: Bill,
}

// A board of size 4 through stacks of one reduction, two and three.
pub(crate) fn through_stacks(rt: &HostRuntime) -> anyhow::Result<()> {
    println!(rt; "\nThe board of size 4 through stacks of reductions, each upon a backtracker:")?;
    let mut queens = Queens::new();
    queens.make(4, &[])?;
    let posed = Level {
        vars: queens.vars(),
        bill: bill(&queens),
    };
    show(rt, "exactly one is true in each row", &posed)?;
    let clauses = below(rt, "through pairs, clauses", &Pairs, &posed)?;
    count_on(rt, &queens, Reduced::new(Pairs, foot(rt, 2, &clauses)?))?;
    let short = below(rt, "through chain too, short clauses", &Chain, &clauses)?;
    count_on(rt, &queens, on_chain(foot(rt, 3, &short)?))?;
    let triples = below(
        rt,
        "through triples too, exactly one of three",
        &Triples,
        &short,
    )?;
    count_on(
        rt,
        &queens,
        on_chain(Reduced::new(Triples, foot(rt, 4, &triples)?)),
    )?;
    let narrow = Narrow::new(3);
    let wide = below(rt, "through narrow in its place, clauses", &narrow, &short)?;
    count_on(
        rt,
        &queens,
        on_chain(Reduced::new(narrow, foot(rt, 2, &wide)?)),
    )
}

fn show(rt: &HostRuntime, what: &str, level: &Level) -> anyhow::Result<()> {
    let Level { vars, bill } = level;
    println!(rt; "  {what}: {vars} variables, {bill}")?;
    Ok(())
}

// What stands below a translation.
fn below<T: Translation>(
    rt: &HostRuntime,
    what: &str,
    rule: &T,
    level: &Level,
) -> anyhow::Result<Level> {
    let (vars, bill) = lower(rule, level.vars, &level.bill)?;
    let below = Level { vars, bill };
    show(rt, what, &below)?;
    Ok(below)
}

// A backtracker of a kind, with just the room that it needs.
pub(crate) fn foot(rt: &HostRuntime, kind: u64, level: &Level) -> anyhow::Result<Backtracker> {
    let room = Backtracker::room(level.vars, &level.bill) as usize;
    Ok(Backtracker::new(kind, vec![in rt.alloc(); 0u16; room]?))
}

fn on_chain<S: Solver>(below: S) -> Reduced<Pairs, Reduced<Chain, S>> {
    Reduced::new(Pairs, Reduced::new(Chain, below))
}

fn count_on<P: Puzzle, S: Solver + Drop>(
    rt: &HostRuntime,
    puzzle: &P,
    solver: S,
) -> anyhow::Result<()> {
    let mut solver = solver;
    let (answers, _) = count(puzzle, &mut solver, u64::MAX)?;
    println!(rt; "    {answers} answers, counted there")?;
    Ok(())
}
