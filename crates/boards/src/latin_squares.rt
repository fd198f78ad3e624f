// Latin squares: the small ones whole, larger ones counted, with givens that agree and givens that clash.
use crate::showing::{MANY, Names, show_another, show_counted, show_whole};
use latin::Latin;
use puzzles::Given;
use reductions::{Pairs, Reduced};
use search::Dpll;

const NAMES: Names = Names {
    puzzle: "latin",
    entries: "entries",
};

const TWICE_AND_AGAIN: [Given; 3] = [
    Given { place: 0, value: 1 },
    Given { place: 4, value: 1 },
    Given { place: 0, value: 1 },
];

const CLASHING: [Given; 2] = [Given { place: 4, value: 0 }, Given { place: 4, value: 2 }];

const TWICE_IN_A_ROW: [Given; 2] = [Given { place: 6, value: 2 }, Given { place: 8, value: 2 }];

// On a square of size 4.
const SCATTERED: [Given; 4] = [
    Given { place: 0, value: 0 },
    Given { place: 1, value: 1 },
    Given { place: 6, value: 0 },
    Given {
        place: 12,
        value: 2,
    },
];

// On a square of size 5.
const FIRST_ROW: [Given; 5] = [
    Given { place: 0, value: 0 },
    Given { place: 1, value: 1 },
    Given { place: 2, value: 2 },
    Given { place: 3, value: 3 },
    Given { place: 4, value: 4 },
];

const DIAGONAL: [Given; 5] = [
    Given { place: 0, value: 0 },
    Given { place: 6, value: 1 },
    Given {
        place: 12,
        value: 2,
    },
    Given {
        place: 18,
        value: 3,
    },
    Given {
        place: 24,
        value: 4,
    },
];

pub(crate) fn try_squares(rt: &HostRuntime) -> anyhow::Result<()> {
    for size in 1..4usize {
        try_square(rt, size, &[])?;
    }
    try_square(rt, 3, &TWICE_AND_AGAIN)?;
    try_square(rt, 3, &CLASHING)?;
    try_square(rt, 3, &TWICE_IN_A_ROW)?;
    // of which there are twelve
    count_square(rt, 3, &[], 12)?;
    count_square(rt, 3, &[], 13)?;
    count_square(rt, 4, &[], MANY)?;
    count_square(rt, 4, &SCATTERED, MANY)?;
    count_square(rt, 5, &FIRST_ROW, MANY)?;
    count_square(rt, 5, &DIAGONAL, MANY)?;
    ask_for_another(rt)
}

fn try_square(rt: &HostRuntime, size: usize, givens: &[Given]) -> anyhow::Result<()> {
    let mut latin = Latin::new();
    latin.make(size, givens)?;
    show_whole(rt, NAMES, givens.len(), &latin)
}

fn count_square(rt: &HostRuntime, size: usize, givens: &[Given], limit: u64) -> anyhow::Result<()> {
    let mut latin = Latin::new();
    latin.make(size, givens)?;
    show_counted(rt, NAMES, givens.len(), &latin, limit)
}

// One of the two squares of size 2 is known, and the other is found through pairs over dpll.
fn ask_for_another(rt: &HostRuntime) -> anyhow::Result<()> {
    let mut latin = Latin::new();
    latin.make(2, &[])?;
    // of kind 2, with room for eight variables and 24 rows of two
    let foot = Dpll::new(2, vec![in rt.alloc(); 0u16; 2 * 8 + 24 * 3]?);
    let mut solver = Reduced::new(Pairs, foot);
    println!(rt; "latin 2 through pairs over dpll, with 0 1 1 0 known:")?;
    show_another(rt, &latin, &[0, 1, 1, 0], &mut solver)
}
