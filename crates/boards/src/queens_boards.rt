// Queens: the small boards whole, the larger ones counted, and boards with givens.
use crate::showing::{MANY, Names, show_counted, show_whole};
use puzzles::Given;
use queens::Queens;

const NAMES: Names = Names {
    puzzle: "queens",
    entries: "givens",
};

const TWICE_AND_AGAIN: [Given; 3] = [
    Given { place: 0, value: 1 },
    Given { place: 5, value: 4 },
    Given { place: 0, value: 1 },
];

const CLASHING: [Given; 2] = [Given { place: 2, value: 2 }, Given { place: 2, value: 3 }];

pub(crate) fn try_boards(rt: &HostRuntime) -> anyhow::Result<()> {
    for size in 1..7usize {
        try_board(rt, size, &[])?;
    }
    for size in 7..11usize {
        count_board(rt, size, MANY)?;
    }
    // the two largest have more than are counted
    for size in 11..13usize {
        count_board(rt, size, 100)?;
    }
    try_board(rt, 6, &TWICE_AND_AGAIN)?;
    try_board(rt, 5, &CLASHING)
}

fn try_board(rt: &HostRuntime, size: usize, givens: &[Given]) -> anyhow::Result<()> {
    let mut queens = Queens::new();
    queens.make(size, givens)?;
    show_whole(rt, NAMES, givens.len(), &queens)
}

fn count_board(rt: &HostRuntime, size: usize, limit: u64) -> anyhow::Result<()> {
    let mut queens = Queens::new();
    queens.make(size, &[])?;
    show_counted(rt, NAMES, 0, &queens, limit)
}
