// What the question for another answer is told.

// Either way, how often the solver was asked for a solution, counted by what it then has drawn.
#[derive(Clone, Copy, PartialEq, Eq, Debug)]
pub enum Verdict {
    // there is another answer, and it is written
    Another { draws: u64 },
    // there is none
    None { draws: u64 },
}
