// Verdicts on puzzles by solvers, ours or somebody else's: whether there is another answer than the known ones, and how many answers
// there are, up to a limit.
#![tactic(auto)]

mod counting;
mod deciding;
mod known;
mod reading;
mod starting;
mod words;

pub use counting::count;
pub use deciding::verdict;
pub use words::Verdict;
