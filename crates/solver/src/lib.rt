// What every solver means, ours or somebody else's: the trait Solver, and the checks that solvers share.
#![tactic(auto)]

mod checks;
mod draws;
mod solving;

pub use checks::{check_ready, check_row};
pub use draws::Drawn;
pub use solving::Solver;
