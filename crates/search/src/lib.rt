//! Final solvers: one store of rows in a workspace, and over it the backtracker, dpll and the sweep.
#![tactic(auto)]

mod backtracker;
mod dpll;
mod drawing;
mod judging;
mod levels;
mod outcomes;
mod packing;
mod posture;
mod propagation;
mod scanning;
mod searching;
mod slots;
mod store;
mod sweep;

pub use backtracker::Backtracker;
pub use dpll::Dpll;
pub use outcomes::Effort;
pub use sweep::Sweep;
