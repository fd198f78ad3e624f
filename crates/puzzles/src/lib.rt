//! Puzzles as rows: what a puzzle is, and the calls that are written once for all of them.
//! For authors of a puzzle crate: `making` (its size and entries), `filling` (its rows), `givens` and `checks` (of filled boards).
#![tactic(auto)]

mod boards;
mod calls;
pub mod checks;
mod coding;
pub mod filling;
pub mod givens;
pub mod making;
mod walking;

pub use boards::{Puzzle, faithful};
pub use calls::{bill, first_false};
pub use coding::{decode, encode, fill};
pub use givens::Given;
pub use making::ENTRIES;
pub use walking::{RowsOf, rows_of};
