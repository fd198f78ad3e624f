// Literals, rows, kinds and bills; when a row is true; and the numbered refusals of the whole library.
#![tactic(auto)]

mod bills;
mod buffers;
mod judging;
mod kinds;
mod literals;
mod stops;
#[cfg(test)]
mod tests;

pub use bills::{Bill, ROWS};
pub use buffers::Row;
pub use judging::{count_true, judge};
pub use kinds::{Kind, LENGTHS, LONGEST};
pub use literals::{Literal, VARIABLES, negated, positive, variable};
pub use stops::{Fault, Lower, Stop};
