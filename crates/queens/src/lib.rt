//! The queens puzzle.
#![tactic(auto)]

mod making;
mod playing;
mod puzzle;
mod standing;

pub use puzzle::Queens;
