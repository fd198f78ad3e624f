//! Hamiltonian cycles.
#![tactic(auto)]

mod arcs;
mod checking;
mod gaps;
mod links;
mod making;
mod playing;
mod puzzle;
mod standing;

pub use arcs::Arc;
pub use puzzle::Cycles;
