// Reductions: a solver of one kind, made of a translation of rows and a solver of another kind below.
#![tactic(auto)]

mod chain;
mod lowering;
mod narrow;
mod pairs;
mod reduced;
mod translating;
mod triples;

pub use chain::Chain;
pub use lowering::lower;
pub use narrow::Narrow;
pub use pairs::Pairs;
pub use reduced::Reduced;
pub use translating::Translation;
pub use triples::Triples;
