// A final solver of another make: a truth table, which stores no rows.
#![tactic(auto)]

mod making;
mod numbers;
mod solving;
mod striking;
mod table;
#[cfg(test)]
mod tests;

pub use table::TruthTable;
