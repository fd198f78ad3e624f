// Dpll, of Davis, Logemann and Loveland (1962): a final solver of clauses, by unit propagation and step back, that draws in
// order, true before false from variable 0.
ghost use Rattle.std.specs.Prelude.{◌≡◌};

use crate::drawing::Drawing;

mod making;
mod solving;

/// Dpll, after Davis, Logemann and Loveland (1962): of kind 2 or 3, draws in the order of the backtracker.
///
/// It takes n variables and a bill where its workspace has 2n numbers and those that the rows take (`room`), and uses no other memory.
// It remembers a slot and a level for each variable, so that a step back undoes only what came after the decision: values that
// earlier decisions forced stay.
#[derive(Drop)]
pub struct Dpll {
    drawing: Drawing,
    // so that what it takes is known of any dpll, however it was made
    ghost each: { drawing.search.store.each ≡ 2 },
}
