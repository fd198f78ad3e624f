// The backtracker: a final solver of any kind that draws in order, true before false from variable 0.
ghost use Rattle.std.specs.Prelude.{◌≡◌};

use crate::drawing::Drawing;

mod making;
mod solving;

/// The backtracker: of any kind, draws true before false at the first variable in which two solutions differ.
///
/// It takes n variables and a bill where its workspace has n numbers and those that the rows take (`room`), and uses no other memory.
// It remembers a slot for each variable, so that a step back undoes all values above the decision.
#[derive(Drop)]
pub struct Backtracker {
    drawing: Drawing,
    // so that what it takes is known of any backtracker, however it was made
    ghost each: { drawing.search.store.each ≡ 1 },
}
