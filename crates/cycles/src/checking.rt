// Checks of arcs.
ghost use Rattle.std.specs.Prelude.{◌≡◌, not, position};
ghost use Rattle.cycles.specs.Arcs.{joins};

use crate::arcs::Arc;

// The index of the first arc that does not join two of so many vertices.
pub(crate) fn first_outside(size: usize, arcs: &[Arc]) -> Option<usize>
    ensures { result ≡ position (λ x. not (joins size x)) arcs.now }
{
    arcs.iter()
        .position(|arc| arc.from as usize >= size || arc.to as usize >= size)
}
