// Where a final solver stands among the solutions.
#[derive(Clone, Copy)]
pub(crate) enum Posture {
    // before the first draw
    Before,
    // on an answer
    On,
    // past the last
    Past,
}
