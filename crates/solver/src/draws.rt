// What a draw says.

#[derive(Clone, Copy, PartialEq, Eq, Debug)]
pub enum Drawn {
    // a solution that was not drawn before is drawn, and is current
    Found,
    // none is left, and nothing is current
    Exhausted,
}
