// Literals: a variable or its negation, as one number.
ghost use Rattle.std.specs.Prelude.{◌≡◌, ◌*◌, ◌/◌, ◌<◌};
ghost use Rattle.rows.specs.Literals.{opposite, within};
ghost use Rattle.std.specs.Option.{SomeIff};

// A literal is a two-byte number: 2 × v says that variable v is true, 2 × v + 1 that it is false.
pub type Literal = u16;

// A solver has at most so many variables, so that each literal fits its two bytes.
pub const VARIABLES: u32 = 32_768;

// The literal that says that a variable is true; none where the variable's number is too large for a literal.
pub fn positive(variable: u32) -> Option<Literal>
    ensures { SomeIff result (variable < within) (2 * variable) }
{
    if variable < VARIABLES {
        Some((2 * variable) as u16)
    } else {
        None
    }
}

// The variable that a literal speaks of.
pub fn variable(literal: Literal) -> u32
    ensures { result ≡ literal / 2 }
{
    u32::from(literal / 2)
}

// The opposite literal, of the same variable.
#[tactic(auto, unfolding(crate::specs::Literals::opposite))]
pub fn negated(literal: Literal) -> Literal
    ensures { result ≡ opposite literal }
{
    literal ^ 1
}
