// Figures worked out by hand from the rules, proved of the definitions.
#![tactic(auto)]

ghost use Rattle.figures.specs.Worked.{Worked};

// Nothing is run: a call brings the figures into the caller's proof.
pub fn worked()
    ensures { Worked }
{}
