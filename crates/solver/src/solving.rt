// The trait of every solver.
ghost use Rattle.std.specs.Prelude.{◌≡◌, true, ◌⊎◌, is_ok};
ghost use Rattle.solver.specs.Calls.{Draws, Fixed, Kept, Opens, Posts, rewound};
ghost use Rattle.solver.specs.Laws.{Lawful, Limited, Ready};
ghost use Rattle.solver.specs.Meaning.{Meaning, lookup};

use crate::draws::Drawn;
use rows::{Bill, Fault, Kind, Literal};

// A solver is opened with a number of variables and a bill, is posted the rows of that bill, and then draws the solutions of
// those rows one by one, each once. Each call is a relation between what the solver means before it and after it.
pub trait Solver {
    // What the solver means at a moment.
    ghost means: { Self → Meaning };

    // Whether its promises about rows and solutions hold: from making on, or from an accepted open on. A solver may be handed
    // over in any other state, as a reduction set upon a solver that is in use; open works there too. That each call keeps them
    // joins two moments, so each says it.
    ghost sound: { Self → Type 0 };

    // What makes a row true; fixed when the solver is made.
    fn kind(&self) -> Kind
        ensures { result ≡ (means self.now).kind };

    // Starts over with so many variables, no rows, and the rows of a bill owed. Stop 7 or 8 where they are not taken.
    fn open(&mut self, vars: u32, bill: &Bill) -> Result<(), Fault>
        ensures kept { Kept (means self.old) (means self.new) }
        ensures opens { Opens (means self.old) (means self.new) vars bill.now.counts result }
        ensures sound { is_ok result ≡ true → sound self.new }
        ensures still { sound self.old → sound self.new };

    // One row more, of those owed. Stop 9 by its length, 10 by a literal, 11 where no row of its length is owed.
    fn post(&mut self, row: &[Literal]) -> Result<(), Fault>
        ensures kept { Kept (means self.old) (means self.new) }
        ensures posts { sound self.old ⊎ Ready (means self.old) → Posts (means self.old) (means self.new) row.now result }
        ensures still { sound self.old → sound self.new };

    // Draws a solution that was not drawn yet, or says that there is none. Stop 12 while a row is owed.
    fn next(&mut self) -> Result<Drawn, Fault>
        ensures fixed { Fixed (means self.old) (means self.new) }
        ensures draws { sound self.old → Draws (means self.old) (means self.new) result }
        ensures still { sound self.old → sound self.new };

    // The value of a variable in the current solution; none where no solution is current or there is no such variable.
    fn value(&self, variable: u32) -> Option<bool>
        ensures { result ≡ lookup (means self.now).current variable };

    // Forgets what was drawn, so that the draws begin anew. Never refused.
    fn rewind(&mut self)
        ensures after { means self.new ≡ rewound (means self.old) }
        ensures still { sound self.old → sound self.new };

    ghost lawful: { (s : Self) → sound s → Lawful (means s) };

    ghost limited: { (s : Self) → Limited (means s) };
}
