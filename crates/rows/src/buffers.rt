// A buffer for one row.
ghost use Rattle.std.specs.Prelude.{◌≡◌, ◌≤◌, [], ◌∷◌, ◌++◌, length, if◌then◌else◌, nat_lt};
ghost use Rattle.rows.specs.Kinds.{longest};

use crate::kinds::LONGEST;
use crate::literals::Literal;
use std::marker::Model;

// A row by value, which callers see as the list of its literals so far.
// An array with a length and not a Vec, since memory is fixed and nothing allocates.
#[derive(Clone, Copy)]
pub struct Row {
    literals: [Literal; LONGEST],
    len: usize,
}

impl Model for Row {
    ghost use Rattle.std.specs.Prelude.{ℕ, List};
    ghost use Rattle.rows.specs.Buffers.{Formed, buffer, buffer-held, held};

    ghost Value = { List ℕ };

    ghost view = { held };

    ghost invariant = { Formed };

    ghost inverse = { buffer };

    ghost inverse_ok = { buffer-held };
}

impl Row {
    // The row of no literals.
    pub fn new() -> Row
        ensures { result ≡ [] }
    {
        Row {
            literals: [0; LONGEST],
            len: 0,
        }
    }

    // One literal more; false where the row has the most that a row may have, and then it stays as it is. There is no other reason
    // to give, so this is no Result.
    pub fn push(&mut self, literal: Literal) -> bool
        ensures room { result ≡ nat_lt (length self.old) longest }
        ensures after { self.new ≡ (if result then self.old ++ literal ∷ [] else self.old) }
        ensures short { length self.new ≤ longest }
    {
        // in a local, so that the length is not read again behind the write
        let at = self.len;
        if at >= LONGEST {
            return false;
        }
        self.literals[at] = literal;
        self.len = at + 1;
        true
    }

    // The literals so far.
    pub fn literals(&self) -> &[Literal]
        ensures value { result.now ≡ self.now }
        ensures short { length self.now ≤ longest }
    {
        &self.literals[..self.len]
    }
}
