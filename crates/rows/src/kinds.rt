// The four kinds of rows: how long their rows are, and how many true positions make one true.
ghost use Rattle.std.specs.Prelude.{◌≡◌};
ghost use Rattle.rows.specs.Kinds.{enough, has_length, kind_number, kind_or_stop};

use crate::stops::{Fault, Stop};

// The most literals that a row of any kind has.
pub const LONGEST: usize = 16;

// How many lengths there are, from 0 to the longest: a bill has a count for each.
pub const LENGTHS: usize = LONGEST + 1;

// What makes a row true, and how long it may be; with the number by which users name the kind.
#[derive(Clone, Copy, PartialEq, Eq, Debug)]
pub enum Kind {
    // exactly one position is true; up to the longest
    Cover = 1,
    // at least one position is true; up to the longest
    Clauses = 2,
    // at least one position is true; up to three literals
    Short = 3,
    // exactly one position is true; three literals
    Triples = 4,
}

impl Kind {
    // Whether rows of this kind may have so many literals.
    pub fn has_length(self, len: usize) -> bool
        ensures { result ≡ has_length self len }
    {
        match self {
            Kind::Cover | Kind::Clauses => len <= LONGEST,
            Kind::Short => len <= 3,
            Kind::Triples => len == 3,
        }
    }

    // Whether a row of this kind is true when so many of its positions are.
    pub fn is_met_by(self, trues: usize) -> bool
        ensures { result ≡ enough self trues }
    {
        match self {
            Kind::Cover | Kind::Triples => trues == 1,
            Kind::Clauses | Kind::Short => trues >= 1,
        }
    }
}

// The kind's number, 1 to 4.
impl From<Kind> for u8 {
    ghost from_gives = { λ kind number. number ≡ kind_number kind };

    fn from(kind: Kind) -> u8 {
        kind as u8
    }
}

// The kind of this number. Stop 14 where no kind has it.
impl TryFrom<u64> for Kind {
    type Error = Fault;

    ghost try_from_gives = { λ number result. result ≡ kind_or_stop number };

    fn try_from(number: u64) -> Result<Kind, Fault> {
        match number {
            1 => Ok(Kind::Cover),
            2 => Ok(Kind::Clauses),
            3 => Ok(Kind::Short),
            4 => Ok(Kind::Triples),
            _ => Err(Fault::here(Stop::Make(number))),
        }
    }
}
