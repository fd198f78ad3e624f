// Bills: how many rows of each length are to be posted.
ghost use Rattle.std.specs.Prelude.{◌≡◌, replicate, Some, nat_eq};
ghost use Rattle.rows.specs.Bills.{bill_text, count_within, counts_within, shortest};
ghost use Rattle.rows.specs.Firsts.{First};
ghost use Rattle.rows.specs.Kinds.{lengths};

use crate::kinds::{Kind, LENGTHS};
use std::fmt;

// No solver takes more rows of one length.
pub const ROWS: u32 = 65_535;

// A bill has a count for each length; count k is the number of rows of k literals still to be posted.
// A count may be over the limit of 65,535: then no solver takes the bill.
#[derive(Clone, Copy, Debug)]
pub struct Bill {
    pub counts: [u32; LENGTHS],
}

impl Bill {
    // No rows.
    pub fn empty() -> Bill
        ensures { result.counts ≡ replicate lengths 0 }
    {
        Bill {
            counts: [0; LENGTHS],
        }
    }

    // The shortest length of which there is a row; none where there is no row at all.
    pub fn shortest(&self) -> Option<usize>
        ensures value { result ≡ shortest self.now.counts }
        ensures first { First (λ c. nat_eq c 0) self.now.counts (shortest self.now.counts) }
    {
        self.counts.iter().position(|count| *count > 0)
    }

    // Whether no count is over the limit, and none above 0 at a length that the kind lacks.
    pub fn is_within(&self, kind: Kind) -> bool
        ensures { result ≡ counts_within kind 0 self.now.counts }
    {
        self.counts
            .iter()
            .enumerate()
            .all(|(len, count)| may_owe(kind, len, *count))
    }
}

// Whether a solver of a kind may be owed so many rows of a length.
fn may_owe(kind: Kind, len: usize, count: u32) -> bool
    ensures { result ≡ count_within kind len count }
{
    count == 0 || count <= ROWS && kind.has_length(len)
}

// The counts above 0, as "4 of length 3, 12 of length 4", or "none".
impl fmt::Display for Bill {
    ghost output = { λ b. Some (bill_text b.counts) };

    fn fmt<W: fmt::Write>(&self, f: &mut fmt::Formatter<W>) -> fmt::Result {
        // a flag and no chain: a `for` over a `filter` in a generic function gets no proof on this toolchain
        let mut any = false;
        for (len, count) in self.counts.iter().enumerate() {
            if *count > 0 {
                if any {
                    f.write_str(", ")?;
                }
                write!(f, "{count} of length {len}")?;
                any = true;
            }
        }
        if any { Ok(()) } else { f.write_str("none") }
    }
}
