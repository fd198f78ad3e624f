// Making a store, opening it, adding rows, and going over them.
ghost use Rattle.std.specs.Prelude.{◌≡◌, ◌+◌, ◌*◌, ◌^◌, ◌<◌, ◌≤◌, [], ◌∷◌, ◌++◌, length, take, replicate, None, vec_len};
ghost use Rattle.rows.specs.Kinds.{lengths};
ghost use Rattle.rows.specs.Stops.{Unless};
ghost use Rattle.solver.specs.Stops.{post_stop};
ghost use Rattle.search.specs.Layout.{rows_in};
ghost use Rattle.search.specs.Room.{open_stop, space};
ghost use Rattle.search.specs.Stored.{AppendedTo, Emptied, lead, stored};

use crate::packing::PackedRows;
use crate::store::Store;
use rows::{Bill, Fault, Kind, Literal, Stop, VARIABLES};

// How many numbers the rows of a bill take: for each its length and its literals.
fn space_of(bill: &Bill) -> u64
    ensures value { result ≡ space 0 bill.now.counts }
    ensures bound { result < 2 ^ 42 }
{
    // a loop, whose invariant bounds the sum: a chain has no place for that
    let mut space: u64 = 0;
    for (len, count) in bill.counts.iter().enumerate() {
        space += *count as u64 * (len as u64 + 1);
    }
    space
}

// The smallest workspace, with so many leading numbers for each variable.
pub(crate) fn room(each: u32, vars: u32, bill: &Bill) -> u64
    requires { each ≤ 2 }
    ensures { result ≡ each * vars + space 0 bill.now.counts }
{
    u64::from(each) * u64::from(vars) + space_of(bill)
}

// Writes a row from a place on, as its length and its literals. With a place, since of a part of a Vec that is lent nothing is
// known afterwards.
fn write_row(work: &mut [u16], at: usize, row: &[Literal])
    requires fits { at + length row.now < length work.old }
    requires short { length row.now < 65536 }
    ensures { take (at + length row.now + 1) work.new ≡ take at work.old ++ (length row.now ∷ row.now) }
{
    work[at] = row.len() as u16;
    work[at + 1..at + 1 + row.len()].copy_from_slice(row);
}

impl Store {
    pub(crate) fn into_workspace(self) -> Vec<u16>
        ensures { result ≡ self.work }
    {
        let Store { work, .. } = self;
        work
    }

    // No variables and no rows.
    pub(crate) fn new(kind: Kind, each: u32, work: Vec<u16>) -> Store
        requires one { 1 ≤ each }
        requires two { each ≤ 2 }
        ensures kind { result.kind ≡ kind }
        ensures each { result.each ≡ each }
        ensures vars { result.vars ≡ 0 }
        ensures owed { result.owed.counts ≡ replicate lengths 0 }
        ensures rows { stored result ≡ [] }
        ensures work { result.work ≡ work }
    {
        Store {
            kind,
            each,
            vars: 0,
            count: 0,
            end: 0,
            owed: Bill::empty(),
            work,
        }
    }

    // How many numbers stand before the rows.
    pub(crate) fn lead(&self) -> usize
        ensures { result ≡ lead self.now }
    {
        self.each as usize * self.vars as usize
    }

    // Its rows.
    pub(crate) fn rows(&self) -> PackedRows<'_>
        ensures vars { result.vars ≡ self.now.vars }
        ensures rows { rows_in result.left result.words.now ≡ stored self.now }
    {
        let words = &self.work[self.lead()..self.end];
        PackedRows {
            vars: self.vars as usize,
            left: self.count,
            words,
        }
    }

    // Starts over with so many variables and a bill owed; stop 8 where they are over a limit or the workspace is too small.
    pub(crate) fn open(&mut self, vars: u32, bill: &Bill) -> Result<(), Fault>
        ensures { Unless (open_stop self.old.each self.old.kind (vec_len self.old.work) vars bill.now.counts) (self.new ≡ self.old) (Emptied self.old self.new vars bill.now.counts) result }
    {
        if vars > VARIABLES || !bill.is_within(self.kind) {
            return Err(Fault::here(Stop::Big));
        }
        if room(self.each, vars, bill) > self.work.len() as u64 {
            return Err(Fault::here(Stop::Big));
        }
        self.vars = vars;
        self.count = 0;
        self.end = self.each as usize * vars as usize;
        self.owed = *bill;
        Ok(())
    }

    // One row more, which was checked: room for it was seen to when the store was opened.
    pub(crate) fn append(&mut self, row: &[Literal])
        requires { post_stop self.old.kind self.old.vars self.old.owed.counts row.now ≡ None }
        ensures { AppendedTo self.old self.new row.now }
    {
        write_row(self.work.as_mut_slice(), self.end, row);
        self.end = self.end + row.len() + 1;
        self.count += 1;
        self.owed.counts[row.len()] -= 1;
    }
}
