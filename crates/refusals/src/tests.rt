// What no transcript shows: refusals that leave a puzzle, truth values or an answer as they were, room to the number, a solver that was
// in use before, and calls that follow one another.
use rows::{Bill, Fault, Stop};
use std::process::Abort;

mod boards;
mod making;
mod questions;
mod solvers;

// That a call was refused with this stop.
fn refused(rt: &impl Abort, answer: Result<(), Fault>, stop: Stop) {
    assert_eq!(rt; answer, Err(Fault::here(stop)));
}

// A bill of so many rows of one length.
fn rows_of(len: usize, count: u32) -> Bill {
    let mut bill = Bill::empty();
    if len < bill.counts.len() {
        bill.counts[len] = count;
    }
    bill
}
