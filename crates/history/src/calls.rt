// Calls upon a solver, and what they are answered.
use rows::{Bill, Fault, Literal};

// A call, with its arguments.
#[derive(Clone, Copy)]
pub enum Call<'a> {
    Open { vars: u32, bill: Bill },
    Post(&'a [Literal]),
    Next,
    Value(u32),
    Rewind,
}

#[derive(Drop, PartialEq, Debug)]
pub enum Answer {
    // of open, post and rewind
    Accepted,
    Refused(Fault),
    // of next: a solution is drawn, with what value answers of it right after for each variable there is
    Found(Vec<bool>),
    // of next: none is left
    Exhausted,
    // of value
    Valued(Option<bool>),
}
