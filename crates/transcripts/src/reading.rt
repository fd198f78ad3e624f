// Reading lines of a transcript.
use anyhow::anyhow;
use cycles::Arc;
use history::Call;
use puzzles::Given;
use rows::{Bill, Literal};
use std::io::{Lines, StdinLock};
use std::str::SplitWhitespace;

// The lines that are still to be read.
pub(crate) type Input = Lines<StdinLock<'static>>;

// A call that owns its row.
#[derive(Drop)]
pub(crate) enum Read {
    Open { vars: u32, bill: Bill },
    Post(Vec<Literal>),
    Next,
    Value(u32),
    Rewind,
}

impl Read {
    pub(crate) fn call(&self) -> Call<'_> {
        match self {
            Read::Open { vars, bill } => Call::Open {
                vars: *vars,
                bill: *bill,
            },
            Read::Post(row) => Call::Post(row.as_slice()),
            Read::Next => Call::Next,
            Read::Value(variable) => Call::Value(*variable),
            Read::Rewind => Call::Rewind,
        }
    }
}

// A puzzle with its entries.
#[derive(Drop)]
pub(crate) enum Posed {
    Queens(Vec<Given>),
    Latin(Vec<Given>),
    Cycles(Vec<Arc>),
}

// What is asked about a puzzle: number is the limit of a count, or how many bytes the buffer of a verdict has.
#[derive(Drop)]
pub(crate) struct Question {
    pub(crate) number: u64,
    pub(crate) size: usize,
    pub(crate) posed: Posed,
    pub(crate) known: Vec<u8>,
}

// The words that are left of a line, as numbers.
pub(crate) fn read_numbers(
    rt: &HostRuntime,
    words: SplitWhitespace<'_>,
) -> anyhow::Result<Vec<u64>> {
    let mut numbers = Vec::new(rt.alloc());
    for word in words {
        numbers.push(word.parse::<u64>()?)?;
    }
    Ok(numbers)
}

// A call by its word and numbers. Numbers behind next and rewind are passed over.
pub(crate) fn read_call(rt: &HostRuntime, word: &str, numbers: &[u64]) -> anyhow::Result<Read> {
    // one arm for each word: each call has its own numbers to read
    match (word, numbers) {
        ("open", [vars, pairs @ ..]) => Ok(Read::Open {
            vars: u32::try_from(*vars)?,
            bill: read_bill(pairs)?,
        }),
        ("open", []) => Err(anyhow!("open wants a number of variables")),
        ("post", _) => Ok(Read::Post(read_row(rt, numbers)?)),
        ("next", _) => Ok(Read::Next),
        ("value", [variable]) => Ok(Read::Value(u32::try_from(*variable)?)),
        ("value", _) => Err(anyhow!("value wants a variable")),
        ("rewind", _) => Ok(Read::Rewind),
        _ => Err(anyhow!("no such call")),
    }
}

// For each length with rows LENGTH COUNT.
fn read_bill(numbers: &[u64]) -> anyhow::Result<Bill> {
    let mut bill = Bill::empty();
    for pair in numbers.chunks(2) {
        if let [len, count] = pair {
            let len = usize::try_from(*len)?;
            if len < bill.counts.len() {
                bill.counts[len] = u32::try_from(*count)?;
            }
        }
    }
    Ok(bill)
}

fn read_row(rt: &HostRuntime, numbers: &[u64]) -> anyhow::Result<Vec<Literal>> {
    let mut row = Vec::new(rt.alloc());
    for number in numbers {
        row.push(u16::try_from(*number)?)?;
    }
    Ok(row)
}

// What a line asks: its call, a number, the name of a puzzle, its size, and its entries, each two numbers. The known answers come
// after the word `known`.
pub(crate) fn read_question(rt: &HostRuntime, line: &str) -> anyhow::Result<Question> {
    let (posed, known) = line.split_once(" known").unwrap_or((line, ""));
    let mut words = posed.split_whitespace();
    let _ = words.next();
    let (Some(number), Some(name), Some(size)) = (words.next(), words.next(), words.next()) else {
        return Err(anyhow!("a question wants a number, a puzzle and its size"));
    };
    let entries = read_numbers(rt, words)?;
    let known = read_numbers(rt, known.split_whitespace())?;
    Ok(Question {
        number: number.parse::<u64>()?,
        size: size.parse::<usize>()?,
        posed: read_posed(rt, name, entries.as_slice())?,
        known: read_bytes(rt, known.as_slice())?,
    })
}

fn read_posed(rt: &HostRuntime, name: &str, entries: &[u64]) -> anyhow::Result<Posed> {
    match name {
        "queens" => Ok(Posed::Queens(read_givens(rt, entries)?)),
        "latin" => Ok(Posed::Latin(read_givens(rt, entries)?)),
        "cycles" => Ok(Posed::Cycles(read_arcs(rt, entries)?)),
        _ => Err(anyhow!("no such puzzle")),
    }
}

fn read_bytes(rt: &HostRuntime, numbers: &[u64]) -> anyhow::Result<Vec<u8>> {
    let mut bytes = Vec::new(rt.alloc());
    for number in numbers {
        bytes.push(u8::try_from(*number)?)?;
    }
    Ok(bytes)
}

// PLACE VALUE for each given.
fn read_givens(rt: &HostRuntime, numbers: &[u64]) -> anyhow::Result<Vec<Given>> {
    let mut givens = Vec::new(rt.alloc());
    for pair in numbers.chunks(2) {
        let (place, value) = read_pair(pair)?;
        givens.push(Given { place, value })?;
    }
    Ok(givens)
}

// FROM TO for each arc.
fn read_arcs(rt: &HostRuntime, numbers: &[u64]) -> anyhow::Result<Vec<Arc>> {
    let mut arcs = Vec::new(rt.alloc());
    for pair in numbers.chunks(2) {
        let (from, to) = read_pair(pair)?;
        arcs.push(Arc { from, to })?;
    }
    Ok(arcs)
}

fn read_pair(pair: &[u64]) -> anyhow::Result<(u8, u8)> {
    let [first, second] = pair else {
        return Err(anyhow!("an entry is two numbers"));
    };
    Ok((u8::try_from(*first)?, u8::try_from(*second)?))
}
