// One line after another on a solver.
use crate::asking::{count_posed, decide_posed};
use crate::reading::{Input, read_call, read_numbers, read_question};
use history::{Answer, replay};
use solver::Solver;
use std::str::SplitWhitespace;
use verdict::Verdict;

#[derive(Drop)]
pub(crate) struct Player<S: Solver + Drop> {
    solver: S,
}

impl<S: Solver + Drop> Player<S> {
    pub(crate) fn new(solver: S) -> Player<S> {
        Player { solver }
    }

    // The kind of the solver, and then its lines.
    pub(crate) fn begin(
        self,
        rt: &HostRuntime,
        lines: &mut Input,
    ) -> anyhow::Result<Option<String>> {
        let kind = u8::from(self.solver.kind());
        println!(rt; "kind {kind}")?;
        self.play(rt, lines)
    }

    // Plays one line after another up to one that makes another solver, which it gives back.
    pub(crate) fn play(
        self,
        rt: &HostRuntime,
        lines: &mut Input,
    ) -> anyhow::Result<Option<String>> {
        let mut player = self;
        for _ in 0..u64::MAX {
            let Some(line) = lines.next() else {
                return Ok(None);
            };
            let line = line?;
            let mut words = line.as_str().split_whitespace();
            match words.next() {
                None => {}
                Some("make") => return Ok(Some(line)),
                Some(word) => player.step(rt, line.as_str(), word, words)?,
            }
        }
        Ok(None)
    }

    // A call, or a question about a puzzle; a line that begins with a sharp is a remark, and is printed as it is.
    fn step(
        &mut self,
        rt: &HostRuntime,
        line: &str,
        word: &str,
        others: SplitWhitespace<'_>,
    ) -> anyhow::Result<()> {
        if word.starts_with("#") {
            println!(rt; "{line}")?;
            return Ok(());
        }
        match word {
            "count" => self.count(rt, line),
            "verdict" => self.verdict(rt, line),
            _ => self.perform(rt, line, word, others),
        }
    }

    // A call, performed as a list of one.
    fn perform(
        &mut self,
        rt: &HostRuntime,
        line: &str,
        word: &str,
        others: SplitWhitespace<'_>,
    ) -> anyhow::Result<()> {
        let numbers = read_numbers(rt, others)?;
        print!(rt; "{line}: ")?;
        let read = read_call(rt, word, numbers.as_slice())?;
        let calls = [read.call()];
        for answer in &replay(rt.alloc(), &mut self.solver, &calls)? {
            show(rt, answer)?;
        }
        Ok(())
    }

    // count LIMIT and a puzzle: how many answers it has.
    fn count(&mut self, rt: &HostRuntime, line: &str) -> anyhow::Result<()> {
        print!(rt; "{line}: ")?;
        let question = read_question(rt, line)?;
        match count_posed(&question, &mut self.solver) {
            Ok((found, true)) => println!(rt; "{found}, and none is left")?,
            Ok((found, false)) => println!(rt; "{found}")?,
            Err(fault) => println!(rt; "{fault}")?,
        }
        Ok(())
    }

    // verdict ROOM and a puzzle with what is known of it: whether it has another answer, and what then stands in a buffer of so
    // many nines.
    fn verdict(&mut self, rt: &HostRuntime, line: &str) -> anyhow::Result<()> {
        print!(rt; "{line}: ")?;
        let question = read_question(rt, line)?;
        let mut buffer = vec![in rt.alloc(); 9u8; usize::try_from(question.number)?]?;
        match decide_posed(&question, &mut self.solver, buffer.as_mut_slice()) {
            Ok(Verdict::Another { draws }) => print!(rt; "another after {draws} draws")?,
            Ok(Verdict::None { draws }) => print!(rt; "none after {draws} draws")?,
            Err(fault) => print!(rt; "{fault}")?,
        }
        print!(rt; ", buffer")?;
        for byte in &buffer {
            print!(rt; " {byte}")?;
        }
        println!(rt; "")?;
        Ok(())
    }
}

fn show(rt: &HostRuntime, answer: &Answer) -> anyhow::Result<()> {
    match answer {
        Answer::Accepted => println!(rt; "ok")?,
        Answer::Refused(fault) => println!(rt; "{fault}")?,
        Answer::Found(values) => show_list(rt, values.as_slice())?,
        Answer::Exhausted => println!(rt; "none")?,
        Answer::Valued(Some(value)) => println!(rt; "{value}")?,
        Answer::Valued(None) => println!(rt; "absent")?,
    }
    Ok(())
}

// The value of each variable, 1 for true.
fn show_list(rt: &HostRuntime, values: &[bool]) -> anyhow::Result<()> {
    print!(rt; "found")?;
    for value in values {
        print!(rt; " {}", u8::from(*value))?;
    }
    println!(rt; "")?;
    Ok(())
}
