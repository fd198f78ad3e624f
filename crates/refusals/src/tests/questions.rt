// A question after calls: it is answered by the puzzle alone. And calls that follow one another as one list.
use super::rows_of;
use history::{Answer, Call, replay, verdict_after};
use queens::Queens;
use rows::{Bill, Fault, Stop};
use search::Backtracker;
use std::test::Fail;
use verdict::Verdict;

#[test]
fn what_was_called_before_does_not_matter(rt: HostRuntime) -> Result<(), Fail> {
    let mut queens = Queens::new();
    queens.make(4, &[])?;
    let mut solver = Backtracker::new(1, vec![in rt.alloc(); 0u16; 114]?);
    let opened = Call::Open {
        vars: 1,
        bill: Bill::empty(),
    };
    let calls = [opened, Call::Next, Call::Rewind];
    let mut answer = [9; 4];
    let (answers, verdict) = verdict_after(
        rt.alloc(),
        &calls,
        &queens,
        &[1, 3, 0, 2],
        &mut solver,
        &mut answer,
    )?;
    assert_eq!(rt; answers.len(), 3);
    assert_eq!(rt; verdict, Ok(Verdict::Another { draws: 2 }));
    assert_eq!(rt; answer, [2, 0, 3, 1]);
    Ok(())
}

// The two ways to make one of two variables true and the other false, between two refusals, each found only once.
#[test]
fn calls_follow_one_another(rt: HostRuntime) -> Result<(), Fail> {
    let mut solver = Backtracker::new(1, vec![in rt.alloc(); 0u16; 5]?);
    let calls = [
        Call::Open {
            vars: 2,
            bill: rows_of(2, 1),
        },
        Call::Next,
        Call::Post(&[0, 2]),
        Call::Next,
        Call::Next,
        Call::Value(1),
        Call::Next,
        Call::Post(&[0, 2]),
    ];
    let answers = replay(rt.alloc(), &mut solver, &calls)?;
    let wanted = [
        Answer::Accepted,
        Answer::Refused(Fault::here(Stop::Owed(2))),
        Answer::Accepted,
        Answer::Found(vec![in rt.alloc(); true, false]?),
        Answer::Found(vec![in rt.alloc(); false, true]?),
        Answer::Valued(Some(true)),
        Answer::Exhausted,
        Answer::Refused(Fault::here(Stop::Bill(2))),
    ];
    assert_eq!(rt; answers.as_slice(), wanted.as_slice());
    Ok(())
}
