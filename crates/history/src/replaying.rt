// Performing a list of calls.
ghost use Rattle.std.specs.Prelude.{◌≡◌, ◌<◌, ◌^◌, ⊤, Bool, List, Some, MatchResult, is_ok, length};
ghost use Rattle.std.specs.Vec.{vec_items};
ghost use Rattle.solver.specs.Calls.{Kept};
ghost use Rattle.history.specs.declared.calls.Answer.TheVariants.{Accepted, Refused};
ghost use Rattle.history.specs.Performing.{Does};
ghost use Rattle.history.specs.Promises.{Replayed};

use crate::calls::{Answer, Call};
use rows::Fault;
use solver::{Drawn, Solver};
use std::alloc::{AllocError, Global};

// Performs calls upon a solver and gives the answer of each. No answers where there is no memory for them; how many of the calls were
// performed then is not said.
pub fn replay<S: Solver>(
    alloc: Global,
    solver: &mut S,
    calls: &[Call<'_>],
) -> Result<Vec<Answer>, AllocError>
    ensures kept { Kept (S.Solver.means solver.old) (S.Solver.means solver.new) }
    ensures replayed { MatchResult result (λ answers. Replayed (S.Solver.sound solver.old) calls.now (vec_items answers) (S.Solver.means solver.old) (S.Solver.means solver.new)) (λ _. ⊤) }
    ensures still { S.Solver.sound solver.old → S.Solver.sound solver.new }
{
    let mut answers = Vec::new(alloc);
    for call in calls {
        answers.push(perform(alloc, solver, *call)?)?;
    }
    Ok(answers)
}

// Performs one call.
fn perform<S: Solver>(alloc: Global, solver: &mut S, call: Call<'_>) -> Result<Answer, AllocError>
    ensures kept { Kept (S.Solver.means solver.old) (S.Solver.means solver.new) }
    ensures does { S.Solver.sound solver.old → MatchResult result (λ answer. Does (S.Solver.means solver.old) (S.Solver.means solver.new) call.entry answer) (λ _. ⊤) }
    ensures still { S.Solver.sound solver.old → S.Solver.sound solver.new }
{
    Ok(match call {
        Call::Open { vars, bill } => accepted(solver.open(vars, &bill)),
        Call::Post(row) => accepted(solver.post(row)),
        Call::Next => match solver.next() {
            Ok(Drawn::Found) => Answer::Found(read_current(alloc, solver)?),
            Ok(Drawn::Exhausted) => Answer::Exhausted,
            Err(fault) => Answer::Refused(fault),
        },
        Call::Value(variable) => Answer::Valued(solver.value(variable)),
        Call::Rewind => {
            solver.rewind();
            Answer::Accepted
        }
    })
}

// What a call that gives nothing back is answered.
fn accepted(outcome: Result<(), Fault>) -> Answer
    ensures { MatchResult outcome (λ _. result ≡ Accepted) (λ fault. result ≡ Refused fault) }
{
    match outcome {
        Ok(()) => Answer::Accepted,
        Err(fault) => Answer::Refused(fault),
    }
}

// What value answers for each variable, up to the first that there is not.
fn read_current<S: Solver>(alloc: Global, solver: &S) -> Result<Vec<bool>, AllocError>
    ensures { (xs : List Bool) → (S.Solver.means solver.now).current ≡ Some xs → length xs < 2 ^ 32 → MatchResult result (λ values. vec_items values ≡ xs) (λ _. ⊤) }
{
    let mut values = Vec::new(alloc);
    // a loop, since `?` leaves it
    for i in 0..u32::MAX {
        let Some(value) = solver.value(i) else {
            return Ok(values);
        };
        values.push(value)?;
    }
    Ok(values)
}
