// What a board costs below a reduction.
ghost use Rattle.std.specs.Prelude.{◌≡◌, ℕ, ◌+◌, ◌*◌, ◌^◌, ◌<◌, length, slice_index};
ghost use Rattle.reductions.specs.Bills.{Lowers};

use crate::translating::Translation;
use rows::{Bill, Fault, Stop, VARIABLES};

// So many variables with the helpers of a bill's rows, and the bill of the rows that these become. Stop 8 where they are over the
// limits of the kind above.
pub fn lower<T: Translation>(rule: &T, vars: u32, bill: &Bill) -> Result<(u32, Bill), Fault>
    ensures { Lowers (T.Translation.rule rule.now) vars bill.now.counts result }
{
    if vars > VARIABLES || !bill.is_within(rule.above()) {
        return Err(Fault::here(Stop::Big));
    }
    let mut helpers = 0;
    let mut below = Bill::empty();
    for (len, count) in bill.counts.iter().enumerate() {
        if *count > 0 {
            helpers += *count * rule.helpers(len) as u32;
            charge(&mut below, *count, &rule.cost(len));
        }
    }
    Ok((vars + helpers, below))
}

// Adds to a bill so many times another.
fn charge(bill: &mut Bill, times: u32, cost: &Bill)
    requires { (l : ℕ) → slice_index bill.old.counts l + times * slice_index cost.now.counts l < 2 ^ 32 }
    ensures size { length bill.new.counts ≡ length bill.old.counts }
    ensures adds { (l : ℕ) → slice_index bill.new.counts l ≡ slice_index bill.old.counts l + times * slice_index cost.now.counts l }
{
    for (len, each) in cost.counts.iter().enumerate() {
        bill.counts[len] += times * *each;
    }
}
