// Lists of calls upon a solver, performed and answered: what every solver promises, said of the calls and their answers alone.
#![tactic(auto)]

mod asking;
mod calls;
mod replaying;

pub use asking::verdict_after;
pub use calls::{Answer, Call};
pub use replaying::replay;
