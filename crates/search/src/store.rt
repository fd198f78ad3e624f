// The rows of a final solver in its one workspace, which is handed over at making and never grows.
ghost use Rattle.std.specs.Prelude.{◌≡◌, ◌+◌, ◌*◌, ◌≤◌, true, vec_len};
ghost use Rattle.rows.specs.Literals.{within};
ghost use Rattle.search.specs.Layout.{well_formed};
ghost use Rattle.search.specs.Room.{space};

use rows::{Bill, Kind};

mod filling;

pub(crate) use filling::room;

// Leading numbers come first, so many for each variable, of which a search makes what it needs; then the rows, each as its length
// and its literals. The rules give a solver this one buffer of two-byte numbers, so the figures that divide it stand beside it.
#[derive(Drop)]
pub(crate) struct Store {
    pub(crate) kind: Kind,
    // how many leading numbers a variable has
    pub(crate) each: u32,
    pub(crate) vars: u32,
    // how many rows there are
    pub(crate) count: usize,
    // where the next row goes
    pub(crate) end: usize,
    pub(crate) owed: Bill,
    pub(crate) work: Vec<u16>,
    ghost one: { 1 ≤ each },
    ghost two: { each ≤ 2 },
    ghost formed: { well_formed (each * vars) vars count end work.items ≡ true },
    ghost room: { end + space 0 owed.counts ≤ vec_len work },
    ghost in_range: { vars ≤ within },
}
