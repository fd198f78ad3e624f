// Why a call was refused: fourteen numbered stops, and the fault that carries one up through a stack of solvers.
ghost use Rattle.std.specs.Prelude.{◌≡◌, Some};
ghost use Rattle.rows.specs.Stops.{deeper, fault_place, fault_text, here, stop_name, stop_number};

use std::error::Error;
use std::fmt;

// The reason of a refusal, with the place where it arose. Joint and Big have the fault's depth as their place.
#[derive(Clone, Copy, PartialEq, Eq, Debug)]
pub enum Stop {
    // 1: a size out of range; the size
    Size(u64),
    // 2: more than 256 entries; how many
    Count(u64),
    // 3: bytes or truth values that are not as many as they must be; how many
    Length(u64),
    // 4: the first entry out of range; its index
    Entry(u64),
    // 5: an answer that is none of the puzzle's; its index
    Wrong(u64),
    // 6: an answer equal to an earlier one; its index
    Twice(u64),
    // 7: the kind below does not fit; the depth
    Joint,
    // 8: a number of variables or a bill that is not taken; the depth of the refuser
    Big,
    // 9: a row whose length is not of the kind; the length
    Row(u64),
    // 10: the first literal of a variable that there is not; its position
    Literal(u64),
    // 11: no row of this length is owed; the length
    Bill(u64),
    // 12: a draw while rows are owed; the shortest owed length
    Owed(u64),
    // 13: a buffer too small for what it is to receive; the size that it needs
    Small(u64),
    // 14: a kind that is not offered; the kind
    Make(u64),
}

impl Stop {
    // The stop's number, 1 to 14, and its name in messages. One table, since a variant with a value can have no discriminant.
    fn title(self) -> (u8, &'static str)
        ensures number { result.0 ≡ stop_number self }
        ensures name { result.1.now ≡ stop_name self }
    {
        match self {
            Stop::Size(_) => (1, "SIZE"),
            Stop::Count(_) => (2, "COUNT"),
            Stop::Length(_) => (3, "LENGTH"),
            Stop::Entry(_) => (4, "ENTRY"),
            Stop::Wrong(_) => (5, "WRONG"),
            Stop::Twice(_) => (6, "TWICE"),
            Stop::Joint => (7, "JOINT"),
            Stop::Big => (8, "BIG"),
            Stop::Row(_) => (9, "ROW"),
            Stop::Literal(_) => (10, "LITERAL"),
            Stop::Bill(_) => (11, "BILL"),
            Stop::Owed(_) => (12, "OWED"),
            Stop::Small(_) => (13, "SMALL"),
            Stop::Make(_) => (14, "MAKE"),
        }
    }
}

// A refusal: its stop, and the depth at which it arose. Depth 0 is the solver that was called, or no solver at all.
#[derive(Clone, Copy, PartialEq, Eq, Debug)]
pub struct Fault {
    stop: Stop,
    depth: u8,
}

impl Fault {
    // A refusal by whoever was called. Named, since a `From` would not say at the call that the depth is 0.
    pub fn here(stop: Stop) -> Fault
        ensures { result ≡ here stop }
    {
        Fault { stop, depth: 0 }
    }

    // Why.
    pub fn stop(&self) -> Stop
        ensures { result ≡ self.now.stop }
    {
        self.stop
    }

    // The stop's number, 1 to 14, by which the rules name it.
    pub fn number(&self) -> u8
        ensures { result ≡ stop_number self.now.stop }
    {
        let (number, _) = self.stop.title();
        number
    }

    // Where: a size, a count, an index or a length, as the stop's table says.
    pub fn place(&self) -> u64
        ensures { result ≡ fault_place self.now }
    {
        match self.stop {
            Stop::Joint | Stop::Big => u64::from(self.depth),
            Stop::Size(place)
            | Stop::Count(place)
            | Stop::Length(place)
            | Stop::Entry(place)
            | Stop::Wrong(place)
            | Stop::Twice(place)
            | Stop::Row(place)
            | Stop::Literal(place)
            | Stop::Bill(place)
            | Stop::Owed(place)
            | Stop::Small(place)
            | Stop::Make(place) => place,
        }
    }

    // How deep below the solver that was called it arose.
    pub fn depth(&self) -> u8
        ensures { result ≡ self.now.depth }
    {
        self.depth
    }
}

impl fmt::Display for Fault {
    ghost output = { λ f. Some (fault_text f) };

    fn fmt<W: fmt::Write>(&self, f: &mut fmt::Formatter<W>) -> fmt::Result {
        let (number, name) = self.stop.title();
        let place = self.place();
        let depth = self.depth;
        write!(f, "stop {number} {name}, place {place}, depth {depth}")
    }
}

impl Error for Fault {}

// A fault of a solver below. A type of its own, since `?` carries a fault up by a conversion, and a fault that is the reduction's
// own is not to be changed by it.
#[derive(Clone, Copy, PartialEq, Eq, Debug)]
pub struct Lower(pub Fault);

// The fault of the solver above: the same, one deeper, and never over 255.
impl From<Lower> for Fault {
    ghost from_gives = { λ lower fault. fault ≡ deeper lower.0 };

    fn from(lower: Lower) -> Fault {
        let Fault { stop, depth } = lower.0;
        Fault {
            stop,
            depth: depth.saturating_add(1),
        }
    }
}
