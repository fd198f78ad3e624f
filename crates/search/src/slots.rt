// The slots of the variables. In a workspace each is one two-byte number.
ghost use Rattle.std.specs.Prelude.{◌≡◌};
ghost use Rattle.search.specs.Pending.{slot_of, value_of, word_of};

// What a search knows of a variable.
#[derive(Clone, Copy, PartialEq, Eq)]
pub(crate) enum Slot {
    // nothing
    Free = 0,
    // it is tried as true, and false is still to come
    Open = 1,
    // it is true, and false has nothing left to find
    True = 2,
    // it is false, and true has nothing left to find
    False = 3,
}

impl Slot {
    // The value that the variable has, false where it has none yet.
    pub(crate) fn value(self) -> bool
        ensures { result ≡ value_of self }
    {
        matches!(self, Slot::Open | Slot::True)
    }
}

impl From<u16> for Slot {
    ghost from_gives = { λ word slot. slot ≡ slot_of word };

    fn from(word: u16) -> Slot {
        match word {
            0 => Slot::Free,
            1 => Slot::Open,
            2 => Slot::True,
            _ => Slot::False,
        }
    }
}

impl From<Slot> for u16 {
    ghost from_gives = { λ slot word. word ≡ word_of slot };

    fn from(slot: Slot) -> u16 {
        slot as u16
    }
}
