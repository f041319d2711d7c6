// Why an index refuses a call; each reason is told by its number, and has no value beside it.
ghost use Rattle.index.specs.Refusals.{add_code, discard_code};

use keys::Reason;

// Why an add is refused, in the order in which it is checked.
#[derive(Clone, Copy, PartialEq, Eq, Debug)]
pub enum AddRefusal {
    // 14: the number is not below the capacity
    NumberTooHigh,
    // 15: another key has the number
    NumberInUse,
    // 16: the key has a number already
    KeyThere,
}

// Why a discard is refused.
#[derive(Clone, Copy, PartialEq, Eq, Debug)]
pub enum DiscardRefusal {
    // 17: no key has the number
    NumberFree,
}

impl Reason for AddRefusal {
    ghost code = { add_code };

    fn number(self) -> u8 {
        match self {
            AddRefusal::NumberTooHigh => 14,
            AddRefusal::NumberInUse => 15,
            AddRefusal::KeyThere => 16,
        }
    }

    fn value(self) -> Option<u32> {
        None
    }
}

impl Reason for DiscardRefusal {
    ghost code = { discard_code };

    fn number(self) -> u8 {
        match self {
            DiscardRefusal::NumberFree => 17,
        }
    }

    fn value(self) -> Option<u32> {
        match self {
            DiscardRefusal::NumberFree => None,
        }
    }
}
