// Why a store is not opened: a refusal, which has a number, or want of memory, which has none.
// Either way the index is given back as it was.
ghost use Rattle.engine.specs.Refusals.{open_code};

use keys::Reason;

// Why an opening is refused, in the order in which it is checked.
#[derive(Clone, Copy, PartialEq, Eq, Debug)]
pub enum OpenRefusal {
    // 1: a number is outside its range
    OutOfRange,
    // 2: the index has a key, or fewer numbers than there are places
    UnfitIndex,
}

// Two variants, since want of memory is no refusal and has no number.
#[derive(Drop)]
pub enum OpenError<I> {
    Refused { why: OpenRefusal, index: I },
    // nothing is wrong with the call, but the memory for the table is not to be had
    NoMemory { index: I },
}

impl Reason for OpenRefusal {
    ghost code = { open_code };

    fn number(self) -> u8 {
        match self {
            OpenRefusal::OutOfRange => 1,
            OpenRefusal::UnfitIndex => 2,
        }
    }

    fn value(self) -> Option<u32> {
        None
    }
}
