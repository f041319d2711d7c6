// The calls of an index, and what it may answer, as values that can be listed, compared and printed.
use index::{AddRefusal, DiscardRefusal};
use keys::CodeKey;

#[derive(Clone, Copy)]
pub enum Call {
    Capacity,
    Count,
    Find(CodeKey),
    Add(CodeKey, usize),
    Discard(usize),
    First,
    Next(CodeKey),
}

#[derive(Clone, Copy, PartialEq, Eq, Debug)]
pub enum Answer {
    // a capacity, a count, or the number of a key; none where the key has none
    Number(Option<usize>),
    // a key with its number, or none
    Pair(Option<(CodeKey, usize)>),
    Added(Result<(), AddRefusal>),
    Discarded(Result<(), DiscardRefusal>),
}
