// The plain list of pairs that the indexes are held against: a capacity, and keys with their numbers in no order.
// A list and no map: every call goes through the whole of it, so that it is plain what it answers, and it shares nothing with an index.
use crate::call::{Answer, Call};
use crate::subject::Subject;
use index::{AddRefusal, DiscardRefusal};
use keys::CodeKey;
use std::alloc::{AllocError, Global};

#[derive(Drop)]
pub struct PlainList {
    capacity: usize,
    pairs: Vec<(CodeKey, usize)>,
}

impl PlainList {
    pub fn new(heap: Global, capacity: usize) -> PlainList {
        PlainList {
            capacity,
            pairs: Vec::new(heap),
        }
    }

    // What is answered to the call.
    pub fn reply(&mut self, call: Call) -> Result<Answer, AllocError> {
        let answer = match call {
            Call::Capacity => Answer::Number(Some(self.capacity)),
            Call::Count => Answer::Number(Some(self.pairs.len())),
            Call::Find(key) => Answer::Number(self.find(key)),
            Call::Add(key, number) => Answer::Added(self.add(key, number)?),
            Call::Discard(number) => Answer::Discarded(self.discard(number)),
            Call::First => Answer::Pair(self.least_beyond(None)),
            Call::Next(key) => Answer::Pair(self.least_beyond(Some(key))),
        };
        Ok(answer)
    }

    fn find(&self, key: CodeKey) -> Option<usize> {
        self.pairs
            .iter()
            .find(|pair| pair.0 == key)
            .map(|pair| pair.1)
    }

    fn add(&mut self, key: CodeKey, number: usize) -> Result<Result<(), AddRefusal>, AllocError> {
        if number >= self.capacity {
            return Ok(Err(AddRefusal::NumberTooHigh));
        }
        if self.pairs.iter().any(|pair| pair.1 == number) {
            return Ok(Err(AddRefusal::NumberInUse));
        }
        if self.find(key).is_some() {
            return Ok(Err(AddRefusal::KeyThere));
        }
        self.pairs.push((key, number))?;
        Ok(Ok(()))
    }

    fn discard(&mut self, number: usize) -> Result<(), DiscardRefusal> {
        let place = self
            .pairs
            .iter()
            .position(|pair| pair.1 == number)
            .ok_or(DiscardRefusal::NumberFree)?;
        self.pairs.remove(place);
        Ok(())
    }

    // The least key, or the least greater than the given one, with its number. No key is less than every key.
    fn least_beyond(&self, given: Option<CodeKey>) -> Option<(CodeKey, usize)> {
        self.pairs
            .iter()
            .filter(|pair| given < Some(pair.0))
            .min_by_key(|pair| pair.0)
            .copied()
    }
}

// The list tried itself, so that its answers are counted too.
impl Subject for PlainList {
    fn answer(&mut self, call: Call) -> Option<Answer> {
        self.reply(call).ok()
    }

    fn anew(self) -> PlainList {
        let PlainList {
            capacity,
            mut pairs,
        } = self;
        pairs.clear();
        PlainList { capacity, pairs }
    }
}
