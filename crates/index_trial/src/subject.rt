// What is tried: something that answers the calls of an index, and perhaps those on the order of keys too.
use crate::call::{Answer, Call};
use bucket_index::BucketIndex;
use index::{Index, OrderedIndex};
use keys::CodeKey;
use tree_index::SearchTree;

pub trait Subject {
    // What it answers, or none where it is not asked such a call.
    fn answer(&mut self, call: Call) -> Option<Answer>;

    // A new one in its place, without a key.
    fn anew(self) -> Self;
}

// An index that is not asked for the order of keys.
impl Subject for BucketIndex {
    fn answer(&mut self, call: Call) -> Option<Answer> {
        answer_unordered(self, call)
    }

    fn anew(self) -> BucketIndex {
        self.emptied()
    }
}

// An index that is asked every call.
impl<'a> Subject for SearchTree<'a, CodeKey> {
    fn answer(&mut self, call: Call) -> Option<Answer> {
        match call {
            Call::First => Some(Answer::Pair(self.first())),
            Call::Next(key) => Some(Answer::Pair(self.next(key))),
            _ => answer_unordered(self, call),
        }
    }

    fn anew(self) -> SearchTree<'a, CodeKey> {
        self.emptied()
    }
}

fn answer_unordered<I: Index<Key = CodeKey>>(index: &mut I, call: Call) -> Option<Answer> {
    match call {
        Call::Capacity => Some(Answer::Number(Some(index.capacity()))),
        Call::Count => Some(Answer::Number(Some(index.count()))),
        Call::Find(key) => Some(Answer::Number(index.find(key))),
        Call::Add(key, number) => Some(Answer::Added(index.add(key, number))),
        Call::Discard(number) => Some(Answer::Discarded(index.discard(number))),
        Call::First | Call::Next(_) => None,
    }
}
