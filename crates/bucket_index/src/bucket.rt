// The bucket index and its calls. Find, add and discard visit the cells of one bucket only.
// That its memory is sound is an invariant of its type: what a new index has, and every call keeps.
ghost use Rattle.bucket_index.specs.Buckets.{Sound};

use crate::memory::{CAPACITY, Memory};
use index::{AddRefusal, DiscardRefusal, Index};
use keys::CodeKey;

#[derive(Drop)]
pub struct BucketIndex {
    memory: Memory,
    // each bucket's chain holds its keys, no key has two numbers, and the count is right
    pub ghost sound: { ∥ Sound memory.heads memory.cells memory.count ∥₁ },
}

impl BucketIndex {
    ghost use Rattle.bucket_index.specs.Limits.{capacity};
    ghost use Rattle.bucket_index.specs.Slots.{keys_of};
    ghost use Rattle.index.specs.Slots.{empty};
    ghost use Rattle.std.specs.Prelude.{◌≡◌};

    // An index without a key.
    pub fn new() -> BucketIndex
        ensures kept { Sound result.memory.heads result.memory.cells result.memory.count }
        ensures answer { keys_of result ≡ empty capacity }
    {
        BucketIndex {
            memory: Memory::blank(),
        }
    }
}

impl Index for BucketIndex {
    ghost use Rattle.bucket_index.specs.Chains.{code_order};
    ghost use Rattle.bucket_index.specs.Slots.{keys_of};
    ghost use Rattle.index.specs.Refusals.{add_code, discard_code};
    ghost use Rattle.index.specs.Slots.{add_answer, added, discard_answer, discarded, empty};
    ghost use Rattle.keys.specs.Refusals.{told};
    ghost use Rattle.std.specs.Prelude.{◌≡◌, length};

    type Key = CodeKey;

    ghost slots = { keys_of };

    // `kept` says more than the type here and below: which chain each bucket has can be told, and not only that it has one.
    fn emptied(self) -> BucketIndex
        ensures answer { keys_of result ≡ empty (length (keys_of self)) }
        ensures kept { Sound result.memory.heads result.memory.cells result.memory.count }
    {
        BucketIndex::new()
    }

    fn capacity(&self) -> usize {
        CAPACITY
    }

    fn count(&self) -> usize {
        self.memory.count()
    }

    fn find(&self, key: CodeKey) -> Option<usize> {
        self.memory
            .seek(key, |cell| cell.has_key(key))
            .map(usize::from)
    }

    fn add(&mut self, key: CodeKey, number: usize) -> Result<(), AddRefusal>
        ensures answer { told add_code result ≡ add_answer code_order (keys_of self.old) key number }
        ensures after { keys_of self.new ≡ added code_order (keys_of self.old) key number }
        ensures kept { Sound self.old.memory.heads self.old.memory.cells self.old.memory.count → Sound self.new.memory.heads self.new.memory.cells self.new.memory.count }
    {
        let cell = self.memory.cell(number).ok_or(AddRefusal::NumberTooHigh)?;
        if cell.key.is_some() {
            return Err(AddRefusal::NumberInUse);
        }
        if self.find(key).is_some() {
            return Err(AddRefusal::KeyThere);
        }
        self.memory.link(key, number);
        Ok(())
    }

    fn discard(&mut self, number: usize) -> Result<(), DiscardRefusal>
        ensures answer { told discard_code result ≡ discard_answer (keys_of self.old) number }
        ensures after { keys_of self.new ≡ discarded (keys_of self.old) number }
        ensures kept { Sound self.old.memory.heads self.old.memory.cells self.old.memory.count → Sound self.new.memory.heads self.new.memory.cells self.new.memory.count }
    {
        let cell = self.memory.cell(number).ok_or(DiscardRefusal::NumberFree)?;
        let key = cell.key.ok_or(DiscardRefusal::NumberFree)?;
        let previous = self.memory.seek(key, |cell| cell.leads_to(number));
        self.memory.unlink(key, previous, cell.next);
        self.memory.free(number);
        Ok(())
    }
}
