// The memory of the bucket index: the cell of number n lies at place n, and each bucket has a chain of the cells whose keys belong to it.
// The steps of its calls, between which the memory need not be sound; that it is sound is an invariant of the index above.
ghost use Rattle.bucket_index.specs.Limits.{buckets, capacity};
ghost use Rattle.std.specs.Prelude.{◌≡◌, length};

use crate::chain::{Cell, FREE, Link, seek};
use keys::CodeKey;

// How many numbers there are.
pub const CAPACITY: usize = 512;

// How many buckets there are.
pub const BUCKETS: usize = 64;

#[derive(Drop)]
pub(crate) struct Memory {
    // for each bucket the first cell of its chain
    heads: [Link; BUCKETS],
    // for each number its cell; links are numbers and no boxes, since the memory is fixed and nothing is allocated
    cells: [Cell; CAPACITY],
    // how many cells have a key
    count: usize,
    // contracts read an array as a list, so how long each is has to be said
    ghost sizes: { (length heads ≡ buckets) × (length cells ≡ capacity) },
}

impl Memory {
    ghost use Rattle.bucket_index.specs.Buckets.{bucket_of};
    ghost use Rattle.bucket_index.specs.Chains.{Sought, free_cell, unlinked_cells, unlinked_heads};
    ghost use Rattle.std.specs.List.{slice_get};
    ghost use Rattle.std.specs.Prelude.{◌+◌, ◌-◌, ◌^◌, ◌<◌, min, replicate, Some, None, slice_index_or, slice_set};

    // The memory of an index without a key.
    pub(crate) fn blank() -> Memory
        ensures heads { result.heads ≡ replicate buckets None }
        ensures cells { result.cells ≡ replicate capacity free_cell }
        ensures count { result.count ≡ 0 }
    {
        Memory {
            heads: [None; BUCKETS],
            cells: [FREE; CAPACITY],
            count: 0,
        }
    }

    // How many cells have a key.
    pub(crate) fn count(&self) -> usize
        ensures answer { result ≡ self.now.count }
    {
        self.count
    }

    // The bucket that the key belongs to.
    fn bucket_of(key: CodeKey) -> usize
        ensures answer { result ≡ bucket_of key }
    {
        (usize::from(key.unit) + usize::from(key.code)) % BUCKETS
    }

    // The cell of the number; none past the capacity.
    pub(crate) fn cell(&self, number: usize) -> Option<Cell>
        ensures answer { result ≡ slice_get self.now.cells number }
    {
        self.cells.get(number).copied()
    }

    // The number of the first cell along the chain of the key's bucket that is wanted, or none.
    pub(crate) fn seek<F: Fn(Cell) -> bool>(&self, key: CodeKey, wanted: F) -> Link
        requires { F.IsAlwaysCallable wanted }
        ensures answer { Sought (F.post wanted) self.now.cells (slice_index_or self.now.heads (bucket_of key) None) result }
    {
        seek(&self.cells, self.heads[Memory::bucket_of(key)], wanted)
    }

    // Puts the cell of the number, with the key, before the others of the key's bucket.
    pub(crate) fn link(&mut self, key: CodeKey, number: usize)
        requires { number < capacity }
        ensures heads { self.new.heads ≡ slice_set self.old.heads (bucket_of key) (Some number) }
        ensures cells { self.new.cells ≡ slice_set self.old.cells number (record { key = Some key; next = slice_index_or self.old.heads (bucket_of key) None }) }
        ensures count { self.new.count ≡ min (self.old.count + 1) (2 ^ 64 - 1) }
    {
        let bucket = Memory::bucket_of(key);
        let next = self.heads[bucket];
        self.cells[number] = Cell {
            key: Some(key),
            next,
        };
        // a cast, since the number is below the capacity
        self.heads[bucket] = Some(number as u16);
        self.count = self.count.saturating_add(1);
    }

    // Lets the link that led to a cell of the key's bucket lead to the next one: the link of the previous cell, or the head.
    pub(crate) fn unlink(&mut self, key: CodeKey, previous: Link, next: Link)
        ensures heads { self.new.heads ≡ unlinked_heads previous self.old.heads (bucket_of key) next }
        ensures cells { self.new.cells ≡ unlinked_cells previous self.old.cells next }
        ensures count { self.new.count ≡ self.old.count }
    {
        match previous {
            None => self.heads[Memory::bucket_of(key)] = next,
            Some(number) => {
                let number = usize::from(number);
                if number < CAPACITY {
                    self.cells[number].next = next;
                }
            }
        }
    }

    // Frees the cell of the number.
    pub(crate) fn free(&mut self, number: usize)
        requires { number < capacity }
        ensures heads { self.new.heads ≡ self.old.heads }
        ensures cells { self.new.cells ≡ slice_set self.old.cells number free_cell }
        ensures count { self.new.count ≡ self.old.count - 1 }
    {
        self.cells[number] = FREE;
        self.count = self.count.saturating_sub(1);
    }
}
