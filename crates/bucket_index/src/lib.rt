// The bucket index: code keys in 64 buckets, for up to 512 numbers.
// Stands on the promises of an index; keeps the cell of each number at that place of its own memory, so nothing is allocated.
#![tactic(auto)]

mod bucket;
mod chain;
mod memory;

pub use bucket::BucketIndex;
pub use memory::{BUCKETS, CAPACITY};
