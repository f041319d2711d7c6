// What an index is: the promises that the store leans on, and nothing of how an index is made.
// Stands on the key kinds; each index stands above this crate, and the store too.
#![tactic(auto)]

mod index;
mod ordered;
mod refusal;

pub use index::Index;
pub use ordered::OrderedIndex;
pub use refusal::{AddRefusal, DiscardRefusal};
