// SearchTree: an ordered index for any key kind, in nodes that the caller lends.
// Stands on the key kinds and on what an index is; nothing of the store depends on it.
#![tactic(auto)]

mod insert;
mod link;
mod node;
mod remove;
mod root;
mod tree;

pub use link::MAX_KEYS;
pub use node::Node;
pub use tree::SearchTree;
