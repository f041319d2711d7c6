// SearchTree as an ordered index: its least key, and the least one beyond a given one.
// Either is found on one way down.
ghost use Rattle.index.specs.Ordered.{Beyond, least};
ghost use Rattle.std.specs.Prelude.{◌≡◌, Decides};
ghost use Rattle.tree_index.specs.Nodes.{slots_in};

use crate::node::node_at;
use crate::tree::SearchTree;
use index::OrderedIndex;
use keys::Key;

impl<'a, K: Key> OrderedIndex for SearchTree<'a, K> {
    fn first(&self) -> Option<(K, usize)> {
        self.least_beyond(None)
    }

    fn next(&self, key: K) -> Option<(K, usize)> {
        self.least_beyond(Some(key))
    }
}

impl<'a, K: Key> SearchTree<'a, K> {
    // The least key beyond the given one, if one is given, with its number.
    fn least_beyond(&self, given: Option<K>) -> Option<(K, usize)>
        ensures answer { result ≡ least K.Key.order given (slots_in self.now.nodes.now) }
    {
        let mut at = self.root.link;
        let mut best = None;
        while let Some(found) = node_at(self.nodes, at) {
            if is_beyond(given, found.key) {
                best = Some((found.key, usize::from(found.place)));
                at = found.links.left;
            } else {
                at = found.links.right;
            }
        }
        best
    }
}

// Whether the key is greater than the given one, if one is given.
fn is_beyond<K: Key>(given: Option<K>, key: K) -> bool
    ensures answer { Decides result (Beyond K.Key.order given key) }
{
    given.is_none_or(|bound| bound.compare(key).is_lt())
}
