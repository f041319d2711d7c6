// Linking a new node into the tree at a link: one way down, and the new link handed back up.
// `depth` bounds the way, so that the function ends on any memory.
ghost use Rattle.std.specs.Prelude.{Some};
ghost use Rattle.tree_index.specs.Changes.{Inserts};

use crate::link::{Link, Side};
use crate::node::{Node, node_at, relink};
use keys::Key;

// Links the new node, which has the key and no children, into the tree at the link, and answers the link to the tree.
// The new node is told by its number: a link would be carried down as two words.
// Nodes, link and depth stay parameters: each turn takes another link and one less, so a struct of them would be made anew each time.
pub fn insert<K: Key>(nodes: &mut [Node<K>], at: Link, key: K, new: u16, depth: usize) -> Link
    ensures after { Inserts K.Key.order nodes.old nodes.new at key (Some new) depth result }
{
    let Some(found) = node_at(nodes, at) else {
        return Some(new);
    };
    if depth == 0 {
        return at;
    }
    let Some(side) = Side::of(key.compare(found.key)) else {
        return at;
    };
    let link = insert(nodes, found.links.child(side), key, new, depth - 1);
    relink(nodes, found.place, found.links.with_child(side, link));
    at
}
