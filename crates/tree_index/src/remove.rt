// Unlinking a node from the tree at a link: one way down, and the new link handed back up.
// The successor of the node comes up in its place, so that no way down gets longer. `depth` bounds the way.
ghost use Rattle.tree_index.specs.Changes.{Joins, LosesMin, Removes};
ghost use Rattle.tree_index.specs.Layouts.{EachTreeAt};

use crate::link::{Link, Links, Side};
use crate::node::{Node, node_at, relink};
use keys::Key;

// Unlinks the node of the key from the tree at the link, and answers the link to the tree.
// It goes down like `insert` and stays beside it: one function for both would take what is done at the end as a closure, and be no plainer.
pub fn remove<K: Key>(nodes: &mut [Node<K>], at: Link, key: K, depth: usize) -> Link
    ensures after { Removes K.Key.order nodes.old nodes.new at key depth result }
{
    let Some(found) = node_at(nodes, at) else {
        return at;
    };
    if depth == 0 {
        return at;
    }
    let Some(side) = Side::of(key.compare(found.key)) else {
        return join(nodes, found.links, depth - 1);
    };
    let link = remove(nodes, found.links.child(side), key, depth - 1);
    relink(nodes, found.place, found.links.with_child(side, link));
    at
}

// Joins the trees at the two links of a node that goes: the least node of the right one comes up.
fn join<K: Key>(nodes: &mut [Node<K>], links: Links, depth: usize) -> Link
    ensures after { Joins K.Key.order nodes.old nodes.new links depth result }
{
    let Some(min) = take_min(nodes, links.right, depth) else {
        return links.left;
    };
    relink(nodes, min.place, links.with_child(Side::Right, min.rest));
    Some(min.place)
}

// The least node of a tree, and the link to the tree without it.
#[derive(Clone, Copy)]
pub struct Min {
    place: u16,
    rest: Link,
}

// Unlinks the least node from the tree at the link; none where the tree is empty.
fn take_min<K: Key>(nodes: &mut [Node<K>], at: Link, depth: usize) -> Option<Min>
    ensures after { EachTreeAt K.Key.order nodes.old at depth (LosesMin K.Key.order nodes.old nodes.new result) }
{
    let found = node_at(nodes, at)?;
    if depth == 0 {
        return None;
    }
    let Some(min) = take_min(nodes, found.links.left, depth - 1) else {
        return Some(Min {
            place: found.place,
            rest: found.links.right,
        });
    };
    relink(
        nodes,
        found.place,
        found.links.with_child(Side::Left, min.rest),
    );
    Some(Min { rest: at, ..min })
}
