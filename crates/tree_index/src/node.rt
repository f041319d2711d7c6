// The nodes of a tree: reading one through a link, and the writes. The node of number n lies at place n.
// Each function is safe on any memory: past the nodes there is nothing to read or write.
ghost use Rattle.std.specs.Prelude.{◌≡◌, min, length, None, slice_set};
ghost use Rattle.tree_index.specs.Links.{max_keys};
ghost use Rattle.tree_index.specs.Nodes.{Leads, childless, relinked};

use crate::link::{Link, Links, MAX_KEYS};
use keys::Key;

// A node has a key just where its number has one.
#[derive(Clone, Copy)]
pub struct Node<K> {
    pub(crate) key: Option<K>,
    links: Links,
}

impl<K: Key> Node<K> {
    // A node without a key, of which a caller makes the nodes that a tree is to use.
    pub fn new() -> Node<K>
        ensures answer { result ≡ childless None }
    {
        Node {
            key: None,
            links: Links::NONE,
        }
    }
}

// A node with a key, as a link led to it.
#[derive(Drop)]
pub struct Found<K> {
    pub place: u16,
    pub key: K,
    pub links: Links,
}

// The node that the link leads to, if there is one with a key.
pub fn node_at<K: Key>(nodes: &[Node<K>], at: Link) -> Option<Found<K>>
    ensures answer { Leads nodes.now at result }
{
    let place = at?;
    let node = nodes.get(usize::from(place))?;
    Some(Found {
        place,
        key: node.key?,
        links: node.links,
    })
}

// How many of the nodes a tree uses.
pub fn used<K: Key>(nodes: &[Node<K>]) -> usize
    ensures answer { result ≡ min (length nodes.now) max_keys }
{
    nodes.len().min(MAX_KEYS)
}

// Gives the node at the place other links.
// By a test and an index, since after `get_mut` nothing is told of what the nodes hold.
pub fn relink<K: Key>(nodes: &mut [Node<K>], place: u16, links: Links)
    ensures after { nodes.new ≡ relinked nodes.old place links }
{
    let place = usize::from(place);
    if place < nodes.len() {
        nodes[place].links = links;
    }
}

// Gives the node at the place the key, or none, and no children. By a test and an index, as in `relink`.
pub fn put<K: Key>(nodes: &mut [Node<K>], place: usize, key: Option<K>)
    ensures after { nodes.new ≡ slice_set nodes.old place (childless key) }
{
    if place < nodes.len() {
        nodes[place] = Node { key, ..Node::new() };
    }
}
