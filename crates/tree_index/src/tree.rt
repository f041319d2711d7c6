// SearchTree as an index: the caller's nodes and the root of the tree in them.
// That the nodes are sound is an invariant of the type, so what is promised has no premise.
ghost use Rattle.std.specs.Prelude.{◌≡◌, ◌≤◌, min, length, Some, None, slice_set};
ghost use Rattle.index.specs.Slots.{Maps, empty, number_of};
ghost use Rattle.std.specs.List.{slice_get};
ghost use Rattle.tree_index.specs.Layouts.{Addable, Discardable, Sound};
ghost use Rattle.tree_index.specs.Links.{max_keys};
ghost use Rattle.tree_index.specs.Nodes.{slots_in};
ghost use Rattle.tree_index.specs.Trees.{height};

mod ordered;

use crate::insert::insert;
use crate::link::Side;
use crate::node::{Node, node_at, put, used};
use crate::remove::remove;
use crate::root::Root;
use index::{AddRefusal, DiscardRefusal, Index};
use keys::Key;

#[derive(Drop)]
pub struct SearchTree<'a, K: Key> {
    // the caller's memory, where the place of a node is the number of its key: nothing is allocated after opening
    nodes: &'a mut [Node<K>],
    root: Root,
    // a tree in order lies at the root and holds every key that has a number, and the root has their count; which tree, is not told
    pub ghost sound: { ∥ Sound K.Key.order nodes.now root ∥₁ },
}

impl<'a, K: Key> SearchTree<'a, K> {
    // An empty tree in the nodes, or in the first of them where there are more than a tree uses, whatever they hold.
    pub fn new(nodes: &'a mut [Node<K>]) -> SearchTree<'a, K>
        ensures kept { Sound K.Key.order result.nodes.now result.root }
        ensures answer { slots_in result.nodes.now ≡ empty (length (slots_in nodes.old)) }
        ensures capacity { length (slots_in result.nodes.now) ≡ min (length nodes.old) max_keys }
    {
        let capacity = used(nodes);
        let nodes = &mut nodes[..capacity];
        nodes.fill(Node::new());
        SearchTree {
            nodes,
            root: Root::EMPTY,
        }
    }

    // The key of the number, or none where the number is not below the capacity.
    fn key_of(&self, number: usize) -> Option<Option<K>>
        ensures answer { result ≡ slice_get (slots_in self.now.nodes.now) number }
    {
        Some(self.nodes.get(number)?.key)
    }
}

impl<'a, K: Key> Index for SearchTree<'a, K> {
    ghost use Rattle.index.specs.Refusals.{add_code, discard_code};
    ghost use Rattle.index.specs.Slots.{add_answer, added, discard_answer, discarded};
    ghost use Rattle.keys.specs.Refusals.{told};

    type Key = K;

    ghost slots = { λ s. slots_in s.nodes.now };

    // `kept` says more than the type here and below: which tree lies in the nodes can be told, and not only that there is one.
    fn emptied(self) -> SearchTree<'a, K>
        ensures answer { slots_in result.nodes.now ≡ empty (length (slots_in self.entry.nodes.now)) }
        ensures kept { Sound K.Key.order result.nodes.now result.root }
    {
        let SearchTree { nodes, .. } = self;
        SearchTree::new(nodes)
    }

    fn capacity(&self) -> usize {
        self.nodes.len()
    }

    fn count(&self) -> usize {
        self.root.count
    }

    fn find(&self, key: K) -> Option<usize> {
        let mut at = self.root.link;
        while let Some(found) = node_at(self.nodes, at) {
            let Some(side) = Side::of(key.compare(found.key)) else {
                return Some(usize::from(found.place));
            };
            at = found.links.child(side);
        }
        None
    }

    fn add(&mut self, key: K, number: usize) -> Result<(), AddRefusal>
        ensures answer { told add_code result ≡ add_answer K.Key.order (slots_in self.old.nodes.now) key number }
        ensures after { slots_in self.new.nodes.now ≡ added K.Key.order (slots_in self.old.nodes.now) key number }
        ensures kept { Sound K.Key.order self.old.nodes.now self.old.root → Sound K.Key.order self.new.nodes.now self.new.root }
    {
        let slot = self.key_of(number).ok_or(AddRefusal::NumberTooHigh)?;
        if slot.is_some() {
            return Err(AddRefusal::NumberInUse);
        }
        if self.find(key).is_some() {
            return Err(AddRefusal::KeyThere);
        }
        let more = link(self.nodes, self.root, key, number);
        self.root = more;
        Ok(())
    }

    fn discard(&mut self, number: usize) -> Result<(), DiscardRefusal>
        ensures answer { told discard_code result ≡ discard_answer (slots_in self.old.nodes.now) number }
        ensures after { slots_in self.new.nodes.now ≡ discarded (slots_in self.old.nodes.now) number }
        ensures kept { Sound K.Key.order self.old.nodes.now self.old.root → Sound K.Key.order self.new.nodes.now self.new.root }
    {
        let Some(Some(key)) = self.key_of(number) else {
            return Err(DiscardRefusal::NumberFree);
        };
        let fewer = unlink(self.nodes, self.root, key, number);
        self.root = fewer;
        Ok(())
    }
}

// The changes take the nodes and the root apart from the tree, since between their two steps the nodes are not sound.

// Gives the free node of the number the key and links it into the tree; answers the new root.
fn link<K: Key>(nodes: &mut [Node<K>], root: Root, key: K, number: usize) -> Root
    ensures after { Addable K.Key.order nodes.old root key number → slots_in nodes.new ≡ slice_set (slots_in nodes.old) number (Some key) }
    ensures kept { Addable K.Key.order nodes.old root key number → ∥ Sound K.Key.order nodes.new result ∥₁ }
    ensures tree { Sound K.Key.order nodes.old root → slice_get (slots_in nodes.old) number ≡ Some None → None ≡ number_of K.Key.order (slots_in nodes.old) key → Sound K.Key.order nodes.new result }
{
    let Ok(new) = u16::try_from(number) else {
        // no tree has such a number
        return root;
    };
    let depth = nodes.len();
    put(nodes, number, Some(key));
    root.with_more(insert(nodes, root.link, key, new, depth))
}

// Unlinks the node of the key, which has the number, from the tree and frees it; answers the new root.
fn unlink<K: Key>(nodes: &mut [Node<K>], root: Root, key: K, number: usize) -> Root
    ensures after { Discardable K.Key.order nodes.old root key number → slots_in nodes.new ≡ slice_set (slots_in nodes.old) number None }
    ensures kept { Discardable K.Key.order nodes.old root key number → ∥ Sound K.Key.order nodes.new result ∥₁ }
    ensures tree { Sound K.Key.order nodes.old root → Maps (slots_in nodes.old) number key → Sound K.Key.order nodes.new result }
    ensures lower { (s : Sound K.Key.order nodes.old root) → Maps (slots_in nodes.old) number key → (left : Sound K.Key.order nodes.new result) × (height left.tree ≤ height s.tree) }
{
    let depth = nodes.len();
    let link = remove(nodes, root.link, key, depth);
    put(nodes, number, None);
    root.with_less(link)
}
