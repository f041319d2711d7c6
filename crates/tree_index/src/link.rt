// Links between nodes: the number of the node that a link leads to, or none; and the two links of a node.
ghost use Rattle.tree_index.specs.Links.{side_of, child, with_child};
ghost use Rattle.std.specs.Prelude.{◌≡◌};

use std::cmp::Ordering;

// The most keys that a tree holds, and the most nodes that it uses.
pub const MAX_KEYS: usize = 512;

// A side of a node: lesser keys on the left, greater ones on the right.
#[derive(Clone, Copy)]
pub enum Side {
    Left,
    Right,
}

impl Side {
    // On which side of a node a key belongs, by how it compares with the node's key; none where they are equal.
    // By hand, since TryFrom would make an error of equal, which is an answer like the others.
    pub fn of(ordering: Ordering) -> Option<Side>
        ensures answer { result ≡ side_of ordering }
    {
        match ordering {
            Ordering::Less => Some(Side::Left),
            Ordering::Equal => None,
            Ordering::Greater => Some(Side::Right),
        }
    }
}

// The number of the node that it leads to, or none. A number of two bytes beside its tag, so that a node is small.
pub type Link = Option<u16>;

// The links of a node to its children.
#[derive(Clone, Copy)]
pub struct Links {
    pub left: Link,
    pub right: Link,
}

impl Links {
    // no link leads to a node
    pub const NONE: Links = Links {
        left: None,
        right: None,
    };

    // The link on the side.
    pub fn child(self, side: Side) -> Link
        ensures answer { result ≡ child self side }
    {
        match side {
            Side::Left => self.left,
            Side::Right => self.right,
        }
    }

    // These links, with another one on the side.
    pub fn with_child(self, side: Side, link: Link) -> Links
        ensures answer { result ≡ with_child self side link }
    {
        match side {
            Side::Left => Links { left: link, ..self },
            Side::Right => Links {
                right: link,
                ..self
            },
        }
    }
}
