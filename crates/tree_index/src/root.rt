// The root of a tree: the link to its first node, and how many keys it has.
// The count is kept, so that telling it is one read.
ghost use Rattle.std.specs.Prelude.{◌≡◌, ◌+◌, ◌-◌, min};
ghost use Rattle.tree_index.specs.Links.{max_keys};

use crate::link::{Link, MAX_KEYS};

#[derive(Clone, Copy)]
pub struct Root {
    pub link: Link,
    pub count: usize,
}

impl Root {
    // of a tree without a key
    pub const EMPTY: Root = Root {
        link: None,
        count: 0,
    };

    // The root of the tree that the link leads to, which has one key more, up to the most.
    pub fn with_more(self, link: Link) -> Root
        ensures answer { result ≡ record { link = link; count = min (self.count + 1) max_keys } }
    {
        Root {
            link,
            count: self.count.saturating_add(1).min(MAX_KEYS),
        }
    }

    // The root of the tree that the link leads to, which has one key less.
    pub fn with_less(self, link: Link) -> Root
        ensures answer { result ≡ record { link = link; count = self.count - 1 } }
    {
        Root {
            link,
            count: self.count.saturating_sub(1),
        }
    }
}
