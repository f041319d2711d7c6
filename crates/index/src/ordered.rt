// An ordered index: one that also answers its keys in their order. Walking a report needs it; no other call does.
ghost use Rattle.index.specs.Ordered.{least};
ghost use Rattle.std.specs.Prelude.{◌≡◌, Some, None};

use crate::index::Index;

pub trait OrderedIndex: Index {
    // The least key with its number, or none where there is no key.
    fn first(&self) -> Option<(Self::Key, usize)>
        ensures answer { result ≡ least Self.Key.Key.order None (Self.Index.slots self.now) };

    // The least key greater than the given one with its number, or none where there is none.
    fn next(&self, key: Self::Key) -> Option<(Self::Key, usize)>
        ensures answer { result ≡ least Self.Key.Key.order (Some key) (Self.Index.slots self.now) };
}
