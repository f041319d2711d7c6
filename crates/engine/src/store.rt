// A store: its table, and an index of the keys that the places carry.
// The index is known by its promises alone, so any index serves.
ghost use Rattle.engine.specs.Agreement.{Agree};
ghost use Rattle.engine.specs.Limits.{max_places};
ghost use Rattle.std.specs.Prelude.{◌≤◌, length};

use index::Index;
use table::Table;

#[derive(Drop)]
pub struct Store<I: Index> {
    pub(crate) index: I,
    pub(crate) table: Table<I::Key>,
    // the index agrees with the places
    pub ghost indexed: { ∥ Agree (I.Index.slots index) table.places.items ∥₁ },
    // no more places than a walk has marks for
    pub ghost few: { length table.places.items ≤ max_places },
}
