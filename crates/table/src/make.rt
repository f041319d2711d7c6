// A new table: nothing open, and every place free. Here all memory is taken that a store ever needs.
ghost use Rattle.ledger.specs.Places.{free};
ghost use Rattle.std.specs.Prelude.{◌≡◌, replicate, IfOk};
ghost use Rattle.table.specs.Views.{new_view, view};

use crate::open_list::OpenList;
use crate::table::Table;
use keys::Key;
use ledger::Place;
use std::alloc::{AllocError, Global};

impl<K: Key> Table<K> {
    pub fn new(
        heap: Global,
        store: u16,
        places: usize,
        stamp: u32,
        next: u32,
    ) -> Result<Table<K>, AllocError>
        ensures answer { IfOk result (λ table. view table ≡ new_view store places stamp next) }
    {
        Ok(Table {
            store,
            stamp,
            next,
            places: vec![in heap; Place::free(); places]?,
            reports: OpenList::new(heap)?,
            jobs: OpenList::new(heap)?,
        })
    }
}
