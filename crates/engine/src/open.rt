// Opening a store: its numbers are checked against their ranges, then the index against the count of places.
// All memory that the store ever needs is taken here.
ghost use Rattle.engine.specs.Opening.{index_of, in_ranges, open_checks, refusal_of};
ghost use Rattle.std.specs.Prelude.{◌≡◌, IfOk};
ghost use Rattle.table.specs.Checks.{sent_back};
ghost use Rattle.table.specs.Views.{new_view, view};

use crate::refusal::{OpenError, OpenRefusal};
use crate::store::Store;
use index::Index;
use ledger::{LAST_STAMP, LAST_TICKET};
use std::alloc::Global;
use table::Table;

// The last store number.
const LAST_STORE: u32 = 65_535;

// The most places that a store can have.
pub const MAX_PLACES: usize = 512;

// The numbers of an opening.
#[derive(Clone, Copy, PartialEq, Eq, Debug)]
pub struct Opening {
    // the number of the store, which its tickets carry
    pub store: u32,
    // how many places it has
    pub places: usize,
    // the stamp that its commits count on from
    pub first_stamp: u32,
    // the running number of its first ticket
    pub first_ticket: u32,
}

impl Opening {
    // Whether each number is in its range.
    pub fn is_in_range(self) -> bool
        ensures answer { result ≡ in_ranges self.store self.places self.first_stamp self.first_ticket }
    {
        self.store <= LAST_STORE
            && (1..=MAX_PLACES).contains(&self.places)
            && self.first_stamp <= LAST_STAMP
            && (1..=LAST_TICKET).contains(&self.first_ticket)
    }
}

impl<I: Index> Store<I> {
    // A store with so many places; its commits count on from the first stamp, its tickets from the first ticket.
    pub fn open(heap: Global, opening: Opening, index: I) -> Result<Store<I>, OpenError<I>>
        ensures answer { refusal_of result ≡ sent_back (open_checks (I.Index.slots index) opening.store opening.places opening.first_stamp opening.first_ticket) }
        ensures after { IfOk result (λ s. view s.table ≡ new_view opening.store opening.places opening.first_stamp opening.first_ticket) }
        ensures unchanged { index_of result ≡ index }
    {
        if !opening.is_in_range() {
            return Err(OpenError::Refused {
                why: OpenRefusal::OutOfRange,
                index,
            });
        }
        if index.count() > 0 || index.capacity() < opening.places {
            return Err(OpenError::Refused {
                why: OpenRefusal::UnfitIndex,
                index,
            });
        }
        let Ok(table) = Table::new(
            heap,
            // the cast loses nothing: the number is in its range
            opening.store as u16,
            opening.places,
            opening.first_stamp,
            opening.first_ticket,
        ) else {
            return Err(OpenError::NoMemory { index });
        };
        Ok(Store { index, table })
    }
}
