// Opening a store whose shelf will hold records of one kind: from here on the empty list of calls has led to it.
ghost use Rattle.engine.specs.Opening.{index_of, open_checks, refusal_of};
ghost use Rattle.std.specs.Prelude.{◌≡◌};
ghost use Rattle.store.specs.Law.{LedFrom, numbers};
ghost use Rattle.table.specs.Checks.{sent_back};

use engine::{OpenError, Opening, Store};
use index::Index;
use std::alloc::Global;

// A store with so many places; its commits count on from the first stamp, its tickets from the first ticket.
pub fn open<I: Index, R>(heap: Global, opening: Opening, index: I) -> Result<Store<I>, OpenError<I>>
    ensures answer { refusal_of result ≡ sent_back (open_checks (I.Index.slots index) opening.store opening.places opening.first_stamp opening.first_ticket) }
    ensures unchanged { index_of result ≡ index }
    ensures law { LedFrom R (numbers opening) result }
{
    Store::open(heap, opening, index)
}
