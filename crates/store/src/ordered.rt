// A call as a value, on a store over an ordered index: this one can be asked to walk, too.
// Under the law of runs like the calls that any index serves.
ghost use Rattle.store.specs.Law.{LeadsOn, LeftAlone, RefusedLeavesAll};

use crate::asking::ask;
use engine::Store;
use index::{Index, OrderedIndex};
use ledger::{Answer, Call, Granted};

// Any call, on a store over an ordered index.
pub fn ask_ordered<I: OrderedIndex, R: Copy>(
    store: &mut Store<I>,
    shelf: &mut [R],
    call: Call<I::Key, R>,
) -> Answer<I::Key, R>
    ensures law { LeadsOn call result store.old store.new shelf.old shelf.new }
    ensures unchanged { RefusedLeavesAll result store.old store.new shelf.old shelf.new }
    ensures astray { LeftAlone store.old shelf.old shelf.new }
{
    match call {
        Call::Walk { report, after } => Ok(Granted::Next(store.walk(report, after)?)),
        Call::Basic(basic) => ask(store, shelf, basic),
    }
}
