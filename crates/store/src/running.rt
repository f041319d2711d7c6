// A list of calls made one after another, with their answers handed back.
// Under the law of runs as a whole: it is the calls of the list that led from the store at entry to the store at exit.
ghost use Rattle.std.specs.Prelude.{◌≡◌, min, length, take, drop};
ghost use Rattle.store.specs.Lists.{LeadsThrough};

use crate::asking::ask;
use engine::Store;
use index::Index;
use ledger::{Answer, BasicCall};

// Makes the calls, as many as there is room for answers, and tells how many it made.
pub fn run_calls<I: Index, R: Copy>(
    store: &mut Store<I>,
    shelf: &mut [R],
    calls: &[BasicCall<I::Key, R>],
    answers: &mut [Answer<I::Key, R>],
) -> usize
    ensures answer { result ≡ min (length calls.now) (length answers.old) }
    ensures law { LeadsThrough (take result calls.now) (take result answers.new) store.old store.new shelf.old shelf.new }
    ensures rest { drop result answers.new ≡ drop result answers.old }
{
    let count = calls.len().min(answers.len());
    // By index: zipped with `iter_mut` no proof closes, since nothing is known of what is written through a zip's items.
    for (i, call) in calls[..count].iter().enumerate() {
        answers[i] = ask(store, shelf, *call);
    }
    count
}
