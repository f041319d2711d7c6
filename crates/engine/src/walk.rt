// Walking the keys that a report sees, in their order. This alone needs an ordered index.
// The places are gone through once, to mark the numbers of the keys that the report sees; then the index gives key
// after key, and the first with a mark is the answer.
ghost use Rattle.engine.specs.Walking.{Marks, marked, number_at, seen_key};
ghost use Rattle.index.specs.Ordered.{least};
ghost use Rattle.index.specs.Slots.{Apart};
ghost use Rattle.keys.specs.Refusals.{told};
ghost use Rattle.ledger.specs.Laws.{Least};
ghost use Rattle.ledger.specs.Refusals.{code};
ghost use Rattle.ledger.specs.Words.{beyond};
ghost use Rattle.std.specs.Prelude.{◌≡◌, ℕ, ◌&&◌, OnSome};
ghost use Rattle.table.specs.Checks.{Outcome};
ghost use Rattle.table.specs.Reads.{Walks, is_visible, walk_checks};
ghost use Rattle.table.specs.Views.{view};

use crate::open::MAX_PLACES;
use crate::store::Store;
use crate::write::write;
use index::{Index, OrderedIndex};
use keys::Key;
use ledger::{Place, Refusal, TicketId};

// Marks the number, if one is given.
fn mark(marks: &mut [bool], number: Option<usize>)
    ensures after { marks.new ≡ marked number marks.old }
{
    if let Some(m) = number {
        write(marks, m, true);
    }
}

// The key of the place, if a report with the stamp sees the place.
fn seen_key<K: Key>(place: Place<K>, stamp: u32) -> Option<K>
    ensures answer { result ≡ seen_key stamp place.state }
{
    if place.is_seen_at(stamp) {
        place.key()
    } else {
        None
    }
}

// The number of the key, if there is a key.
fn number_of<I: Index>(index: &I, key: Option<I::Key>) -> Option<usize>
    ensures answer { result ≡ number_at I.Key.Key.order (I.Index.slots index.now) key }
    ensures apart { OnSome key (Apart (I.Index.slots index.now)) }
{
    index.find(key?)
}

// For each number whether a report with the stamp sees a version of its key.
fn mark_seen<I: Index>(index: &I, places: &[Place<I::Key>], stamp: u32) -> [bool; MAX_PLACES]
    ensures answer { Marks I.Key.Key.order (I.Index.slots index.now) places.now stamp result }
{
    // an array, since nothing is allocated after opening
    let mut marks = [false; MAX_PLACES];
    for place in places {
        let key = seen_key(*place, stamp);
        let number = number_of(index, key);
        mark(&mut marks, number);
    }
    marks
}

impl<I: OrderedIndex> Store<I> {
    // The first key of the index with its number, of those greater than the given one if one is given.
    fn key_after(&self, after: Option<I::Key>) -> Option<(I::Key, usize)>
        ensures answer { result ≡ least I.Key.Key.order after (I.Index.slots self.now.index) }
    {
        after.map_or_else(|| self.index.first(), |key| self.index.next(key))
    }

    // The least key, greater than the given one if one is given, whose number is marked.
    fn next_marked(&self, marks: &[bool; MAX_PLACES], after: Option<I::Key>) -> Option<I::Key>
        ensures answer { (stamp : ℕ) → Marks I.Key.Key.order (I.Index.slots self.now.index) (view self.now.table).places stamp marks.now → Least I.Key.Key.order (λ key. is_visible I.Key.Key.order (view self.now.table).places stamp key && beyond I.Key.Key.order after key) result }
    {
        let mut at = self.key_after(after);
        loop {
            let (key, number) = at?;
            if marks[number] {
                return Some(key);
            }
            at = self.index.next(key);
        }
    }

    // The least key, greater than the given one if one is given, at which the report sees a record.
    pub fn walk(&self, report: TicketId, after: Option<I::Key>) -> Result<Option<I::Key>, Refusal>
        ensures answer { Outcome (walk_checks (view self.now.table) report) (Walks I.Key.Key.order (view self.now.table) report after) (Unit {0}) (told code result) }
    {
        let open = self.table.report(report)?;
        let marks = mark_seen(&self.index, &self.table.places, open.stamp);
        Ok(self.next_marked(&marks, after))
    }
}
