// Ending a job: a commit makes its drafts current at a new stamp, an abort frees them.
ghost use Rattle.engine.specs.Agreement.{Keeps, KeepsBut};
ghost use Rattle.engine.specs.Each.{KeepsEach, Makes};
ghost use Rattle.keys.specs.Refusals.{told};
ghost use Rattle.ledger.specs.Refusals.{code};
ghost use Rattle.ledger.specs.declared.place.Place.{Place};
ghost use Rattle.std.specs.Prelude.{◌≡◌, ◌+◌, List, fold, OnErr};
ghost use Rattle.table.specs.declared.row.HeldKey.{HeldKey};
ghost use Rattle.table.specs.Checks.{checked};
ghost use Rattle.table.specs.Commits.{abort_checks, aborted, commit_checks, committed, settled, turned_at, undone};
ghost use Rattle.table.specs.Rows.{entries_of};
ghost use Rattle.table.specs.Views.{if_granted, view};

use crate::store::Store;
use crate::turn::{relist, turn};
use index::Index;
use ledger::{LAST_STAMP, Place, PlaceEvent, Refusal, TicketId};
use table::{HeldKey, Row};

// What the event makes of the place, if there is one.
fn turn_at<I: Index>(
    index: &mut I,
    places: &mut [Place<I::Key>],
    place: Option<usize>,
    event: PlaceEvent<I::Key>,
) -> bool
    ensures after { places.new ≡ turned_at event place places.old }
    ensures index { KeepsBut result (I.Index.slots index.old) places.old (I.Index.slots index.new) places.new }
{
    // a match: of what a closure borrows and changes, nothing is known once is_some_and has called it
    match place {
        Some(n) => turn(index, places, n, event),
        None => false,
    }
}

// The job's draft at the key becomes current, or goes if it is a mark; the version that it replaces is superseded.
fn settle<I: Index>(index: &mut I, places: &mut [Place<I::Key>], held: HeldKey, stamp: u32) -> bool
    ensures after { places.new ≡ settled stamp places.old held }
    ensures index { KeepsBut result (I.Index.slots index.old) places.old (I.Index.slots index.new) places.new }
{
    let Some(draft) = held.draft else {
        return false;
    };
    let replaced = turn_at(index, places, held.current, PlaceEvent::Commit { stamp });
    let written = turn(index, places, draft, PlaceEvent::Commit { stamp });
    replaced | written
}

// Takes the step for each key that the row holds; a key that has lost its number by one of them gets another.
fn each_held<I: Index, F: Fn(&mut I, &mut [Place<I::Key>], HeldKey) -> bool>(
    index: &mut I,
    places: &mut [Place<I::Key>],
    row: Row,
    step: F,
)
    requires callable { F.IsAlwaysCallable step }
    ensures after { (run : List (Place I.Key) → HeldKey → List (Place I.Key)) → Makes (F.post step) run → places.new ≡ fold run places.old (entries_of row) }
    ensures index { KeepsEach (F.post step) I.Index.slots → Keeps (I.Index.slots index.old) places.old (I.Index.slots index.new) places.new }
{
    let mut lost = false;
    for held in row.in_use() {
        lost |= step(index, places, *held);
    }
    relist(index, places, lost);
}

// Settles each key that the row holds.
fn settle_row<I: Index>(index: &mut I, places: &mut [Place<I::Key>], row: Row, stamp: u32)
    ensures after { places.new ≡ fold (settled stamp) places.old (entries_of row) }
    ensures index { Keeps (I.Index.slots index.old) places.old (I.Index.slots index.new) places.new }
{
    each_held(
        index,
        places,
        row,
        |index, places, held| settle(index, places, held, stamp),
    );
}

// Frees each draft of the row.
fn undo_row<I: Index>(index: &mut I, places: &mut [Place<I::Key>], row: Row)
    ensures after { places.new ≡ fold undone places.old (entries_of row) }
    ensures index { Keeps (I.Index.slots index.old) places.old (I.Index.slots index.new) places.new }
{
    each_held(index, places, row, |index, places, held| {
        turn_at(index, places, held.draft, PlaceEvent::Abort)
    });
}

impl<I: Index> Store<I> {
    // Commits the job: one is added to the stamp, which is answered.
    pub fn commit(&mut self, job: TicketId) -> Result<u32, Refusal>
        ensures answer { told code result ≡ checked (commit_checks (view self.old.table) job) (self.old.table.stamp + 1) }
        ensures after { view self.new.table ≡ if_granted result (committed (view self.old.table) job) (view self.old.table) }
        ensures unchanged { OnErr result (self.new.index ≡ self.old.index) }
    {
        let row = self.table.job(job)?;
        if self.table.stamp >= LAST_STAMP {
            return Err(Refusal::OutOfStamps);
        }
        let stamp = self.table.stamp + 1;
        self.table.stamp = stamp;
        let _ = self.table.jobs.take(job.number);
        settle_row(&mut self.index, &mut self.table.places, row, stamp);
        Ok(stamp)
    }

    // Aborts the job: its drafts go.
    pub fn abort(&mut self, job: TicketId) -> Result<(), Refusal>
        ensures answer { told code result ≡ checked (abort_checks (view self.old.table) job) tt }
        ensures after { view self.new.table ≡ if_granted result (aborted (view self.old.table) job) (view self.old.table) }
        ensures unchanged { OnErr result (self.new.index ≡ self.old.index) }
    {
        let row = self.table.job(job)?;
        let _ = self.table.jobs.take(job.number);
        undo_row(&mut self.index, &mut self.table.places, row);
        Ok(())
    }
}
