// What a job finds at a key, and the hold that a look takes.
// Row and key go along as two arguments: the row is the job's, as the check of its ticket found it, and the key is the caller's.
ghost use Rattle.keys.specs.Refusals.{plain, told};
ghost use Rattle.ledger.specs.Refusals.{code};
ghost use Rattle.ledger.specs.Words.{when};
ghost use Rattle.std.specs.Prelude.{◌≡◌, not, ◌&&◌, length, is_some};
ghost use Rattle.table.specs.Checks.{Outcome, is_unstamped, record_by, unless};
ghost use Rattle.table.specs.Holds.{draft_at, entry_at};
ghost use Rattle.table.specs.Reads.{Looks, Sees, held, look_checks};
ghost use Rattle.table.specs.Rows.{is_row_full, noted};
ghost use Rattle.table.specs.Views.{if_granted, view, with_row};

use crate::find::{find_current, place_at};
use crate::read::record_at;
use crate::row::{HeldKey, Row};
use crate::table::Table;
use keys::Key;
use ledger::{Place, PlaceState, Refusal, TicketId};

// Whether it is an unstamped record.
fn is_unstamped<K: Key>(place: Place<K>) -> bool
    ensures answer { result ≡ is_unstamped place.state }
{
    matches!(place.state, PlaceState::Unstamped { .. })
}

impl<K: Key> Table<K> {
    // The place of the record that the job finds at the key: its own record, none for its own mark, else the current version.
    // inlined, so that a look copies its row only once its ticket, shelf and key have passed
    #[inline(always)]
    pub fn sees(&self, row: Row, key: K) -> Option<usize>
        ensures answer { Sees K.Key.order self.now.places.items key (draft_at K.Key.order self.now.places.items key row) result }
    {
        match row.draft_for(&self.places, key) {
            Some(draft) => is_unstamped(place_at(&self.places, draft)).then_some(draft),
            None => find_current(&self.places, key),
        }
    }

    // Refuses a key at which the job would find no record.
    pub fn check_there(&self, row: Row, key: K) -> Result<(), Refusal>
        ensures answer { told code result ≡ unless (when (not (record_by K.Key.order self.now.places.items key (draft_at K.Key.order self.now.places.items key row))) (plain 8)) tt }
    {
        self.sees(row, key).ok_or(Refusal::NothingThere)?;
        Ok(())
    }

    // Notes the entry in the row, as one more or in the place of the one at the position.
    pub fn note(&mut self, row: Row, at: Option<usize>, entry: HeldKey)
        ensures after { view self.new ≡ with_row (view self.old) (noted at entry row) }
    {
        self.jobs.replace(row.noted(at, entry));
    }

    // Makes the job hold the key of the place that it found, by a new entry if it has none for it.
    fn hold(&mut self, row: Row, key: K, place: Option<usize>) -> Result<(), Refusal>
        ensures answer { told code result ≡ unless (when (not (is_some (entry_at K.Key.order self.old.places.items key row)) && is_row_full row && is_some place) (plain 9)) tt }
        ensures after { view self.new ≡ if_granted result (held (view self.old) row (entry_at K.Key.order self.old.places.items key row) place) (view self.old) }
    {
        if place.is_some() && row.entry_for(&self.places, key).is_none() {
            row.check_room(None)?;
            self.note(
                row,
                None,
                HeldKey {
                    draft: None,
                    current: place,
                },
            );
        }
        Ok(())
    }

    // The record that the job finds at the key; a current version that it finds it holds from now on.
    pub fn look<R: Copy>(
        &mut self,
        shelf: &[R],
        job: TicketId,
        key: K,
    ) -> Result<Option<R>, Refusal>
        ensures answer { Outcome (look_checks K.Key.order (view self.old) (length shelf.now) job key) (Looks K.Key.order (view self.old) (view self.new) shelf.now job key) (view self.new ≡ view self.old) (told code result) }
    {
        let row = self.job(job)?;
        self.check_shelf(shelf.len())?;
        self.check_holder(job, key)?;
        let place = self.sees(row, key);
        self.hold(row, key, place)?;
        Ok(record_at(shelf, place))
    }
}
