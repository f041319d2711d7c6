// What a report reads and a job looks up. Neither touches the places.
ghost use Rattle.keys.specs.Refusals.{told};
ghost use Rattle.ledger.specs.Refusals.{code};
ghost use Rattle.table.specs.Checks.{Outcome};
ghost use Rattle.table.specs.Reads.{Reads, read_checks, record_at};
ghost use Rattle.table.specs.Views.{view};
ghost use Rattle.std.specs.Prelude.{◌≡◌, length};

use crate::find::find_seen;
use crate::table::Table;
use keys::Key;
use ledger::{Refusal, TicketId};

// The record of the place, if there is a place.
pub fn record_at<R: Copy>(shelf: &[R], place: Option<usize>) -> Option<R>
    ensures answer { result ≡ record_at shelf.now place }
{
    shelf.get(place?).copied()
}

impl<K: Key> Table<K> {
    // The record that the report sees at the key.
    pub fn read<R: Copy>(&self, shelf: &[R], report: TicketId, key: K) -> Result<Option<R>, Refusal>
        ensures answer { Outcome (read_checks (view self.now) (length shelf.now) report) (Reads K.Key.order (view self.now) shelf.now report key) (Unit {0}) (told code result) }
    {
        let open = self.report(report)?;
        self.check_shelf(shelf.len())?;
        Ok(record_at(shelf, find_seen(&self.places, open.stamp, key)))
    }
}
