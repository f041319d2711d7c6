// The place of a job's draft at a key: the one that it has, or a new one, for which ageing makes room.
ghost use Rattle.engine.specs.Calls.{Unchanged};
ghost use Rattle.keys.specs.Refusals.{plain, told};
ghost use Rattle.ledger.specs.Refusals.{code};
ghost use Rattle.ledger.specs.Steps.{all_wanted};
ghost use Rattle.ledger.specs.Words.{when};
ghost use Rattle.std.specs.Prelude.{◌≡◌, not, ◌&&◌, [], ◌∷◌, is_some};
ghost use Rattle.table.specs.Ageing.{ready};
ghost use Rattle.table.specs.Checks.{Outcome};
ghost use Rattle.table.specs.Drafts.{Placed, Room};
ghost use Rattle.table.specs.Holds.{draft_at, entry_at};
ghost use Rattle.table.specs.Rows.{is_row_full};
ghost use Rattle.table.specs.Views.{view, with_places};

use crate::age::age_places;
use crate::store::Store;
use index::Index;
use ledger::Refusal;
use table::{HeldKey, Row, find_current, find_free, find_unwanted};

impl<I: Index> Store<I> {
    // A free place; where there is none, all superseded versions are aged first.
    fn free_place(&mut self) -> Result<usize, Refusal>
        ensures answer { Outcome (when (all_wanted (view self.old.table).reports (view self.old.table).places) (plain 10) ∷ []) (λ n. Room (view self.old.table) n × (view self.new.table ≡ with_places (view self.old.table) (ready (view self.old.table)))) (Unchanged self.old self.new) (told code result) }
    {
        if let Some(n) = find_free(&self.table.places) {
            return Ok(n);
        }
        let Some(n) = find_unwanted(&self.table.places, &self.table.reports.items) else {
            return Err(Refusal::StoreFull);
        };
        age_places(
            &mut self.index,
            &mut self.table.places,
            &self.table.reports.items,
            None,
        );
        Ok(n)
    }

    // The place of the draft at the key of the row's job. A new one is noted in the row.
    pub(crate) fn draft_place(&mut self, row: Row, key: I::Key) -> Result<usize, Refusal>
        ensures answer { Outcome (when (not (is_some (entry_at I.Key.Key.order (view self.old.table).places key row)) && is_row_full row) (plain 9) ∷ when (not (is_some (draft_at I.Key.Key.order (view self.old.table).places key row)) && all_wanted (view self.old.table).reports (view self.old.table).places) (plain 10) ∷ []) (Placed I.Key.Key.order (view self.old.table) (view self.new.table) row key) (Unchanged self.old self.new) (told code result) }
    {
        if let Some(n) = row.draft_for(&self.table.places, key) {
            return Ok(n);
        }
        let entry = row.entry_for(&self.table.places, key);
        row.check_room(entry)?;
        let current = find_current(&self.table.places, key);
        let n = self.free_place()?;
        self.table.note(
            row,
            entry,
            HeldKey {
                draft: Some(n),
                current,
            },
        );
        Ok(n)
    }
}
