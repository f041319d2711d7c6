// Writing and removing: a job's draft at a key, which others see once the job is committed.
ghost use Rattle.engine.specs.Calls.{Unchanged};
ghost use Rattle.keys.specs.Refusals.{told};
ghost use Rattle.ledger.specs.Refusals.{code};
ghost use Rattle.table.specs.Checks.{Outcome};
ghost use Rattle.table.specs.Drafts.{Puts, Removes, put_checks, remove_checks, turned};
ghost use Rattle.table.specs.Views.{view, with_places};
ghost use Rattle.std.specs.Prelude.{◌≡◌, length};

use crate::store::Store;
use crate::turn::{relist, turn};
use crate::write::write;
use index::Index;
use ledger::{PlaceEvent, Refusal, TicketId};

impl<I: Index> Store<I> {
    // What the event makes of the place; where its key has lost its number, every key is listed again.
    fn turn_listed(&mut self, n: usize, event: PlaceEvent<I::Key>)
        ensures after { view self.new.table ≡ with_places (view self.old.table) (turned event n (view self.old.table).places) }
    {
        let lost = turn(&mut self.index, &mut self.table.places, n, event);
        relist(&mut self.index, &self.table.places, lost);
    }

    // Makes the record the job's draft at the key.
    pub fn put<R: Copy>(
        &mut self,
        shelf: &mut [R],
        job: TicketId,
        key: I::Key,
        item: R,
    ) -> Result<(), Refusal>
        ensures answer { Outcome (put_checks I.Key.Key.order (view self.old.table) (length shelf.old) job key) (λ _. Puts I.Key.Key.order (view self.old.table) (view self.new.table) shelf.old shelf.new job key item) (Unchanged self.old self.new × (shelf.new ≡ shelf.old)) (told code result) }
    {
        let row = self.table.job(job)?;
        self.table.check_shelf(shelf.len())?;
        self.table.check_holder(job, key)?;
        let n = self.draft_place(row, key)?;
        self.turn_listed(
            n,
            PlaceEvent::Put {
                key,
                job: job.number,
            },
        );
        write(shelf, n, item);
        Ok(())
    }

    // Marks the key removed, as the job's draft.
    pub fn remove(&mut self, job: TicketId, key: I::Key) -> Result<(), Refusal>
        ensures answer { Outcome (remove_checks I.Key.Key.order (view self.old.table) job key) (λ _. Removes I.Key.Key.order (view self.old.table) (view self.new.table) job key) (Unchanged self.old self.new) (told code result) }
    {
        let row = self.table.job(job)?;
        self.table.check_holder(job, key)?;
        self.table.check_there(row, key)?;
        let n = self.draft_place(row, key)?;
        self.turn_listed(
            n,
            PlaceEvent::Remove {
                key,
                job: job.number,
            },
        );
        Ok(())
    }
}
