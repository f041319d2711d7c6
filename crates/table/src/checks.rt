// The checks that several calls make: ticket, shelf and holder of a key. Each answers its refusal, or what it found.
ghost use Rattle.keys.specs.Refusals.{plain, told};
ghost use Rattle.ledger.specs.Refusals.{code};
ghost use Rattle.std.specs.Option.{ok_or};
ghost use Rattle.table.specs.Checks.{not_held, shelf_fits, unless};
ghost use Rattle.table.specs.Lists.{with_ticket};
ghost use Rattle.table.specs.Views.{of_store, open_job, open_report, view};
ghost use Rattle.std.specs.Prelude.{◌≡◌};

use crate::hold::other_holder;
use crate::open_list::OpenList;
use crate::row::Row;
use crate::table::Table;
use crate::ticketed::Ticketed;
use keys::Key;
use ledger::{Refusal, Report, TicketId};

impl<K: Key> Table<K> {
    // What the list has under the ticket's running number, if the ticket is one of this store.
    fn listed<T: Ticketed, const LIMIT: usize>(
        &self,
        list: &OpenList<T, LIMIT>,
        ticket: TicketId,
    ) -> Result<T, Refusal>
        ensures answer { told code result ≡ ok_or (of_store (view self.now) ticket (with_ticket T.Ticketed.number ticket.number list.now.items.items)) (plain 4) }
    {
        if ticket.store != self.store {
            return Err(Refusal::NotOpen);
        }
        list.find(ticket.number).ok_or(Refusal::NotOpen)
    }

    // The open report with the ticket.
    pub fn report(&self, ticket: TicketId) -> Result<Report, Refusal>
        ensures answer { told code result ≡ ok_or (open_report (view self.now) ticket) (plain 4) }
    {
        self.listed(&self.reports, ticket)
    }

    // The row of the open job with the ticket.
    pub fn job(&self, ticket: TicketId) -> Result<Row, Refusal>
        ensures answer { told code result ≡ ok_or (open_job (view self.now) ticket) (plain 4) }
    {
        self.listed(&self.jobs, ticket)
    }

    // Refuses a shelf of another length than the count of places.
    pub fn check_shelf(&self, len: usize) -> Result<(), Refusal>
        ensures answer { told code result ≡ unless (shelf_fits (view self.now) len) tt }
    {
        if len != self.places.len() {
            return Err(Refusal::WrongShelf);
        }
        Ok(())
    }

    // Refuses a key that another open job than that of the ticket holds.
    pub fn check_holder(&self, ticket: TicketId, key: K) -> Result<(), Refusal>
        ensures answer { told code result ≡ unless (not_held K.Key.order (view self.now) ticket key) tt }
    {
        if let Some(ticket) = other_holder(&self.places, &self.jobs.items, ticket.number, key) {
            return Err(Refusal::Held { ticket });
        }
        Ok(())
    }
}
