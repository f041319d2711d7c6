// Beginning reports and jobs, and ending reports.
ghost use Rattle.keys.specs.Refusals.{plain, told};
ghost use Rattle.ledger.specs.Refusals.{code};
ghost use Rattle.ledger.specs.Words.{when};
ghost use Rattle.table.specs.Begins.{begin_job_checks, begin_report_checks, job_opened, next_ticket, numbered, report_closed, report_opened};
ghost use Rattle.table.specs.Checks.{checked, number_left, report_open};
ghost use Rattle.table.specs.Views.{if_granted, view};
ghost use Rattle.std.specs.Prelude.{◌≡◌, [], ◌∷◌};

use crate::row::Row;
use crate::table::Table;
use keys::Key;
use ledger::{LAST_TICKET, Refusal, Report, TicketId};

impl<K: Key> Table<K> {
    // The next ticket, unless the list that it is for is full or the running numbers are used up.
    fn issue(&mut self, full: bool) -> Result<TicketId, Refusal>
        ensures answer { told code result ≡ checked (when full (plain 5) ∷ number_left (view self.old) ∷ []) (next_ticket (view self.old)) }
        ensures after { view self.new ≡ if_granted result (numbered (view self.old)) (view self.old) }
    {
        if full {
            return Err(Refusal::TooManyOpen);
        }
        if self.next > LAST_TICKET {
            return Err(Refusal::OutOfTickets);
        }
        let ticket = TicketId {
            store: self.store,
            number: self.next,
        };
        self.next += 1;
        Ok(ticket)
    }

    // The ticket of a new report, and the stamp that it sees.
    pub fn begin_report(&mut self) -> Result<(TicketId, u32), Refusal>
        ensures answer { told code result ≡ checked (begin_report_checks (view self.old)) (next_ticket (view self.old), (view self.old).stamp) }
        ensures after { view self.new ≡ if_granted result (report_opened (view self.old)) (view self.old) }
    {
        let full = self.reports.is_full();
        let ticket = self.issue(full)?;
        self.reports.add(Report {
            ticket: ticket.number,
            stamp: self.stamp,
        });
        Ok((ticket, self.stamp))
    }

    // The ticket of a new job, which holds no key.
    pub fn begin_job(&mut self) -> Result<TicketId, Refusal>
        ensures answer { told code result ≡ checked (begin_job_checks (view self.old)) (next_ticket (view self.old)) }
        ensures after { view self.new ≡ if_granted result (job_opened (view self.old)) (view self.old) }
    {
        let full = self.jobs.is_full();
        let ticket = self.issue(full)?;
        self.jobs.add(Row::new(ticket.number));
        Ok(ticket)
    }

    // Ends the report.
    pub fn end(&mut self, report: TicketId) -> Result<(), Refusal>
        ensures answer { told code result ≡ checked (report_open (view self.old) report ∷ []) tt }
        ensures after { view self.new ≡ if_granted result (report_closed (view self.old) report) (view self.old) }
    {
        self.report(report)?;
        let _ = self.reports.take(report.number);
        Ok(())
    }
}
