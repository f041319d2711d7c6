// The calls that leave places and index alone: begin, end, read and look, passed on to the table.
ghost use Rattle.keys.specs.Refusals.{told};
ghost use Rattle.ledger.specs.Refusals.{code};
ghost use Rattle.table.specs.Begins.{begin_job_checks, begin_report_checks, job_opened, next_ticket, report_closed, report_opened};
ghost use Rattle.table.specs.Checks.{Outcome, checked, report_open};
ghost use Rattle.table.specs.Reads.{Looks, Reads, look_checks, read_checks};
ghost use Rattle.table.specs.Views.{if_granted, view};
ghost use Rattle.std.specs.Prelude.{◌≡◌, [], ◌∷◌, length};

use crate::store::Store;
use index::Index;
use ledger::{Refusal, TicketId};

impl<I: Index> Store<I> {
    // Begins a report: its ticket, and the store's stamp, which it sees from now on.
    pub fn begin_report(&mut self) -> Result<(TicketId, u32), Refusal>
        ensures answer { told code result ≡ checked (begin_report_checks (view self.old.table)) (next_ticket (view self.old.table), self.old.table.stamp) }
        ensures after { view self.new.table ≡ if_granted result (report_opened (view self.old.table)) (view self.old.table) }
        ensures index { self.new.index ≡ self.old.index }
    {
        self.table.begin_report()
    }

    // Begins a job, which holds no key.
    pub fn begin_job(&mut self) -> Result<TicketId, Refusal>
        ensures answer { told code result ≡ checked (begin_job_checks (view self.old.table)) (next_ticket (view self.old.table)) }
        ensures after { view self.new.table ≡ if_granted result (job_opened (view self.old.table)) (view self.old.table) }
        ensures index { self.new.index ≡ self.old.index }
    {
        self.table.begin_job()
    }

    // Ends the report.
    pub fn end(&mut self, report: TicketId) -> Result<(), Refusal>
        ensures answer { told code result ≡ checked (report_open (view self.old.table) report ∷ []) tt }
        ensures after { view self.new.table ≡ if_granted result (report_closed (view self.old.table) report) (view self.old.table) }
        ensures index { self.new.index ≡ self.old.index }
    {
        self.table.end(report)
    }

    // The record that the report sees at the key.
    pub fn read<R: Copy>(
        &self,
        shelf: &[R],
        report: TicketId,
        key: I::Key,
    ) -> Result<Option<R>, Refusal>
        ensures answer { Outcome (read_checks (view self.now.table) (length shelf.now) report) (Reads I.Key.Key.order (view self.now.table) shelf.now report key) (Unit {0}) (told code result) }
    {
        self.table.read(shelf, report, key)
    }

    // The record that the job finds at the key; a current version that it finds it holds from now on.
    pub fn look<R: Copy>(
        &mut self,
        shelf: &[R],
        job: TicketId,
        key: I::Key,
    ) -> Result<Option<R>, Refusal>
        ensures answer { Outcome (look_checks I.Key.Key.order (view self.old.table) (length shelf.now) job key) (Looks I.Key.Key.order (view self.old.table) (view self.new.table) shelf.now job key) (view self.new.table ≡ view self.old.table) (told code result) }
        ensures index { self.new.index ≡ self.old.index }
    {
        self.table.look(shelf, job, key)
    }
}
