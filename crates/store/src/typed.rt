// Beginning and ending with typed tickets: a ticket that was given out is ended, and is used no more once it was.
// Each function is under the law of runs like the plain call that it makes; R is the kind of the records on the store's shelf.
ghost use Rattle.ledger.specs.declared.answer.Granted.TheVariants.{Done, Job, Report, Stamp};
ghost use Rattle.ledger.specs.declared.call.BasicCall.TheVariants.{Abort, BeginJob, BeginReport, Commit, End};
ghost use Rattle.ledger.specs.declared.call.Call.TheVariants.{Basic};
ghost use Rattle.bridge.specs.Answers.{answer_of};
ghost use Rattle.store.specs.Law.{LeadsOn, no_shelf};
ghost use Rattle.store.specs.Tickets.{but_for_ticket, GivesBack};

use crate::tickets::{GivenBack, JobTicket, OfJob, OfReport, ReportTicket, Ticket};
use engine::Store;
use index::Index;
use ledger::Refusal;

// Begins a report: its ticket, and the stamp that it sees.
pub fn begin_report<I: Index, R>(store: &mut Store<I>) -> Result<(ReportTicket, u32), Refusal>
    ensures law { LeadsOn (Basic BeginReport) (answer_of (λ p. Report p.0.id p.1) result) store.old store.new (no_shelf R) (no_shelf R) }
{
    let (id, stamp) = store.begin_report()?;
    Ok((Ticket::issue(id), stamp))
}

// Ends the report; refused, it gives the ticket back.
pub fn end_report<I: Index, R>(
    store: &mut Store<I>,
    ticket: ReportTicket,
) -> Result<(), GivenBack<OfReport>>
    ensures law { LeadsOn (Basic (End ticket.id)) (answer_of (λ u. Done) (but_for_ticket result)) store.old store.new (no_shelf R) (no_shelf R) }
    ensures back { GivesBack ticket result }
{
    let ended = store.end(ticket.id());
    ticket.settle(ended)
}

// Begins a job.
pub fn begin_job<I: Index, R>(store: &mut Store<I>) -> Result<JobTicket, Refusal>
    ensures law { LeadsOn (Basic BeginJob) (answer_of (λ t. Job t.id) result) store.old store.new (no_shelf R) (no_shelf R) }
{
    Ok(Ticket::issue(store.begin_job()?))
}

// Commits the job; refused, it gives the ticket back.
pub fn commit_job<I: Index, R>(
    store: &mut Store<I>,
    ticket: JobTicket,
) -> Result<u32, GivenBack<OfJob>>
    ensures law { LeadsOn (Basic (Commit ticket.id)) (answer_of (λ s. Stamp s) (but_for_ticket result)) store.old store.new (no_shelf R) (no_shelf R) }
    ensures back { GivesBack ticket result }
{
    let ended = store.commit(ticket.id());
    ticket.settle(ended)
}

// Aborts the job; refused, it gives the ticket back.
pub fn abort_job<I: Index, R>(
    store: &mut Store<I>,
    ticket: JobTicket,
) -> Result<(), GivenBack<OfJob>>
    ensures law { LeadsOn (Basic (Abort ticket.id)) (answer_of (λ u. Done) (but_for_ticket result)) store.old store.new (no_shelf R) (no_shelf R) }
    ensures back { GivesBack ticket result }
{
    let ended = store.abort(ticket.id());
    ticket.settle(ended)
}
