// Tickets of open reports and jobs, for programs: plain numbers that nobody else can make, copy or let go.
// A ticket may be dropped only where its number is 0, which no open ticket has; ending the report or the job takes it apart.
ghost use Rattle.store.specs.Tickets.{back};
ghost use Rattle.std.specs.Prelude.{◌≡◌};

use ledger::{Refusal, TicketId};
use std::marker::PhantomData;

// What the ticket of a report is of.
pub struct OfReport;

// What the ticket of a job is of.
pub struct OfJob;

// The ticket of an open report or job.
pub struct Ticket<Kind> {
    id: TicketId,
    kind: PhantomData<Kind>,
}

pub type ReportTicket = Ticket<OfReport>;

pub type JobTicket = Ticket<OfJob>;

// A refusal to end, commit or abort, which gives the ticket back.
#[derive(Drop)]
pub struct GivenBack<Kind> {
    pub why: Refusal,
    pub ticket: Ticket<Kind>,
}

impl<Kind> Drop for Ticket<Kind> {
    // The number 0 is the mark of a spent ticket: by a rule of the project any other ticket may not be let go.
    fn drop(self)
        requires { self.id.number ≡ 0 }
    {
        let Ticket { id: _, kind: _ } = self;
    }
}

impl<Kind> Ticket<Kind> {
    // The pair of store number and running number that the plain calls take.
    pub fn id(&self) -> TicketId
        ensures answer { result ≡ self.now.id }
    {
        self.id
    }

    // The ticket of a report or job that has begun.
    pub(crate) fn issue(id: TicketId) -> Ticket<Kind>
        ensures answer { result.id ≡ id }
    {
        Ticket {
            id,
            kind: PhantomData,
        }
    }

    // The report or job is over, or the ticket is given back. A match and no `map_err`: the ticket is spent or handed on.
    pub(crate) fn settle<A>(self, ended: Result<A, Refusal>) -> Result<A, GivenBack<Kind>>
        ensures answer { result ≡ back self ended }
    {
        match ended {
            Ok(answer) => {
                let Ticket { id: _, kind: _ } = self;
                Ok(answer)
            }
            Err(why) => Err(GivenBack { why, ticket: self }),
        }
    }
}
