// What a store answers, and why it refuses.
ghost use Rattle.ledger.specs.Refusals.{code};

use crate::call::TicketId;
use keys::Reason;

// What a granted call answers.
#[derive(Clone, Copy, PartialEq, Eq, Debug)]
pub enum Granted<K, R> {
    // a report began: its ticket, and the stamp that it sees
    Report { ticket: TicketId, stamp: u32 },
    // a job began
    Job { ticket: TicketId },
    // what read or look found
    Record(Option<R>),
    // the key that walk came to
    Next(Option<K>),
    // put, remove, abort or end was done
    Done,
    // a commit, with the stamp that it gave
    Stamp(u32),
    // how many superseded versions age looked at, and how many of them it freed
    Aged { looked: usize, freed: usize },
}

// Why a call is refused.
#[derive(Clone, Copy, PartialEq, Eq, Debug)]
pub enum Refusal {
    // 3: the shelf's length is not the count of places
    WrongShelf,
    // 4: no open ticket of this store and of the kind that the call takes
    NotOpen,
    // 5: 16 reports, or 8 jobs, are open already
    TooManyOpen,
    // 6: the running numbers are used up
    OutOfTickets,
    // 7: another open job, with this ticket number, holds the key
    Held { ticket: u32 },
    // 8: there is nothing to remove
    NothingThere,
    // 9: the job holds 32 keys already
    RowFull,
    // 10: every place holds a wanted version
    StoreFull,
    // 11: the stamps are used up
    OutOfStamps,
}

// What a call answers: what it was granted, or why it was refused.
pub type Answer<K, R> = Result<Granted<K, R>, Refusal>;

impl Reason for Refusal {
    ghost code = { code };

    fn number(self) -> u8 {
        match self {
            Refusal::WrongShelf => 3,
            Refusal::NotOpen => 4,
            Refusal::TooManyOpen => 5,
            Refusal::OutOfTickets => 6,
            Refusal::Held { .. } => 7,
            Refusal::NothingThere => 8,
            Refusal::RowFull => 9,
            Refusal::StoreFull => 10,
            Refusal::OutOfStamps => 11,
        }
    }

    fn value(self) -> Option<u32> {
        match self {
            Refusal::Held { ticket } => Some(ticket),
            _ => None,
        }
    }
}
