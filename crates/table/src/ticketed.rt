// What is listed under a running number: an open report, or the row of an open job.
ghost use Rattle.std.specs.Prelude.{◌≡◌, ℕ};

use crate::row::Row;
use ledger::Report;

pub trait Ticketed: Copy {
    // the running number of its ticket
    ghost number: { Self → ℕ };

    fn ticket(self) -> u32
        ensures answer { result ≡ number self };
}

impl Ticketed for Report {
    ghost number = { λ r. r.ticket };

    fn ticket(self) -> u32 {
        self.ticket
    }
}

impl Ticketed for Row {
    ghost number = { λ r. r.ticket };

    fn ticket(self) -> u32 {
        self.ticket
    }
}
