// The public face of the store: opening, and every call as a value with its answer, under the law of runs.
// Stands on the engine, which is held to the table, and on the bridge from the table to the ledger.
#![tactic(auto)]

mod asking;
mod example;
mod opening;
mod ordered;
mod running;
mod tickets;
mod typed;

pub use asking::ask;
pub use example::{Failed, commit_twice, visit};
pub use opening::open;
pub use ordered::ask_ordered;
pub use running::run_calls;
pub use tickets::{GivenBack, JobTicket, OfJob, OfReport, ReportTicket, Ticket};
pub use typed::{abort_job, begin_job, begin_report, commit_job, end_report};
