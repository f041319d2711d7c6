// The calls of a store, what it answers and refuses, what a place can hold, and the law of every run of calls.
// Stands on the key kinds; the store's code and the console's lines use these very types.
#![tactic(auto)]

mod answer;
mod call;
mod law;
mod limits;
mod place;

pub use answer::{Answer, Granted, Refusal};
pub use call::{BasicCall, Call, TicketId};
pub use law::{law_of_runs, worked_examples};
pub use limits::{LAST_STAMP, LAST_TICKET, MAX_JOBS, MAX_REPORTS, ROW_ENTRIES};
pub use place::{Place, PlaceEvent, PlaceState, Report};
