// The store: an index over the plain inner table, opening and every call, each proved against what it does on the table,
// and the index kept in agreement with the places. Stands on no index in particular.
#![tactic(auto)]

mod age;
mod calls;
mod commit;
mod draft;
mod open;
mod put;
mod refusal;
mod store;
mod turn;
mod walk;
mod write;

pub use open::{MAX_PLACES, Opening};
pub use refusal::{OpenError, OpenRefusal};
pub use store::Store;
