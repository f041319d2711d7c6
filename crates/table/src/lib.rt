// The plain inner table of a store: places, open reports and the rows of open jobs.
// Stands on the key kinds and on the types of the ledger; knows nothing of the index, which the store keeps beside it.
#![tactic(auto)]

mod age;
mod begin;
mod checks;
mod entries;
mod find;
mod hold;
mod listing;
mod look;
mod make;
mod open_list;
mod read;
mod row;
mod table;
mod ticketed;

pub use age::{Aged, is_freed};
pub use find::{find_current, find_free, find_seen, find_unwanted, place_at};
pub use open_list::OpenList;
pub use row::{HeldKey, Row};
pub use table::Table;
pub use ticketed::Ticketed;
