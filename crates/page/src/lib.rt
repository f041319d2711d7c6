// The page: bytes of the caller's, filled line by line, each line whole or not at all.
// Stands on the texts of keys and records. Which lines there are is the business of the crates above.
#![tactic(auto)]

mod line;
mod number;
mod page;
mod piece;
mod refusal;
mod value;

pub use line::OpenLine;
pub use page::{Mark, Page};
pub use piece::{Piece, Then};
pub use refusal::PageRefusal;
