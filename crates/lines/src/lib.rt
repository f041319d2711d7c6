// The console's language: command lines, answer lines, and an input cut into its lines.
// Stands on the texts of keys and records, on the page, and on the answers of a store.
#![tactic(auto)]

mod answer;
mod command;
mod echo;
mod read;
mod refusal;
mod split;

pub use answer::AnswerLine;
pub use command::Command;
pub use echo::{MAX_INPUT, echo_input};
pub use refusal::RefusalLine;
pub use split::InputLines;
