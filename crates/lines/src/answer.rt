// Answers of a fault book as lines.
// A ticket shows its running number alone, since the console has one store.
ghost use Rattle.lines.specs.Answers.{answer_text};

use crate::refusal::RefusalLine;
use keys::CodeKey;
use ledger::{Answer, Granted};
use page::{OpenLine, PageRefusal, Piece};
use text::FaultRecord;

// An answer that is to be written as a line: a type of this crate, since a trait and a type of other crates cannot be given an impl here.
#[derive(Clone, Copy)]
pub struct AnswerLine(pub Answer<CodeKey, FaultRecord>);

impl Piece for AnswerLine {
    ghost text = { λ line. answer_text line.0 };

    fn put(self, line: &mut OpenLine) -> Result<(), PageRefusal> {
        match self.0 {
            Ok(Granted::Report { ticket, stamp }) => (*b"R", (ticket.number, stamp)).put(line),
            Ok(Granted::Job { ticket }) => (*b"J", ticket.number).put(line),
            Ok(Granted::Record(None)) => (*b"none").put(line),
            Ok(Granted::Record(Some(fault))) => (*b"rec", fault).put(line),
            Ok(Granted::Next(None)) => (*b"none").put(line),
            Ok(Granted::Next(Some(key))) => (*b"N", key).put(line),
            Ok(Granted::Done) => (*b"ok").put(line),
            Ok(Granted::Stamp(stamp)) => (*b"C", stamp).put(line),
            Ok(Granted::Aged { looked, freed }) => (*b"S", (looked, freed)).put(line),
            Err(refusal) => RefusalLine(refusal).put(line),
        }
    }
}
