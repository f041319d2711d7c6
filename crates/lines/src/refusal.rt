// Refusals as lines: `no`, the number, and the value of the one that has a value.
// The number and the value are those that the reason tells, whoever refuses.
ghost use Rattle.lines.specs.Answers.{refusal_text};

use keys::Reason;
use page::{OpenLine, PageRefusal, Piece};

// A refusal that is to be written as a line.
#[derive(Clone, Copy)]
pub struct RefusalLine<E>(pub E);

impl<E: Reason> Piece for RefusalLine<E> {
    ghost text = { λ line. refusal_text (E.code line.0) };

    fn put(self, line: &mut OpenLine) -> Result<(), PageRefusal> {
        let RefusalLine(reason) = self;
        let number = reason.number();
        match reason.value() {
            None => (*b"no", number).put(line),
            Some(value) => (*b"no", (number, value)).put(line),
        }
    }
}
