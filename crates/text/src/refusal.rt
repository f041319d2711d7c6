// Why a text is refused. There is one reason: it is not the text of any value in its range.
// It is told by its number, and has no value beside it.
ghost use Rattle.text.specs.Refusals.{code};

use keys::Reason;

#[derive(Clone, Copy, PartialEq, Eq, Debug)]
pub enum TextRefusal {
    // 12: a key or a record does not follow its form, or is outside its range
    Malformed,
}

impl Reason for TextRefusal {
    ghost code = { code };

    fn number(self) -> u8 {
        match self {
            TextRefusal::Malformed => 12,
        }
    }

    fn value(self) -> Option<u32> {
        None
    }
}
