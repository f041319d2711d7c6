// Why a page refuses a line. There is one reason, which is told by its number and has no value beside it.
ghost use Rattle.page.specs.Refusals.{code};

use keys::Reason;

#[derive(Clone, Copy, PartialEq, Eq, Debug)]
pub enum PageRefusal {
    // 13: a line does not fit whole
    DoesNotFit,
}

impl Reason for PageRefusal {
    ghost code = { code };

    fn number(self) -> u8 {
        match self {
            PageRefusal::DoesNotFit => 13,
        }
    }

    fn value(self) -> Option<u32> {
        None
    }
}
