// Numbers as pieces: in decimal, without leading zeros, and with a minus sign below zero.
ghost use Rattle.std.specs.Fmt.{signed_decimal};
ghost use Rattle.std.specs.Prelude.{decimal};
ghost use Rattle.page.specs.Pages.{SameGuard, Wrote, page_of};

use crate::line::OpenLine;
use crate::piece::{Piece, Then};
use crate::refusal::PageRefusal;

// One impl for each type: one for every type that turns into u64 would conflict with those for bytes, pairs and records.
impl Piece for u8 {
    ghost text = { decimal };

    fn put(self, line: &mut OpenLine) -> Result<(), PageRefusal> {
        u16::from(self).put(line)
    }
}

impl Piece for u16 {
    ghost text = { decimal };

    fn put(self, line: &mut OpenLine) -> Result<(), PageRefusal> {
        u32::from(self).put(line)
    }
}

impl Piece for u32 {
    ghost text = { decimal };

    fn put(self, line: &mut OpenLine) -> Result<(), PageRefusal> {
        u64::from(self).put(line)
    }
}

impl Piece for u64 {
    ghost text = { decimal };

    fn put(self, line: &mut OpenLine) -> Result<(), PageRefusal> {
        put_number(line, self)
    }
}

impl Piece for usize {
    ghost text = { decimal };

    fn put(self, line: &mut OpenLine) -> Result<(), PageRefusal> {
        (self as u64).put(line)
    }
}

impl Piece for i16 {
    ghost text = { signed_decimal };

    #[tactic(auto, using(crate::proofs::Writing::signed_below, crate::proofs::Writing::signed_from))]
    fn put(self, line: &mut OpenLine) -> Result<(), PageRefusal> {
        let size = self.unsigned_abs();
        if self < 0 {
            return Then(*b"-", size).put(line);
        }
        size.put(line)
    }
}

// The digits of a number, the first one first.
#[tactic(auto, using(std::proofs::lemmas::Fmt::decimal_digit, std::proofs::lemmas::Fmt::decimal_step, crate::proofs::Writing::wrote_then, crate::proofs::Writing::wrote_stop, std::proofs::lemmas::Result::err_from_is_err_and))]
fn put_number(line: &mut OpenLine, n: u64) -> Result<(), PageRefusal>
    ensures wrote { Wrote (page_of line.old) (decimal n) (page_of line.new) result }
    ensures guard { SameGuard line.old line.new }
{
    if n < 10 {
        return line.put_bytes(&[b'0' + n as u8]);
    }
    put_number(line, n / 10)?;
    line.put_bytes(&[b'0' + (n % 10) as u8])
}
