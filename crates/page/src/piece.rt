// Pieces: whatever has a text and can put it onto a line.
// A line is one piece, made of smaller ones: bytes, numbers (in number.rt), and fields parted by one space.
ghost use Rattle.std.specs.Prelude.{ℕ, List, ◌++◌};
ghost use Rattle.page.specs.Pages.{SameGuard, Wrote, page_of};
ghost use Rattle.page.specs.Texts.{spaced};

use crate::line::OpenLine;
use crate::refusal::PageRefusal;

// A trait of its own and not the library's formatting and writing: these promise nothing where they fail, and a line is refused just where it does not fit.
pub trait Piece: Copy {
    // the bytes that stand for the value
    ghost text: { Self → List ℕ };

    // Puts the text at the mark. Where it does not fit, some of it may stand there: the guard of the line takes the mark back.
    fn put(self, line: &mut OpenLine) -> Result<(), PageRefusal>
        ensures wrote { Wrote (page_of line.old) (text self) (page_of line.new) result }
        ensures guard { SameGuard line.old line.new };
}

// Bytes as they are.
impl<const N: usize> Piece for [u8; N] {
    ghost text = { λ bytes. bytes };

    fn put(self, line: &mut OpenLine) -> Result<(), PageRefusal> {
        line.put_bytes(&self)
    }
}

// One piece right behind another.
#[derive(Clone, Copy)]
pub struct Then<P, Q>(pub P, pub Q);

impl<P: Piece, Q: Piece> Piece for Then<P, Q> {
    ghost text = { λ both. P.Piece.text both.0 ++ Q.Piece.text both.1 };

    #[tactic(auto, using(crate::proofs::Writing::wrote_then, crate::proofs::Writing::wrote_stop, std::proofs::lemmas::Result::err_from_is_err_and))]
    fn put(self, line: &mut OpenLine) -> Result<(), PageRefusal> {
        self.0.put(line)?;
        self.1.put(line)
    }
}

// Two fields, parted by one space; the second may be two fields again.
impl<P: Piece, Q: Piece> Piece for (P, Q) {
    ghost text = { λ fields. spaced (P.Piece.text fields.0) (Q.Piece.text fields.1) };

    fn put(self, line: &mut OpenLine) -> Result<(), PageRefusal> {
        let (first, rest) = self;
        Then(first, Then(*b" ", rest)).put(line)
    }
}
