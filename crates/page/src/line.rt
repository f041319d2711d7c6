// A line at the mark, under a guard: written whole, or the mark goes back to the line's start on every way out.
// Relies on pieces alone for what the line says, and on no bound: where a text does not fit, or the mark lies past the bytes, it is refused.
ghost use Rattle.keys.specs.Refusals.{told};
ghost use Rattle.page.specs.Pages.{Grown, SameGuard, Wrote, fit_answer, fitted, page_of};
ghost use Rattle.page.specs.Refusals.{code};
ghost use Rattle.page.specs.Texts.{ended};
ghost use Rattle.std.specs.Option.{unwrap_or};
ghost use Rattle.std.specs.Prelude.{◌≡◌, ◌+◌, None, if◌then◌else◌, length, nat_le};

use crate::page::{Mark, Page};
use crate::piece::{Piece, Then};
use crate::refusal::PageRefusal;

// A line that is being written, over the bytes and the mark of its page. When it is let go, the mark goes back to the line's start, unless the line was completed.
pub struct OpenLine<'a> {
    bytes: &'a mut [u8],
    mark: &'a mut Mark,
    // where the mark goes back to; none once the line is complete, or where whoever made it minds the mark
    back: Option<Mark>,
}

impl Drop for OpenLine<'_> {
    fn drop(self)
        ensures mark { self.exit.1.0.now ≡ unwrap_or self.entry.back self.entry.mark.now }
        ensures bytes { self.exit.0.now ≡ self.entry.bytes.now }
    {
        let OpenLine {
            bytes: _,
            mark,
            back,
        } = self;
        if let Some(start) = back {
            *mark = start;
        }
    }
}

impl<'a> OpenLine<'a> {
    // A line over any bytes and mark, with nowhere for the mark to go back to: for whoever puts pieces and minds the mark himself.
    pub fn over(bytes: &'a mut [u8], mark: &'a mut Mark) -> OpenLine<'a>
        ensures bytes { result.bytes.now ≡ bytes.old }
        ensures mark { result.mark.now ≡ mark.old }
        ensures back { result.back ≡ None }
        ensures memory { (result.bytes.ghost_name ≡ bytes.entry.ghost_name) × (result.mark.ghost_name ≡ mark.entry.ghost_name) }
    {
        OpenLine {
            bytes,
            mark,
            back: None,
        }
    }
}

impl OpenLine<'_> {
    // Where so many bytes at the mark would end; none where they do not fit.
    fn end_of(&self, size: usize) -> Option<usize>
        ensures answer { result ≡ (if nat_le (self.now.mark.now.at + size) (length self.now.bytes.now) then Some (self.now.mark.now.at + size) else None) }
    {
        self.mark
            .at
            .checked_add(size)
            .filter(|end| *end <= self.bytes.len())
    }

    // Puts bytes at the mark and moves the mark behind them: for pieces of other crates too, whose text no array holds.
    #[tactic(auto, using(std::proofs::lemmas::Slice::overwrites), unfolding(crate::specs::Pages::Wrote))]
    pub fn put_bytes(&mut self, text: &[u8]) -> Result<(), PageRefusal>
        ensures wrote { Wrote (page_of self.old) text.now (page_of self.new) result }
        ensures guard { SameGuard self.old self.new }
    {
        let end = self.end_of(text.len()).ok_or(PageRefusal::DoesNotFit)?;
        self.bytes[self.mark.at..end].copy_from_slice(text);
        self.mark.at = end;
        Ok(())
    }
}

impl Page<'_> {
    // Writes a line, whole or not at all.
    #[tactic(auto, using(std::proofs::lemmas::Bool::Decides::nat_tests, std::proofs::lemmas::Result::err_from_is_err_and), unfolding(crate::specs::Pages::Wrote))]
    pub fn write_line<P: Piece>(&mut self, piece: P) -> Result<(), PageRefusal>
        ensures answer { told code result ≡ fit_answer self.old (ended (P.Piece.text piece)) }
        ensures after { Grown self.old (fitted self.old (ended (P.Piece.text piece))) self.new }
    {
        let start = self.mark;
        // the mark first: borrowed after the bytes, it is not known what the guard leaves of it
        let mark = &mut self.mark;
        let mut line = OpenLine {
            bytes: &mut *self.bytes,
            mark,
            back: Some(start),
        };
        Then(piece, *b"\n").put(&mut line)?;
        line.back = None;
        Ok(())
    }
}
