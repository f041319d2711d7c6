// An input cut into its lines, one after the other.
// Relies on nothing of the input: any bytes have lines, and the lines give the bytes again.
ghost use Rattle.std.specs.Prelude.{◌≡◌, ℕ, ◌<◌, List, ◌∷◌, length};
ghost use Rattle.lines.specs.Inputs.{LinesOf, TakesLine, input_lines};
ghost use Rattle.std.specs.Option.{option_map};
ghost use Rattle.std.specs.Iterator.{at_most};

use text::split_at_byte;

// The lines of an input that are still to come. A type of its own and not the library's split_inclusive, whose type holds a closure and whose parts end in their byte 10.
#[derive(Clone, Copy)]
pub struct InputLines<'a> {
    rest: &'a [u8],
}

impl<'a> InputLines<'a> {
    // All lines of an input.
    pub fn new(input: &'a [u8]) -> InputLines<'a>
        ensures lines { input_lines result.rest.now ≡ input_lines input.now }
        ensures joined { LinesOf input.now (input_lines input.now) }
        ensures only { (lines : List (List ℕ)) → LinesOf input.now lines → lines ≡ input_lines input.now }
    {
        InputLines { rest: input }
    }
}

impl<'a> Iterator for InputLines<'a> {
    type Item = &'a [u8];

    ghost next_gives = { λ before line after. TakesLine (input_lines before.rest.now) (option_map (λ x. x.now) line) (input_lines after.rest.now) };

    ghost remaining = { λ lines. at_most (length lines.rest.now) };

    #[tactic(auto, using(crate::proofs::Splitting::no_lines))]
    fn next(&mut self) -> Option<&'a [u8]> {
        if self.rest.is_empty() {
            return None;
        }
        let (line, rest) = split_line(self.rest);
        self.rest = rest;
        Some(line)
    }
}

// The first line, and what stands behind it and its end.
#[tactic(auto, using(crate::proofs::Splitting::first_line, crate::proofs::Splitting::less_left))]
fn split_line(s: &[u8]) -> (&[u8], &[u8])
    ensures lines { 0 < length s.now → input_lines s.now ≡ result.0.now ∷ input_lines result.1.now }
    ensures shorter { 0 < length s.now → length result.1.now < length s.now }
{
    split_at_byte(s, b'\n')
}
