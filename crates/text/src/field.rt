// A text cut in two at a byte: fields, each parted from the next by one space, are cut off so.
// Where the byte does not stand in the text, all of it stands before, and nothing behind.
ghost use Rattle.std.specs.List.{after_first, before_first, position};
ghost use Rattle.std.specs.Prelude.{◌≡◌, ◌==◌};
ghost use Rattle.text.specs.Fields.{first_field, later_fields};

// The place of the first such byte, or none.
fn find_byte(s: &[u8], byte: u8) -> Option<usize>
    ensures answer { result ≡ position (λ b. b == byte) s.now }
{
    s.iter().position(|b| *b == byte)
}

// What stands before the first such byte, and what stands behind it.
#[tactic(auto, using(std::proofs::lemmas::Slice::between_to_end))]
pub fn split_at_byte(s: &[u8], byte: u8) -> (&[u8], &[u8])
    ensures before { result.0.now ≡ before_first (λ b. b == byte) s.now }
    ensures behind { result.1.now ≡ after_first (λ b. b == byte) s.now }
{
    match find_byte(s, byte) {
        Some(end) => (&s[..end], &s[end + 1..]),
        None => (s, &[]),
    }
}

// The first field, and what stands behind it and its space.
#[tactic(auto, unfolding(crate::specs::Fields::first_field, crate::specs::Fields::later_fields))]
pub fn split_field(s: &[u8]) -> (&[u8], &[u8])
    ensures first { result.0.now ≡ first_field s.now }
    ensures rest { result.1.now ≡ later_fields s.now }
{
    split_at_byte(s, b' ')
}
