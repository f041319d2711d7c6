// Values that have a text: the value that a text stands for, and the refusal of every other text.
// Of every kind, a text reads as a value just where it is the value's own text.
ghost use Rattle.keys.specs.Refusals.{plain, told};
ghost use Rattle.std.specs.Option.{ok_or};
ghost use Rattle.std.specs.Prelude.{◌≡◌, ℕ, List, Option, IfOk, Ok};
ghost use Rattle.text.specs.Own.{Own};
ghost use Rattle.text.specs.Refusals.{code};

use crate::refusal::TextRefusal;

// A trait of its own and no TryFrom, which could not be given to the keys, and would not tie what is read to what is written.
pub trait FromText: Copy {
    // the text of a value
    ghost text: { Self → List ℕ };

    // the ranges of a value's numbers, which every value of a program keeps
    ghost Fits: { Self → Type 0 };

    // the value that a text stands for
    ghost value: { List ℕ → Option Self };

    // The value that a text stands for, or none.
    fn from_text(s: &[u8]) -> Option<Self>
        ensures answer { result ≡ value s.now }
        ensures own { Own value text Fits };

    // The value that a text stands for, or the refusal.
    final fn read(s: &[u8]) -> Result<Self, TextRefusal>
        ensures answer { told code result ≡ ok_or (value s.now) (plain 12) }
        ensures own_text { IfOk result (λ v. text v ≡ s.now) }
        ensures reads_back { (v : Self) → Fits v → text v ≡ s.now → result ≡ Ok v }
    {
        Self::from_text(s).ok_or(TextRefusal::Malformed)
    }
}
