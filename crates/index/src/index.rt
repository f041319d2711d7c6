// An index: a capacity, and a one-to-one map from keys to numbers below the capacity.
// Its meaning is a list of slots, for each number below the capacity the key that has it, or none.
// What makes an index sound, its links and counts for one, is an invariant of its type, so no promise has a premise.
ghost use Rattle.index.specs.Refusals.{add_code, discard_code};
ghost use Rattle.index.specs.Slots.{Apart, add_answer, added, discard_answer, discarded, number_of, count_of, empty};
ghost use Rattle.keys.specs.Refusals.{told};
ghost use Rattle.std.specs.Prelude.{◌≡◌, List, length, Option};

use crate::refusal::{AddRefusal, DiscardRefusal};
use keys::Key;

pub trait Index {
    type Key: Key;

    // for each number below the capacity the key that has it, or none
    ghost slots: { Self → List (Option Self.Key) };

    // A new index of the same capacity without a key, whatever keys this one has.
    fn emptied(self) -> Self
        ensures answer { slots result ≡ empty (length (slots self)) };

    fn capacity(&self) -> usize
        ensures answer { result ≡ length (slots self.now) };

    // How many keys have a number.
    fn count(&self) -> usize
        ensures answer { result ≡ count_of (slots self.now) };

    // The number of the key, or none.
    fn find(&self, key: Self::Key) -> Option<usize>
        ensures answer { result ≡ number_of Self.Key.Key.order (slots self.now) key }
        ensures apart { Apart (slots self.now) };

    // Gives the key the number.
    fn add(&mut self, key: Self::Key, number: usize) -> Result<(), AddRefusal>
        ensures answer { told add_code result ≡ add_answer Self.Key.Key.order (slots self.old) key number }
        ensures after { slots self.new ≡ added Self.Key.Key.order (slots self.old) key number };

    // Takes the number from its key. Any number at all may be given.
    fn discard(&mut self, number: usize) -> Result<(), DiscardRefusal>
        ensures answer { told discard_code result ≡ discard_answer (slots self.old) number }
        ensures after { slots self.new ≡ discarded (slots self.old) number };
}
