// Which job holds a key: the entry for it in a row, and the row of another job that has one.
// Places and key go along as two arguments: nothing ties them, and a struct of both would be made anew for each call.
ghost use Rattle.table.specs.Holds.{draft_at, entry_at, holds_key, other_holder, row_holds};
ghost use Rattle.std.specs.Prelude.{◌≡◌};

use crate::find::place_at;
use crate::row::{HeldKey, Row};
use keys::Key;
use ledger::Place;

impl HeldKey {
    // Whether it is the key that the entry's place carries.
    fn holds<K: Key>(self, places: &[Place<K>], key: K) -> bool
        ensures answer { result ≡ holds_key K.Key.order places.now key self }
    {
        self.place()
            .is_some_and(|n| place_at(places, n).carries(key))
    }
}

impl Row {
    // The position of the entry for the key.
    #[tactic(auto, unfolding(crate::specs::Lists::position))]
    pub fn entry_for<K: Key>(&self, places: &[Place<K>], key: K) -> Option<usize>
        ensures answer { result ≡ entry_at K.Key.order places.now key self.now }
    {
        self.in_use()
            .iter()
            .position(|entry| entry.holds(places, key))
    }

    // Whether the job holds the key.
    pub fn holds<K: Key>(&self, places: &[Place<K>], key: K) -> bool
        ensures answer { result ≡ row_holds K.Key.order places.now key self.now }
    {
        self.in_use().iter().any(|entry| entry.holds(places, key))
    }

    // The place of the job's draft at the key.
    pub fn draft_for<K: Key>(&self, places: &[Place<K>], key: K) -> Option<usize>
        ensures answer { result ≡ draft_at K.Key.order places.now key self.now }
    {
        let at = self.entry_for(places, key)?;
        self.in_use().get(at)?.draft
    }
}

// The running number of an open job other than this one that holds the key.
pub fn other_holder<K: Key>(places: &[Place<K>], rows: &[Row], ticket: u32, key: K) -> Option<u32>
    ensures answer { result ≡ other_holder K.Key.order places.now key ticket rows.now }
{
    rows.iter()
        .find(|row| row.ticket != ticket && row.holds(places, key))
        .map(|row| row.ticket)
}
