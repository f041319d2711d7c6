// How places change: by one function, which keeps every number of the index right.
// A place that becomes free gives its number back. Where its key is carried by another place still, the key gets a
// new number from `relist`, once for all the places that a call frees, so that no call scans the places for each.
// Each works on index and places apart from the store, which promises at all times that the two agree.
// They are two parameters: a struct of two references would have to promise at each call that it still holds the same ones.
ghost use Rattle.engine.specs.Agreement.{Agree, AgreeBut, KeepsAt, KeepsBut, loses, told_of};
ghost use Rattle.ledger.specs.Places.{after};
ghost use Rattle.std.specs.Prelude.{◌≡◌, true};
ghost use Rattle.table.specs.Drafts.{turned};

use index::Index;
use ledger::{Place, PlaceEvent};

// Tells the index what the place carries now: its key gets the number of the place, unless it has one already, and a free
// place gives its number back. Answers whether a key has lost its number.
fn tell<I: Index>(index: &mut I, n: usize, key: Option<I::Key>) -> bool
    ensures answer { result ≡ loses (I.Index.slots index.old) n key }
    ensures after { I.Index.slots index.new ≡ told_of I.Key.Key.order (I.Index.slots index.old) n key }
{
    match key {
        Some(key) => {
            let _ = index.add(key, n);
            false
        }
        None => index.discard(n).is_ok(),
    }
}

// What the event makes of the place with the number. Answers whether a key has lost its number.
pub(crate) fn turn_place<I: Index>(
    index: &mut I,
    n: usize,
    place: &mut Place<I::Key>,
    event: PlaceEvent<I::Key>,
) -> bool
    ensures after { place.new ≡ after place.old event }
    ensures index { KeepsAt result n (I.Index.slots index.old) place.old (I.Index.slots index.new) place.new }
{
    *place = place.on(event);
    tell(index, n, place.key())
}

// What the event makes of the place, if there is one. Answers whether a key has lost its number.
pub(crate) fn turn<I: Index>(
    index: &mut I,
    places: &mut [Place<I::Key>],
    n: usize,
    event: PlaceEvent<I::Key>,
) -> bool
    ensures after { places.new ≡ turned event n places.old }
    ensures index { KeepsBut result (I.Index.slots index.old) places.old (I.Index.slots index.new) places.new }
{
    // tested and then indexed: the library's get_mut says nothing of what the slice ends as
    if n >= places.len() {
        return false;
    }
    turn_place(index, n, &mut places[n], event)
}

// Gives each key that a place carries a number again, if one has lost its own.
pub(crate) fn relist<I: Index>(index: &mut I, places: &[Place<I::Key>], lost: bool)
    ensures index { ∥ AgreeBut lost (I.Index.slots index.old) places.now ∥₁ → ∥ Agree (I.Index.slots index.new) places.now ∥₁ }
{
    if lost {
        list_keys(index, places);
    }
}

// Gives each key that one of the places carries a number in the index, if it has none.
fn list_keys<I: Index>(index: &mut I, places: &[Place<I::Key>])
    ensures index { AgreeBut true (I.Index.slots index.old) places.now → Agree (I.Index.slots index.new) places.now }
{
    for (n, place) in places.iter().enumerate() {
        if let Some(key) = place.key() {
            // refused where the key has a number already
            let _ = index.add(key, n);
        }
    }
}
