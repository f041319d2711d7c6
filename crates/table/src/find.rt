// Places found by what they hold. Each answers some place of the kind that it looks for, or none where there is none:
// which of several is left open, so that a faster search can stand here without a change to a caller.
ghost use Rattle.ledger.specs.Places.{free, is_free, is_wanted};
ghost use Rattle.table.specs.Checks.{is_current_of};
ghost use Rattle.table.specs.Reads.{FindsPlace, is_seen_of};
ghost use Rattle.std.specs.Prelude.{◌≡◌, not, slice_index_or};

use keys::Key;
use ledger::{Place, Report};

// The place; a free one past the last.
pub fn place_at<K: Key>(places: &[Place<K>], n: usize) -> Place<K>
    ensures answer { result ≡ slice_index_or places.now n free }
{
    places.get(n).copied().unwrap_or(Place::free())
}

// A free place.
pub fn find_free<K: Key>(places: &[Place<K>]) -> Option<usize>
    ensures answer { FindsPlace is_free places.now result }
{
    places.iter().position(|place| place.is_free())
}

// A place that holds no wanted version.
pub fn find_unwanted<K: Key>(places: &[Place<K>], reports: &[Report]) -> Option<usize>
    ensures answer { FindsPlace (λ p. not (is_wanted reports.now p)) places.now result }
{
    places.iter().position(|place| !place.is_wanted(reports))
}

// The place of the key's current version.
pub fn find_current<K: Key>(places: &[Place<K>], key: K) -> Option<usize>
    ensures answer { FindsPlace (is_current_of K.Key.order key) places.now result }
{
    places
        .iter()
        .position(|place| place.is_current() && place.carries(key))
}

// The place of the version that a report with the stamp sees at the key.
pub fn find_seen<K: Key>(places: &[Place<K>], stamp: u32, key: K) -> Option<usize>
    ensures answer { FindsPlace (is_seen_of K.Key.order stamp key) places.now result }
{
    places
        .iter()
        .position(|place| place.is_seen_at(stamp) && place.carries(key))
}
