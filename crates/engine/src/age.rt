// Ageing: superseded versions that no open report's stamp lies in the span of are freed.
ghost use Rattle.engine.specs.Agreement.{Keeps, KeepsAt};
ghost use Rattle.ledger.specs.Steps.{place_aged};
ghost use Rattle.std.specs.Prelude.{◌≡◌, map, Some};
ghost use Rattle.table.specs.Ageing.{aged, freed, looked_at, within};
ghost use Rattle.table.specs.Views.{view, with_places};

use crate::store::Store;
use crate::turn::{relist, turn_place};
use index::Index;
use ledger::{Place, PlaceEvent, Report};
use table::{Aged, is_freed};

// Frees the place with the number if ageing with the limit does. Answers whether a key has lost its number.
fn age_place<I: Index>(
    index: &mut I,
    n: usize,
    place: &mut Place<I::Key>,
    reports: &[Report],
    limit: Option<u32>,
) -> bool
    ensures after { place.new ≡ place_aged (λ finish. within limit finish) reports.now place.old }
    ensures index { KeepsAt result n (I.Index.slots index.old) place.old (I.Index.slots index.new) place.new }
{
    is_freed(*place, reports, limit) && turn_place(index, n, place, PlaceEvent::Age)
}

// Frees what ageing with the limit frees.
pub(crate) fn age_places<I: Index>(
    index: &mut I,
    places: &mut [Place<I::Key>],
    reports: &[Report],
    limit: Option<u32>,
)
    ensures after { places.new ≡ map (place_aged (λ finish. within limit finish) reports.now) places.old }
    ensures index { Keeps (I.Index.slots index.old) places.old (I.Index.slots index.new) places.new }
{
    let mut lost = false;
    for (n, place) in places.iter_mut().enumerate() {
        lost |= age_place(index, n, place, reports, limit);
    }
    relist(index, places, lost);
}

impl<I: Index> Store<I> {
    // Looks at the superseded versions with a finish below the limit and frees those that are not wanted.
    pub fn age(&mut self, limit: u32) -> Aged
        ensures looked { result.looked ≡ looked_at (Some limit) (view self.old.table) }
        ensures freed { result.freed ≡ freed (Some limit) (view self.old.table) }
        ensures after { view self.new.table ≡ with_places (view self.old.table) (aged (Some limit) (view self.old.table)) }
    {
        let counts = self.table.age_counts(Some(limit));
        age_places(
            &mut self.index,
            &mut self.table.places,
            &self.table.reports.items,
            Some(limit),
        );
        counts
    }
}
