// What ageing looks at and what it frees: the superseded versions below a limit that no open report's stamp lies in the span of.
ghost use Rattle.std.specs.Prelude.{◌≡◌};
ghost use Rattle.table.specs.Ageing.{freed, is_freed, is_looked_at, looked_at};
ghost use Rattle.table.specs.Views.{view};

use crate::table::Table;
use keys::Key;
use ledger::{Place, PlaceState, Report};

// How many superseded versions were looked at, and how many of them were freed.
#[derive(Clone, Copy)]
pub struct Aged {
    pub looked: usize,
    pub freed: usize,
}

// Whether it is superseded, with a finish below the limit if there is one.
fn is_looked_at<K: Key>(place: Place<K>, limit: Option<u32>) -> bool
    ensures answer { result ≡ is_looked_at limit place.state }
{
    match limit {
        Some(limit) => place.is_finished_below(limit),
        None => matches!(place.state, PlaceState::Superseded { .. }),
    }
}

// Whether ageing frees the place.
pub fn is_freed<K: Key>(place: Place<K>, reports: &[Report], limit: Option<u32>) -> bool
    ensures answer { result ≡ is_freed limit reports.now place.state }
{
    is_looked_at(place, limit) && !place.is_wanted(reports)
}

impl<K: Key> Table<K> {
    // How many places ageing looks at.
    fn count_looked(&self, limit: Option<u32>) -> usize
        ensures answer { result ≡ looked_at limit (view self.now) }
    {
        self.places
            .iter()
            .filter(|place| is_looked_at(**place, limit))
            .count()
    }

    // How many places ageing frees.
    fn count_freed(&self, limit: Option<u32>) -> usize
        ensures answer { result ≡ freed limit (view self.now) }
    {
        let reports = &self.reports.items;
        self.places
            .iter()
            .filter(|place| is_freed(**place, reports, limit))
            .count()
    }

    // What ageing with the limit looks at and frees.
    pub fn age_counts(&self, limit: Option<u32>) -> Aged
        ensures looked { result.looked ≡ looked_at limit (view self.now) }
        ensures freed { result.freed ≡ freed limit (view self.now) }
    {
        Aged {
            looked: self.count_looked(limit),
            freed: self.count_freed(limit),
        }
    }
}
