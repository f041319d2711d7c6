// What a place of the store holds, what can happen to it, and the tests by which calls pick places.
// The record of a place lies on the shelf, at the same number. Each method is its definition in specs/Places.antt.
ghost use Rattle.ledger.specs.Places.{after, carries, free, in_report, is_current, is_draft_of, is_finished, is_free, is_seen_at, is_wanted, key_of, spans};
ghost use Rattle.std.specs.Prelude.{◌≡◌, Some, nat_lt};

use keys::Key;

#[derive(Clone, Copy)]
pub enum PlaceState<K> {
    Free,
    // a record that an open job wrote and has not committed
    Unstamped { key: K, job: u32 },
    // a mark that an open job removed the key
    Gone { key: K, job: u32 },
    // the key's committed version since the begin stamp
    Current { key: K, begin: u32 },
    // a version that was replaced or removed at the finish stamp
    Superseded { key: K, begin: u32, finish: u32 },
}

#[derive(Clone, Copy)]
pub struct Place<K> {
    pub state: PlaceState<K>,
}

#[derive(Clone, Copy)]
pub enum PlaceEvent<K> {
    Put { key: K, job: u32 },
    Remove { key: K, job: u32 },
    Commit { stamp: u32 },
    Abort,
    Age,
}

// An open report: its ticket's running number, and the stamp that it sees.
#[derive(Clone, Copy)]
pub struct Report {
    pub ticket: u32,
    pub stamp: u32,
}

impl<K: Copy> Place<K> {
    // A place without a version.
    pub fn free() -> Place<K>
        ensures answer { result ≡ free }
    {
        Place {
            state: PlaceState::Free,
        }
    }

    // The place after the event; as it was where the event does not concern it.
    pub fn on(self, event: PlaceEvent<K>) -> Place<K>
        ensures answer { result ≡ after self event }
    {
        let state = match (self.state, event) {
            (PlaceState::Free, PlaceEvent::Put { key, job }) => PlaceState::Unstamped { key, job },
            (PlaceState::Gone { key, job }, PlaceEvent::Put { .. }) => PlaceState::Unstamped {
                key,
                job,
            },
            (PlaceState::Free, PlaceEvent::Remove { key, job }) => PlaceState::Gone { key, job },
            (PlaceState::Unstamped { key, job }, PlaceEvent::Remove { .. }) => PlaceState::Gone {
                key,
                job,
            },
            (PlaceState::Unstamped { key, .. }, PlaceEvent::Commit { stamp }) =>
                PlaceState::Current { key, begin: stamp },
            (PlaceState::Gone { .. }, PlaceEvent::Commit { .. }) => PlaceState::Free,
            (PlaceState::Current { key, begin }, PlaceEvent::Commit { stamp }) =>
                PlaceState::Superseded {
                    key,
                    begin,
                    finish: stamp,
                },
            (PlaceState::Unstamped { .. } | PlaceState::Gone { .. }, PlaceEvent::Abort) =>
                PlaceState::Free,
            (PlaceState::Superseded { .. }, PlaceEvent::Age) => PlaceState::Free,
            (unconcerned, _) => unconcerned,
        };
        Place { state }
    }

    pub fn is_free(self) -> bool
        ensures answer { result ≡ is_free self.state }
    {
        matches!(self.state, PlaceState::Free)
    }

    // The key that the place carries.
    pub fn key(self) -> Option<K>
        ensures answer { result ≡ key_of self.state }
    {
        match self.state {
            PlaceState::Free => None,
            PlaceState::Unstamped { key, .. }
            | PlaceState::Gone { key, .. }
            | PlaceState::Current { key, .. }
            | PlaceState::Superseded { key, .. } => Some(key),
        }
    }

    // Whether it is a draft of the job: a record, or a mark that the key is removed.
    pub fn is_draft_of(self, job: u32) -> bool
        ensures answer { result ≡ is_draft_of job self.state }
    {
        matches!(
            self.state,
            PlaceState::Unstamped { job: own, .. } | PlaceState::Gone { job: own, .. } if own == job
        )
    }

    pub fn is_current(self) -> bool
        ensures answer { result ≡ is_current self.state }
    {
        matches!(self.state, PlaceState::Current { .. })
    }

    // Whether a report with the stamp sees it.
    pub fn is_seen_at(self, stamp: u32) -> bool
        ensures answer { result ≡ is_seen_at stamp self.state }
    {
        match self.state {
            PlaceState::Current { begin, .. } => begin <= stamp,
            PlaceState::Superseded { begin, finish, .. } => span_holds(begin, finish, stamp),
            _ => false,
        }
    }

    // Whether it is superseded, with a finish below the limit.
    pub fn is_finished_below(self, limit: u32) -> bool
        ensures answer { result ≡ is_finished (λ f. nat_lt f limit) self.state }
    {
        matches!(self.state, PlaceState::Superseded { finish, .. } if finish < limit)
    }

    // Whether it is wanted: a draft, current, or superseded with an open report's stamp in its span.
    pub fn is_wanted(self, reports: &[Report]) -> bool
        ensures answer { result ≡ is_wanted reports.now self.state }
    {
        match self.state {
            PlaceState::Free => false,
            PlaceState::Unstamped { .. } | PlaceState::Gone { .. } | PlaceState::Current { .. } =>
                true,
            PlaceState::Superseded { begin, finish, .. } => is_in_report(reports, begin, finish),
        }
    }
}

impl<K: Key> Place<K> {
    // Whether the place carries the key.
    pub fn carries(self, key: K) -> bool
        ensures answer { result ≡ carries K.Key.order key self.state }
    {
        self.key().is_some_and(|own| own.compare(key).is_eq())
    }
}

// Whether the span from begin up to, but without, finish holds the stamp.
fn span_holds(begin: u32, finish: u32, stamp: u32) -> bool
    ensures answer { result ≡ spans begin (Some finish) stamp }
{
    (begin..finish).contains(&stamp)
}

// Whether the span holds the stamp of one of the reports.
fn is_in_report(reports: &[Report], begin: u32, finish: u32) -> bool
    ensures answer { result ≡ in_report reports.now begin finish }
{
    reports
        .iter()
        .any(|report| span_holds(begin, finish, report.stamp))
}
