// How tickets are used: a report that is begun is ended, a job that is begun is committed.
ghost use Rattle.store.specs.declared.example.Failed.TheVariants.{NotBegun, NotEnded};
ghost use Rattle.std.specs.Prelude.{◌≡◌};

use crate::tickets::{GivenBack, OfJob, OfReport};
use crate::typed::{begin_job, begin_report, commit_job, end_report};
use engine::Store;
use index::Index;
use ledger::Refusal;

// Why a report or a job did not come to its end. It may be let go where no unspent ticket is in it.
#[derive(Drop)]
pub enum Failed<Kind> {
    NotBegun(Refusal),
    // its end was refused; the ticket is given back
    NotEnded(GivenBack<Kind>),
}

impl<Kind> From<Refusal> for Failed<Kind> {
    ghost from_gives = { λ why e. e ≡ NotBegun why };

    fn from(why: Refusal) -> Failed<Kind> {
        Failed::NotBegun(why)
    }
}

impl<Kind> From<GivenBack<Kind>> for Failed<Kind> {
    ghost from_gives = { λ back e. e ≡ NotEnded back };

    fn from(back: GivenBack<Kind>) -> Failed<Kind> {
        Failed::NotEnded(back)
    }
}

// Begins a report and ends it: the stamp that it saw.
pub fn visit<I: Index, R>(store: &mut Store<I>) -> Result<u32, Failed<OfReport>> {
    let (ticket, stamp) = begin_report::<I, R>(store)?;
    end_report::<I, R>(store, ticket)?;
    Ok(stamp)
}

// Begins a job and commits it twice over: the second time it is another job, since the first ticket is gone with its commit.
pub fn commit_twice<I: Index, R>(store: &mut Store<I>) -> Result<u32, Failed<OfJob>> {
    commit_once::<I, R>(store)?;
    commit_once::<I, R>(store)
}

// Begins a job and commits it.
fn commit_once<I: Index, R>(store: &mut Store<I>) -> Result<u32, Failed<OfJob>> {
    let ticket = begin_job::<I, R>(store)?;
    let stamp = commit_job::<I, R>(store, ticket)?;
    Ok(stamp)
}
