// A call as a value: what is asked of a store and its shelf, and what it answers.
// The law of runs stands on these functions: whatever list of calls led to the store, it leads on by this one, and the law holds of it.
ghost use Rattle.store.specs.Law.{LeadsOn, LeftAlone, RefusedLeavesAll};
ghost use Rattle.ledger.specs.declared.call.Call.TheVariants.{Basic};

use engine::Store;
use index::Index;
use ledger::{Answer, BasicCall, Granted};
use table::Aged;

// Any call but a walk, on a store over any index.
pub fn ask<I: Index, R: Copy>(
    store: &mut Store<I>,
    shelf: &mut [R],
    call: BasicCall<I::Key, R>,
) -> Answer<I::Key, R>
    ensures law { LeadsOn (Basic call) result store.old store.new shelf.old shelf.new }
    ensures unchanged { RefusedLeavesAll result store.old store.new shelf.old shelf.new }
    ensures astray { LeftAlone store.old shelf.old shelf.new }
{
    match call {
        BasicCall::BeginReport => {
            let (ticket, stamp) = store.begin_report()?;
            Ok(Granted::Report { ticket, stamp })
        }
        BasicCall::BeginJob => {
            let ticket = store.begin_job()?;
            Ok(Granted::Job { ticket })
        }
        BasicCall::Read { report, key } => Ok(Granted::Record(store.read(shelf, report, key)?)),
        BasicCall::Look { job, key } => Ok(Granted::Record(store.look(shelf, job, key)?)),
        BasicCall::Put { job, key, item } => store
            .put(shelf, job, key, item)
            .and(Ok(Granted::Done)),
        BasicCall::Remove { job, key } => store.remove(job, key).and(Ok(Granted::Done)),
        BasicCall::Commit { job } => Ok(Granted::Stamp(store.commit(job)?)),
        BasicCall::Abort { job } => store.abort(job).and(Ok(Granted::Done)),
        BasicCall::End { report } => store.end(report).and(Ok(Granted::Done)),
        BasicCall::Age { limit } => {
            let Aged { looked, freed } = store.age(limit);
            Ok(Granted::Aged { looked, freed })
        }
    }
}
