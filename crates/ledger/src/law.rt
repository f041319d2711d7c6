// The law of runs, and examples of it, each as the contract of a function: without its proof the crate fails.
// Proved at the level of the definitions, once for every key kind and record kind; the store's code is held to the same definitions.
ghost use Rattle.ledger.specs.Examples.{Examples};
ghost use Rattle.ledger.specs.Laws.{LawOfRuns};
ghost use Rattle.ledger.specs.Refusals.{CodesDiffer};

use keys::Key;

// What is true of every run of calls on a store, whatever its keys and records; and no two refusals are told alike.
pub fn law_of_runs<K: Key, R>()
    ensures law { LawOfRuns K R K.Key.order }
    ensures codes { CodesDiffer }
{}

// Examples of spans, of ageing and of drafts, for every key kind and record kind.
pub fn worked_examples<K: Key, R>()
    ensures examples { Examples K R K.Key.order }
{}
