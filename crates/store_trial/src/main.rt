// Puts the same calls to a store over the bucket index and to one over the tree index, with age calls sprinkled differently,
// and prints how often each kind of answer came, and how many answers differ: none, though places, indexes and ageing do.
#![tactic(auto)]

mod run;
mod script;
mod tally;

use anyhow::anyhow;
use bucket_index::BucketIndex;
use engine::Opening;
use index::Index;
use keys::CodeKey;
use ledger::Answer;
use run::{Ageing, answers, row_answers};
use script::{STORE, Script};
use std::io;
use store::open;
use tally::Tally;
use tree_index::{Node, SearchTree};

// The most places of a store here.
const PLACES: usize = 40;

// What a pair of stores is asked.
#[derive(Clone, Copy)]
enum Asked {
    // so many pseudo-random calls about so many keys
    Drawn { calls: u32, keys: u16 },
    // the puts of one job, one more than its row has entries
    Row,
}

// What a pair of stores is opened with, and what it is asked.
#[derive(Clone, Copy)]
struct Setting {
    opening: Opening,
    asked: Asked,
}

// A store that is often full; one whose stamps and tickets are used up; and a new one, in which a job's row fills up.
const SETTINGS: [Setting; 3] = [
    Setting {
        opening: Opening {
            store: STORE as u32,
            places: 12,
            first_stamp: 0,
            first_ticket: 1,
        },
        asked: Asked::Drawn {
            calls: 1_000,
            keys: 6,
        },
    },
    Setting {
        opening: Opening {
            store: STORE as u32,
            places: 30,
            first_stamp: 3_999_999_980,
            first_ticket: 3_999_999_900,
        },
        asked: Asked::Drawn {
            calls: 1_000,
            keys: 5,
        },
    },
    Setting {
        opening: Opening {
            store: STORE as u32,
            places: PLACES,
            first_stamp: 5,
            first_ticket: 9,
        },
        asked: Asked::Row,
    },
];

// The answers of a store over the index.
fn answers_over<I: Index<Key = CodeKey> + Drop>(
    rt: &HostRuntime,
    index: I,
    setting: Setting,
    ageing: Ageing,
) -> anyhow::Result<Vec<Answer<CodeKey, u32>>> {
    let mut records = [0; PLACES];
    let shelf = &mut records[..setting.opening.places.min(PLACES)];
    let opened = open::<I, u32>(rt.alloc(), setting.opening, index);
    let mut store = opened.map_err(|_| anyhow!("the store was not opened"))?;
    Ok(match setting.asked {
        Asked::Drawn { calls, keys } => answers(
            rt.alloc(),
            &mut store,
            shelf,
            Script::new(keys),
            calls,
            ageing,
        )?,
        Asked::Row => row_answers(rt.alloc(), &mut store, shelf)?,
    })
}

// Both stores through one list, and what they answered.
fn compare(rt: &HostRuntime, nodes: &mut [Node<CodeKey>], setting: Setting) -> anyhow::Result<()> {
    let seldom = Ageing {
        every: 70,
        limit: setting.opening.first_stamp.saturating_add(9),
    };
    let often = Ageing {
        every: 3,
        limit: u32::MAX,
    };
    let over_buckets = answers_over(rt, BucketIndex::new(), setting, seldom)?;
    let over_tree = answers_over(rt, SearchTree::new(nodes), setting, often)?;
    let mut tally = Tally::default();
    for (a, b) in over_buckets.iter().zip(over_tree.iter()) {
        tally.count(*a);
        if *a != *b {
            tally.differ();
        }
    }
    let calls = over_buckets.len();
    println!(rt; "{calls} calls: {tally:?}")?;
    Ok(())
}

// Every setting, in the same nodes.
fn compare_all(rt: &HostRuntime, nodes: &mut [Node<CodeKey>]) -> anyhow::Result<()> {
    for setting in SETTINGS {
        compare(rt, nodes, setting)?;
    }
    Ok(())
}

fn main(rt: HostRuntime) -> anyhow::Result<()> {
    let mut nodes: [Node<CodeKey>; PLACES] = [Node::new(); PLACES];
    compare_all(&rt, &mut nodes)
}
