// Drives the bucket index and the tree index through the same calls as a plain list of pairs, and prints what each answered.
// Every answer that differs from the list's is counted, and the first one is told.
#![tactic(auto)]

mod call;
mod plain;
mod script;
mod subject;
mod tally;

use bucket_index::{BucketIndex, CAPACITY};
use keys::CodeKey;
use plain::PlainList;
use script::{Kind, Script};
use std::io;
use subject::Subject;
use tally::{Tally, drive};
use tree_index::{Node, SearchTree};

// More nodes than a tree uses.
const NODES: usize = 600;

// The lists of calls that all three go through.
const KINDS: [Kind; 4] = [Kind::Discards, Kind::Full, Kind::Rising, Kind::Random(800)];

// Capacities of trees, down to none.
const CAPACITIES: [usize; 3] = [20, 1, 0];

// Drives the subject through the calls, and once more when it was emptied, and prints the tally.
fn try_out<S: Subject + Drop>(
    rt: &HostRuntime,
    name: &str,
    mut subject: S,
    capacity: usize,
    script: &Script,
) -> io::Result<()> {
    let mut tally = Tally::default();
    drive(rt.alloc(), &mut subject, capacity, script, &mut tally)?;
    let mut subject = subject.anew();
    drive(rt.alloc(), &mut subject, capacity, script, &mut tally)?;
    println!(rt; "  {name}: {tally:?}")
}

// The plain list and a tree in so many of the nodes, side by side.
fn try_tree(
    rt: &HostRuntime,
    nodes: &mut [Node<CodeKey>],
    count: usize,
    script: &Script,
) -> io::Result<()> {
    let count = nodes.len().min(count);
    let capacity = count.min(CAPACITY);
    let list = PlainList::new(rt.alloc(), capacity);
    try_out(rt, "PlainList", list, capacity, script)?;
    let tree = SearchTree::new(&mut nodes[..count]);
    try_out(rt, "SearchTree", tree, capacity, script)
}

// All three side by side.
fn try_all(rt: &HostRuntime, nodes: &mut [Node<CodeKey>], kind: Kind) -> io::Result<()> {
    println!(rt; "{kind:?}")?;
    let script = Script::of(rt.alloc(), kind)?;
    try_tree(rt, nodes, NODES, &script)?;
    try_out(rt, "BucketIndex", BucketIndex::new(), CAPACITY, &script)
}

// The plain list and a tree of so small a capacity.
fn try_small(rt: &HostRuntime, nodes: &mut [Node<CodeKey>], capacity: usize) -> io::Result<()> {
    println!(rt; "capacity {capacity}")?;
    let script = Script::of(rt.alloc(), Kind::Random(400))?;
    try_tree(rt, nodes, capacity, &script)
}

// Every list of calls, and then every capacity, in the same nodes.
fn try_every(rt: &HostRuntime, nodes: &mut [Node<CodeKey>]) -> io::Result<()> {
    for kind in KINDS {
        try_all(rt, nodes, kind)?;
    }
    for capacity in CAPACITIES {
        try_small(rt, nodes, capacity)?;
    }
    Ok(())
}

fn main(rt: HostRuntime) -> io::Result<()> {
    let mut nodes: [Node<CodeKey>; NODES] = [Node::new(); NODES];
    try_every(&rt, &mut nodes)
}
