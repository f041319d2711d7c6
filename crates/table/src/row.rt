// A job's row: the keys that it holds, each by the places of its draft and of the key's current version.
// Plain arrays, so that a row is copied by value when its job ends.
use ledger::ROW_ENTRIES;

#[derive(Clone, Copy)]
pub struct HeldKey {
    // the place of the job's draft at the key
    pub draft: Option<usize>,
    // the place of the key's current version, which no one else can replace while the key is held
    pub current: Option<usize>,
}

#[derive(Clone, Copy)]
pub struct Row {
    // the running number of the job's ticket
    pub ticket: u32,
    // how many entries are used, from the first on; a count beside an array, since a row is fixed memory and copied by value
    pub used: usize,
    pub entries: [HeldKey; ROW_ENTRIES],
}
