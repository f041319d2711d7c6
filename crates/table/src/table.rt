// The plain inner table of a store, without its index.
// The memory of the three lists is taken at opening; their lengths never pass what was taken.
use crate::open_list::OpenList;
use crate::row::Row;
use ledger::{MAX_JOBS, MAX_REPORTS, Place, Report};

#[derive(Drop)]
pub struct Table<K> {
    // the number of the store, which its tickets carry
    pub store: u16,
    // the stamp of the last commit, or the first stamp
    pub stamp: u32,
    // the running number of the next ticket
    pub next: u32,
    pub places: Vec<Place<K>>,
    pub reports: OpenList<Report, MAX_REPORTS>,
    pub jobs: OpenList<Row, MAX_JOBS>,
}
