// The limits of every store; specs/Limits.antt has them under the same names.

// Reports that can be open at once.
pub const MAX_REPORTS: usize = 16;

// Jobs that can be open at once.
pub const MAX_JOBS: usize = 8;

// Keys that one job can hold: the entries of its row.
pub const ROW_ENTRIES: usize = 32;

// The stamp at which no commit is granted any more.
pub const LAST_STAMP: u32 = 4_000_000_000;

// The last running number that is given out.
pub const LAST_TICKET: u32 = 4_000_000_000;
