// The entries of a row: a new row, the entries in use, and an entry noted.
ghost use Rattle.keys.specs.Refusals.{plain, told};
ghost use Rattle.ledger.specs.Refusals.{code};
ghost use Rattle.ledger.specs.Words.{when};
ghost use Rattle.std.specs.Prelude.{◌≡◌, not, ◌&&◌, is_some};
ghost use Rattle.table.specs.Checks.{unless};
ghost use Rattle.table.specs.Rows.{entries_of, is_row_full, new_row, noted, place_of};

use crate::row::{HeldKey, Row};
use ledger::{ROW_ENTRIES, Refusal};

impl HeldKey {
    // The place by which the key is held: that of the draft, else that of the current version.
    pub fn place(self) -> Option<usize>
        ensures answer { result ≡ place_of self }
    {
        self.draft.or(self.current)
    }
}

impl Row {
    // The row of a job that holds no key.
    pub fn new(ticket: u32) -> Row
        ensures answer { result ≡ new_row ticket }
    {
        Row {
            ticket,
            used: 0,
            entries: [HeldKey {
                draft: None,
                current: None,
            }; ROW_ENTRIES],
        }
    }

    // The entries in use.
    pub fn in_use(&self) -> &[HeldKey]
        ensures answer { result.now ≡ entries_of self.now }
    {
        let used = self.used.min(ROW_ENTRIES);
        &self.entries[..used]
    }

    // Whether every entry is used.
    pub fn is_full(&self) -> bool
        ensures answer { result ≡ is_row_full self.now }
    {
        self.used >= ROW_ENTRIES
    }

    // Refuses a new entry where every one is used; none is needed where there is one for the key already.
    pub fn check_room(&self, entry: Option<usize>) -> Result<(), Refusal>
        ensures answer { told code result ≡ unless (when (not (is_some entry) && is_row_full self.now) (plain 9)) tt }
    {
        if entry.is_none() && self.is_full() {
            return Err(Refusal::RowFull);
        }
        Ok(())
    }

    // The row with the entry in the place of the one at the position, or, with none given, as one more if there is room.
    pub fn noted(self, at: Option<usize>, entry: HeldKey) -> Row
        ensures answer { result ≡ noted at entry self }
    {
        let mut row = self;
        let used = row.used;
        // By bounds test and index: `get_mut` does not say what the array is after a write through what it lends.
        match at {
            Some(i) if i < ROW_ENTRIES => row.entries[i] = entry,
            None if used < ROW_ENTRIES => {
                row.entries[used] = entry;
                row.used = used + 1;
            }
            _ => {}
        }
        row
    }
}
